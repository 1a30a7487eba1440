// The calls that name a token: the typed bytes become a request, or 9005.
ghost use Rattle.std.specs.Prelude.{◌≡◌};
ghost use Rattle.window.specs.PasswordAt.{password_at};
ghost use Rattle.desk.specs.Requests.{login_call, challenge_call, activate_call, lock_call, unlock_call, suspend_call, resume_call, sync_call, void_call, size_of};
ghost use Rattle.desk.specs.Desk.{result_of, desk_after};

use crate::serving::serve;
use otp::typed::password_of;
use token::{Answer, Refusal, Request};
use window::{Seconds, Size};

// The call `login`.
pub fn login(table: &mut [u8], serial: u64, clock: Seconds, password: &[u8]) -> Answer
    ensures { result_of result table.new ≡ desk_after password_at (login_call password.now serial clock.0) table.old }
{
    let p = password_of(password).ok_or(Refusal::BadArgument)?;
    serve(table, serial, clock, Request::Login(p), b"")
}

// The call `challenge login`.
pub fn challenge_login(
    table: &mut [u8],
    serial: u64,
    clock: Seconds,
    challenge: &[u8],
    password: &[u8],
) -> Answer
    ensures { result_of result table.new ≡ desk_after password_at (challenge_call challenge.now password.now serial clock.0) table.old }
{
    let p = password_of(password).ok_or(Refusal::BadArgument)?;
    serve(table, serial, clock, Request::ChallengeLogin(p), challenge)
}

// The call `activate`.
pub fn activate(
    table: &mut [u8],
    serial: u64,
    clock: Seconds,
    password: &[u8],
    following: &[u8],
) -> Answer
    ensures { result_of result table.new ≡ desk_after password_at (activate_call password.now following.now serial clock.0) table.old }
{
    let p = password_of(password).ok_or(Refusal::BadArgument)?;
    let q = password_of(following).ok_or(Refusal::BadArgument)?;
    serve(table, serial, clock, Request::Activate(p, q), b"")
}

// The call `lock`.
pub fn lock(table: &mut [u8], serial: u64, clock: Seconds) -> Answer
    ensures { result_of result table.new ≡ desk_after password_at (lock_call serial clock.0) table.old }
{
    serve(table, serial, clock, Request::Lock, b"")
}

// The call `unlock`.
pub fn unlock(table: &mut [u8], serial: u64, clock: Seconds, password: &[u8]) -> Answer
    ensures { result_of result table.new ≡ desk_after password_at (unlock_call password.now serial clock.0) table.old }
{
    let p = password_of(password).ok_or(Refusal::BadArgument)?;
    serve(table, serial, clock, Request::Unlock(p), b"")
}

// The call `suspend`.
pub fn suspend(table: &mut [u8], serial: u64, clock: Seconds) -> Answer
    ensures { result_of result table.new ≡ desk_after password_at (suspend_call serial clock.0) table.old }
{
    serve(table, serial, clock, Request::Suspend, b"")
}

// The call `resume`.
pub fn resume(table: &mut [u8], serial: u64, clock: Seconds, password: &[u8]) -> Answer
    ensures { result_of result table.new ≡ desk_after password_at (resume_call password.now serial clock.0) table.old }
{
    let p = password_of(password).ok_or(Refusal::BadArgument)?;
    serve(table, serial, clock, Request::Resume(p), b"")
}

// A number, as C has it: `sync` answers for each.
fn size_of(choice: u8) -> Size
    ensures { result ≡ size_of choice }
{
    if choice == 1 {
        return Size::Medium;
    }
    Size::Large
}

// The call `sync`: choice 1 takes the medium window, 2 the large one.
pub fn sync(
    table: &mut [u8],
    serial: u64,
    clock: Seconds,
    choice: u8,
    password: &[u8],
    following: &[u8],
) -> Answer
    ensures { result_of result table.new ≡ desk_after password_at (sync_call choice password.now following.now serial clock.0) table.old }
{
    if !((choice == 1) | (choice == 2)) {
        return Err(Refusal::BadArgument);
    }
    let p = password_of(password).ok_or(Refusal::BadArgument)?;
    let q = password_of(following).ok_or(Refusal::BadArgument)?;
    serve(
        table,
        serial,
        clock,
        Request::Sync(size_of(choice), p, q),
        b"",
    )
}

// The call `void`.
pub fn void(table: &mut [u8], serial: u64, clock: Seconds) -> Answer
    ensures { result_of result table.new ≡ desk_after password_at (void_call serial clock.0) table.old }
{
    serve(table, serial, clock, Request::Void, b"")
}
