// The desk's calls. What a success carries goes to the front of values, as signed numbers in 64 bits. Each call is a C function of its own and tests
// its own values: C calls no generic function.
ghost use Rattle.std.specs.Prelude.{◌≡◌};
ghost use Rattle.desk.specs.Requests.{DeskCall, login_call, challenge_call, activate_call, lock_call, unlock_call, suspend_call, resume_call, sync_call, void_call, query_call};
ghost use Rattle.capi.specs.Stored.{left};
ghost use Rattle.capi.specs.DeskLeft.{particulars_of, left_with, desk_left, plain_left};

use crate::values::{MOST_VALUES, put_answer};
use desk::{
    Particulars, activate, challenge_login, load, lock, login, query, resume, suspend, sync,
    unlock, void,
};
use token::number_of;
use window::{Scheme, Seconds};
use words::codes::BAD_ARGUMENT;

// The call `login`.
#[unsafe(no_mangle)]
pub extern "C" fn dl_login(
    table: &mut [u8],
    serial: u64,
    clock: u64,
    password: &[u8],
    values: &mut [u64],
) -> u16
    ensures { left_with result table.new values.new ≡ desk_left (login_call password.now serial clock) table.old values.old }
{
    if values.len() < MOST_VALUES {
        return BAD_ARGUMENT;
    }
    let answer = login(table, serial, Seconds(clock), password);
    put_answer(answer, values)
}

// The call `challenge login`.
#[unsafe(no_mangle)]
pub extern "C" fn dl_challenge_login(
    table: &mut [u8],
    serial: u64,
    clock: u64,
    challenge: &[u8],
    password: &[u8],
    values: &mut [u64],
) -> u16
    ensures { left_with result table.new values.new ≡ desk_left (challenge_call challenge.now password.now serial clock) table.old values.old }
{
    if values.len() < MOST_VALUES {
        return BAD_ARGUMENT;
    }
    let answer = challenge_login(table, serial, Seconds(clock), challenge, password);
    put_answer(answer, values)
}

// The call `activate`.
#[unsafe(no_mangle)]
pub extern "C" fn dl_activate(
    table: &mut [u8],
    serial: u64,
    clock: u64,
    password: &[u8],
    following: &[u8],
    values: &mut [u64],
) -> u16
    ensures { left_with result table.new values.new ≡ desk_left (activate_call password.now following.now serial clock) table.old values.old }
{
    if values.len() < MOST_VALUES {
        return BAD_ARGUMENT;
    }
    let answer = activate(table, serial, Seconds(clock), password, following);
    put_answer(answer, values)
}

// The call `lock`.
#[unsafe(no_mangle)]
pub extern "C" fn dl_lock(table: &mut [u8], serial: u64, clock: u64) -> u16
    ensures { left result table.new ≡ plain_left (lock_call serial clock) table.old }
{
    number_of(lock(table, serial, Seconds(clock)))
}

// The call `unlock`.
#[unsafe(no_mangle)]
pub extern "C" fn dl_unlock(
    table: &mut [u8],
    serial: u64,
    clock: u64,
    password: &[u8],
    values: &mut [u64],
) -> u16
    ensures { left_with result table.new values.new ≡ desk_left (unlock_call password.now serial clock) table.old values.old }
{
    if values.len() < MOST_VALUES {
        return BAD_ARGUMENT;
    }
    let answer = unlock(table, serial, Seconds(clock), password);
    put_answer(answer, values)
}

// The call `suspend`.
#[unsafe(no_mangle)]
pub extern "C" fn dl_suspend(table: &mut [u8], serial: u64, clock: u64) -> u16
    ensures { left result table.new ≡ plain_left (suspend_call serial clock) table.old }
{
    number_of(suspend(table, serial, Seconds(clock)))
}

// The call `resume`.
#[unsafe(no_mangle)]
pub extern "C" fn dl_resume(
    table: &mut [u8],
    serial: u64,
    clock: u64,
    password: &[u8],
    values: &mut [u64],
) -> u16
    ensures { left_with result table.new values.new ≡ desk_left (resume_call password.now serial clock) table.old values.old }
{
    if values.len() < MOST_VALUES {
        return BAD_ARGUMENT;
    }
    let answer = resume(table, serial, Seconds(clock), password);
    put_answer(answer, values)
}

// The call `sync`.
#[unsafe(no_mangle)]
pub extern "C" fn dl_sync(
    table: &mut [u8],
    serial: u64,
    clock: u64,
    choice: u8,
    password: &[u8],
    following: &[u8],
    values: &mut [u64],
) -> u16
    ensures { left_with result table.new values.new ≡ desk_left (sync_call choice password.now following.now serial clock) table.old values.old }
{
    if values.len() < MOST_VALUES {
        return BAD_ARGUMENT;
    }
    let answer = sync(table, serial, Seconds(clock), choice, password, following);
    put_answer(answer, values)
}

// The call `void`.
#[unsafe(no_mangle)]
pub extern "C" fn dl_void(table: &mut [u8], serial: u64, clock: u64) -> u16
    ensures { left result table.new ≡ plain_left (void_call serial clock) table.old }
{
    number_of(void(table, serial, Seconds(clock)))
}

// The call `query`.
#[unsafe(no_mangle)]
pub extern "C" fn dl_query(table: &[u8], serial: u64, clock: u64, values: &mut [u64]) -> u16
    ensures { left_with result table.now values.new ≡ desk_left (query_call serial clock) table.now values.old }
{
    if values.len() < MOST_VALUES {
        return BAD_ARGUMENT;
    }
    let answer = query(table, serial, Seconds(clock));
    put_answer(answer, values)
}

// The call `load`.
#[unsafe(no_mangle)]
pub extern "C" fn dl_load(
    table: &mut [u8],
    serial: u64,
    kind: u8,
    algorithm: u8,
    digits: u8,
    period: u8,
    limit: u8,
    key: &[u8],
    wait: u32,
    expiry: u64,
) -> u16
    ensures { left result table.new ≡ plain_left (DeskCall.load (particulars_of serial kind algorithm digits period limit wait expiry) key.now) table.old }
{
    let particulars = Particulars {
        serial,
        scheme: Scheme {
            kind,
            algorithm,
            digits,
        },
        period,
        limit,
        wait,
        expiry: Seconds(expiry),
    };
    number_of(load(table, particulars, key))
}
