// A request to the token of a serial.
ghost use Rattle.std.specs.Prelude.{◌≡◌, ◌+◌, ◌≤◌, length};
ghost use Rattle.window.specs.PasswordAt.{password_at};
ghost use Rattle.row.specs.Row.{row_bytes};
ghost use Rattle.desk.specs.Requests.{query_call, challenge_fits};
ghost use Rattle.desk.specs.Desk.{result_of, left_at, served, desk_after};

use crate::arguments::lent_ok;
use otp::challenge_ok;
use row::{KEY, LAST_STATE, ROW_BYTES, locate, store_row, wipe_key};
use token::{Answer, Left, Refusal, Request, decide, report};
use window::Seconds;

// Leaves in the table what a decision leaves of the row at a place.
fn leave(table: &mut [u8], at: usize, left: Left)
    requires { at + row_bytes ≤ length table.old }
    ensures { table.new ≡ left_at table.old at left }
{
    match left {
        Left::Same => {}
        Left::Stored(row) | Left::Voided(row) => store_row(table, at, row),
    }
    if let Left::Voided(_) = left {
        wipe_key(table, at);
    }
}

// Whether the lent challenge is in range: a challenge login needs one.
fn challenge_fits(request: Request, challenge: &[u8]) -> bool
    ensures { result ≡ challenge_fits request challenge.now }
{
    let Request::ChallengeLogin(_) = request else {
        return challenge_ok(challenge);
    };
    (0 < challenge.len()) & challenge_ok(challenge)
}

// Every request but a query writes what it leaves. Only a challenge login looks at the challenge.
pub fn serve(
    table: &mut [u8],
    serial: u64,
    clock: Seconds,
    request: Request,
    challenge: &[u8],
) -> Answer
    ensures { result_of result table.new ≡ served password_at request challenge.now serial clock.0 table.old }
{
    if !(lent_ok(table, clock) & challenge_fits(request, challenge)) {
        return Err(Refusal::BadArgument);
    }
    let located = locate(table, ROW_BYTES, LAST_STATE, serial)?;
    let start = located.at + KEY;
    let end = start + located.row.key_length as usize;
    let decision = decide(request, located.row, clock, &table[start..end], challenge);
    leave(table, located.at, decision.left);
    decision.answer
}

// The call `query`: it writes nothing.
pub fn query(table: &[u8], serial: u64, clock: Seconds) -> Answer
    ensures { result_of result table.now ≡ desk_after password_at (query_call serial clock.0) table.now }
{
    if !lent_ok(table, clock) {
        return Err(Refusal::BadArgument);
    }
    let located = locate(table, ROW_BYTES, LAST_STATE, serial)?;
    report(located.row, clock)
}
