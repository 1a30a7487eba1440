// What happens to a token's row, by value.
ghost use Rattle.std.specs.Prelude.{◌≡◌};
ghost use Rattle.window.specs.Window.{Sound};
ghost use Rattle.token.specs.States.{wait_over, waited, locked_after, with_state, Near, offset_after, track_after, accepted, errors_after, failed, repeated};

use row::{LOCKED_BY_ERRORS, READY, Row};
use window::{FARTHEST, Offset, Seconds, Step, TIME_TOKEN, Track, step_at};

// Whether a row's wait has run out. A clock before the lock is compared before it is subtracted from.
fn wait_over(row: Row, clock: Seconds) -> bool
    ensures { result ≡ wait_over row clock.0 }
{
    if row.state != LOCKED_BY_ERRORS {
        return false;
    }
    if clock.0 < row.locked_at.0 {
        return false;
    }
    row.wait as u64 <= clock.0 - row.locked_at.0
}

// The row once a wait that has run out has made it ready.
pub(crate) fn waited(row: Row, clock: Seconds) -> Row
    ensures { result ≡ waited row clock.0 }
{
    if wait_over(row, clock) {
        return Row {
            state: READY,
            errors: 0,
            locked_at: Seconds(0),
            ..row
        };
    }
    row
}

// Leaving state 3 zeroes `locked at`.
fn locked_after(row: Row, state: u8) -> Seconds
    ensures { result ≡ locked_after row state }
{
    if (row.state == LOCKED_BY_ERRORS) & (state != LOCKED_BY_ERRORS) {
        return Seconds(0);
    }
    row.locked_at
}

// The row in another state.
pub(crate) fn with_state(row: Row, state: u8) -> Row
    ensures { result ≡ with_state row state }
{
    Row {
        state,
        locked_at: locked_after(row, state),
        ..row
    }
}

// The offset that an accepted step sets: d = a - T for a time token.
pub(crate) fn offset_after(track: Track, clock: Seconds, a: Step) -> Offset
    requires sound { Sound track clock.0 }
    requires near { Near track clock.0 a.0 }
    ensures { result ≡ offset_after track clock.0 a.0 }
{
    if track.scheme.kind != TIME_TOKEN {
        return track.offset;
    }
    let t = step_at(clock, track.period);
    Offset((a.0 + FARTHEST - t.0) as u16)
}

fn track_after(track: Track, clock: Seconds, a: Step) -> Track
    requires sound { Sound track clock.0 }
    requires near { Near track clock.0 a.0 }
    ensures { result ≡ track_after track clock.0 a.0 }
{
    Track {
        next: Step(a.0 + 1),
        offset: offset_after(track, clock, a),
        ..track
    }
}

// The row once step a has been accepted.
pub(crate) fn accepted(row: Row, clock: Seconds, a: Step) -> Row
    requires sound { Sound row.track clock.0 }
    requires near { Near row.track clock.0 a.0 }
    ensures { result ≡ accepted row clock.0 a.0 }
{
    let track = track_after(row.track, clock, a);
    let errors = 0;
    Row {
        track,
        errors,
        last_use: clock,
        ..row
    }
}

fn errors_after(row: Row) -> u8
    ensures { result ≡ errors_after row }
{
    row.errors.saturating_add(1)
}

// The row once a password was used or wrong; where errors lock, one that reaches the limit does.
pub(crate) fn failed(row: Row, clock: Seconds, locks: bool) -> Row
    ensures { result ≡ failed row clock.0 locks }
{
    let errors = errors_after(row);
    if locks & (row.limit <= errors) {
        return Row {
            state: LOCKED_BY_ERRORS,
            errors,
            locked_at: clock,
            ..row
        };
    }
    Row { errors, ..row }
}

// The row once the last used password was presented again: an error too, unless it is forgiven.
pub(crate) fn repeated(row: Row, clock: Seconds, forgives: bool, locks: bool) -> Row
    ensures { result ≡ repeated row clock.0 forgives locks }
{
    if forgives {
        return row;
    }
    failed(row, clock, locks)
}
