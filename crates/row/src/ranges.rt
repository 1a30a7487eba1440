// The ranges of a row's numbers (document 01, Part 4).
ghost use Rattle.std.specs.Prelude.{◌≡◌};
ghost use Rattle.row.specs.Row.{kind_ok, period_ok, next_ok, offset_ok, track_ok, numbers_ok};

use crate::Row;
use crate::layout::KEY_BYTES;
use crate::states::LOCKED_BY_ERRORS;
use otp::{SM3, SM4};
use window::{CLOCKS, COUNTS, FARTHEST, TIME_TOKEN, Track};

// A time token or an event token.
fn kind_ok(track: Track) -> bool
    ensures { result ≡ kind_ok track }
{
    track.scheme.kind <= 1
}

fn period_ok(track: Track) -> bool
    ensures { result ≡ period_ok track }
{
    if track.scheme.kind == TIME_TOKEN {
        (1..=60).contains(&track.period)
    } else {
        track.period == 0
    }
}

fn next_ok(track: Track) -> bool
    ensures { result ≡ next_ok track }
{
    if track.scheme.kind == TIME_TOKEN {
        track.next.0 <= CLOCKS + FARTHEST
    } else {
        track.next.0 <= COUNTS
    }
}

fn offset_ok(track: Track) -> bool
    ensures { result ≡ offset_ok track }
{
    if track.scheme.kind == TIME_TOKEN {
        track.offset.0 as u64 <= 2 * FARTHEST
    } else {
        track.offset.0 as u64 == FARTHEST
    }
}

// Whether the kind, the period, the first unused step and the offset are in range, for callers that have no row.
pub fn track_ok(track: Track) -> bool
    ensures { result ≡ track_ok track }
{
    kind_ok(track) & period_ok(track) & next_ok(track) & offset_ok(track)
}

// Whether the numbers are in Part 4's ranges, in its order, with the highest state of the table.
pub fn numbers_ok(highest: u8, row: Row) -> bool
    ensures { result ≡ numbers_ok highest row }
{
    let track = row.track;
    let scheme = track.scheme;
    (row.state <= highest)
        & kind_ok(track)
        & ((scheme.algorithm == SM3) | (scheme.algorithm == SM4))
        & (6..=10).contains(&scheme.digits)
        & period_ok(track)
        & (1..=10).contains(&row.limit)
        & (16..=KEY_BYTES).contains(&(row.key_length as usize))
        & next_ok(track)
        & offset_ok(track)
        & (60..=86400).contains(&row.wait)
        & (row.expiry.0 <= CLOCKS)
        & ((row.locked_at.0 < CLOCKS) & ((row.state == LOCKED_BY_ERRORS) | (row.locked_at.0 == 0)))
        & (row.last_use.0 < CLOCKS)
}
