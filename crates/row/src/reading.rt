// What is read of a row: its place, and its numbers where it is well formed (document 01, Part 4).
ghost use Rattle.std.specs.Prelude.{◌≡◌, ◌+◌, ◌≤◌, length, get_or};
ghost use Rattle.row.specs.Row.{row_bytes, key_bytes, row_at, zeros_ok};
ghost use Rattle.row.specs.Table.{WidthOk, located};

use crate::Row;
use crate::finding::find_row;
use crate::layout::{
    ALGORITHM, DIGITS, ERRORS, EXPIRY, GAP, KEY, KEY_LENGTH, KIND, LAST_USE, LIMIT, LOCKED_AT,
    NEXT, OFFSET, PERIOD, SERIAL, SPARE, STATE, WAIT,
};
use crate::ranges::numbers_ok;
use window::{Offset, Scheme, Seconds, Step, Track};
use words::bytes::{be_at, be_eight, le_eight, zeros};

// A well-formed row's place and numbers.
#[derive(Clone, Copy)]
pub struct Located {
    pub at: usize,
    pub row: Row,
}

// Why there is no row to serve: none has the serial, or the one that has it is not well formed.
#[derive(Clone, Copy, Debug, PartialEq, Eq)]
pub enum Unserved {
    Unknown,
    Damaged,
}

// The numbers of the row at a place.
fn row_at(table: &[u8], at: usize) -> Row
    requires { at + row_bytes ≤ length table.now }
    ensures { result ≡ row_at table.now at }
{
    let scheme = Scheme {
        kind: table[at + KIND],
        algorithm: table[at + ALGORITHM],
        digits: table[at + DIGITS],
    };
    let track = Track {
        scheme,
        period: table[at + PERIOD],
        next: Step(be_eight(table, at + NEXT)),
        offset: Offset(be_at(table, at + OFFSET, 2) as u16),
    };
    Row {
        state: table[at + STATE],
        track,
        limit: table[at + LIMIT],
        errors: table[at + ERRORS],
        key_length: table[at + KEY_LENGTH],
        serial: be_eight(table, at + SERIAL),
        wait: be_at(table, at + WAIT, 4) as u32,
        expiry: Seconds(be_eight(table, at + EXPIRY)),
        locked_at: Seconds(be_eight(table, at + LOCKED_AT)),
        last_use: Seconds(be_eight(table, at + LAST_USE)),
    }
}

// Whether zeros stand behind the key and in the bytes that hold nothing.
fn zeros_ok(table: &[u8], at: usize) -> bool
    requires row_bytes_in_bounds { at + row_bytes ≤ length table.now }
    requires at_bound { get_or table.now (at + 7) 0 ≤ key_bytes }
    ensures { result ≡ zeros_ok table.now at }
{
    let key = at + KEY + table[at + KEY_LENGTH] as usize;
    let next = at + NEXT;
    zeros(&table[key..next]) & (be_at(table, at + GAP, 2) == 0) & (le_eight(table, at + SPARE) == 0)
}

// The serial's row: a call goes on only with a well-formed one.
pub fn locate(table: &[u8], width: usize, highest: u8, serial: u64) -> Result<Located, Unserved>
    requires { WidthOk width }
    ensures { result ≡ located width highest table.now serial }
{
    let at = find_row(table, width, serial).ok_or(Unserved::Unknown)?;
    let row = row_at(table, at);
    if !(numbers_ok(highest, row) && zeros_ok(table, at)) {
        return Err(Unserved::Damaged);
    }
    Ok(Located { at, row })
}
