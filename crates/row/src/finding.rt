// The search for a row (document 01, Part 4). The width of a table's rows is one parameter with one clause: a type for it is no plainer.
ghost use Rattle.std.specs.Prelude.{◌≡◌, ◌+◌, ◌≤◌, length};
ghost use Rattle.row.specs.declared.finding.Wanted.TheVariants.{Serial};
ghost use Rattle.row.specs.Row.{row_bytes};
ghost use Rattle.row.specs.Table.{WidthOk, find_row, find_empty};
ghost use Rattle.row.specs.Finding.{serial_is, passes, first_from, four_lack};

use crate::layout::{SERIAL, STATE};
use crate::states::EMPTY;
use words::bytes::{le_eight, swapped};

// What a row is looked for by: a serial, its bytes in the other order so that a row's are compared as they stand, or that it is empty.
// No closure, since the clause of `first_of` would then need the test that it stands for, which `passes` of the enum is.
#[derive(Clone, Copy)]
enum Wanted {
    Serial(u64),
    Empty,
}

// Whether a row's serial, read the lowest byte first, is the wanted number.
fn serial_is(table: &[u8], wanted: u64, at: usize) -> bool
    requires { at + row_bytes ≤ length table.now }
    ensures { result ≡ serial_is table.now wanted at }
{
    le_eight(table, at + SERIAL) == wanted
}

fn passes(table: &[u8], wanted: Wanted, at: usize) -> bool
    requires { at + row_bytes ≤ length table.now }
    ensures { result ≡ passes table.now wanted at }
{
    let state = table[at + STATE];
    match wanted {
        Wanted::Serial(serial) => (state != EMPTY) & serial_is(table, serial, at),
        Wanted::Empty => state == EMPTY,
    }
}

// The first of the rows from a place on that passes. A range by steps of the width would have to end where no whole row is left, which is no plainer.
fn first_of(table: &[u8], width: usize, wanted: Wanted, start: usize) -> Option<usize>
    requires width_ok { WidthOk width }
    requires start_in_bounds { start ≤ length table.now }
    ensures { result ≡ first_from width (passes table.now wanted) table.now start }
{
    let mut at = start;
    while at + width <= table.len() {
        if passes(table, wanted, at) {
            return Some(at);
        }
        at += width;
    }
    None
}

// Whether four rows are left, and none of them has the wanted serial.
fn four_lack(table: &[u8], width: usize, wanted: u64, at: usize) -> bool
    requires width_ok { WidthOk width }
    requires at_in_bounds { at ≤ length table.now }
    ensures { result ≡ four_lack width table.now wanted at }
{
    if table.len() < at + 4 * width {
        return false;
    }
    !(serial_is(table, wanted, at)
        | serial_is(table, wanted, at + width)
        | serial_is(table, wanted, at + 2 * width)
        | serial_is(table, wanted, at + 3 * width))
}

// The first row that is not empty and has the wanted serial. Rows without it are passed over by fours.
fn first_with(table: &[u8], width: usize, wanted: u64) -> Option<usize>
    requires { WidthOk width }
    ensures { result ≡ first_from width (passes table.now (Serial wanted)) table.now 0 }
{
    let mut at = 0;
    while four_lack(table, width, wanted, at) {
        at += 4 * width;
    }
    first_of(table, width, Wanted::Serial(wanted), at)
}

// The serial's row: the first one not empty that has it.
pub fn find_row(table: &[u8], width: usize, serial: u64) -> Option<usize>
    requires { WidthOk width }
    ensures { result ≡ find_row width table.now serial }
{
    first_with(table, width, swapped(serial))
}

// The first empty row.
pub fn find_empty(table: &[u8], width: usize) -> Option<usize>
    requires { WidthOk width }
    ensures { result ≡ find_empty width table.now }
{
    first_of(table, width, Wanted::Empty, 0)
}
