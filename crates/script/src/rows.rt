// The lines `rows,N` and `table`.
ghost use Rattle.std.specs.Prelude.{◌≡◌, ◌+◌, ◌*◌, ◌≤◌, length, IfSome};
ghost use Rattle.lines.specs.Lines.{Put};
ghost use Rattle.row.specs.Row.{row_bytes};
ghost use Rattle.script.specs.Sizes.{row_text};
ghost use Rattle.script.specs.Script.{hex_text, rows_text, rows_of};

use desk::MOST_ROWS;
use lines::LINE_FEED;
use row::ROW_BYTES;
use text::{decimal, hex_digit};

// N of a line `rows,N` that is right.
pub(crate) fn rows_of(line: &[u8]) -> Option<usize>
    requires { length line.now ≤ 4096 }
    ensures value { result ≡ rows_of line.now }
    ensures upper_bound { IfSome result (λ rows. rows ≤ 256) }
{
    let rows = decimal(line.strip_prefix(b"rows,")?)? as usize;
    (1..=MOST_ROWS).contains(&rows).then_some(rows)
}

// Puts the digits of bytes at at, and answers where they end.
fn put_hex(out: &mut [u8], at: usize, bytes: &[u8]) -> usize
    requires { at + 2 * length bytes.now ≤ length out.old }
    ensures { Put out.old at (hex_text bytes.now) out.new result }
{
    let mut end = at;
    for &b in bytes {
        let b = b as u16;
        out[end] = hex_digit(b / 16);
        out[end + 1] = hex_digit(b % 16);
        end += 2;
    }
    end
}

// Puts the rows of a table at at, a line each, and answers where they end.
pub(crate) fn put_rows(out: &mut [u8], at: usize, table: &[u8], rows: usize) -> usize
    requires rows_value { row_bytes * rows ≡ length table.now }
    requires rows_in_bounds { at + row_text * rows ≤ length out.old }
    ensures put { Put out.old at (rows_text rows table.now) out.new result }
    ensures value { result ≡ at + row_text * rows }
{
    let mut end = at;
    for i in 0..rows {
        let from = ROW_BYTES * i;
        let to = from + ROW_BYTES;
        end = put_hex(out, end, &table[from..to]);
        out[end] = LINE_FEED;
        end += 1;
    }
    end
}
