// What a line does to the table, and what it prints.
ghost use Rattle.std.specs.Prelude.{◌≡◌, cond, None, List, [], ◌∷◌, ◌++◌, ℕ, ◌+◌, ◌*◌, ◌≤◌, length, IfSome};
ghost use Rattle.lines.specs.Lines.{line_feed, kept, Put};
ghost use Rattle.window.specs.PasswordAt.{password_at};
ghost use Rattle.row.specs.Row.{row_bytes};
ghost use Rattle.call_lines.specs.Line.{line_after};
ghost use Rattle.script.specs.Sizes.{longest, most_text};
ghost use Rattle.script.specs.Script.{rows_of, later_line, stage_of, Serves};

use crate::rows::{put_rows, rows_of};
use crate::state::{Pending, Stage, Table};
use call_lines::serve_line;
use lines::{LINE_FEED, put};
use row::{ROW_BYTES, clear};
use words::bytes::same;

// Makes the call of a line and puts its answer at at.
fn put_answer(table: &mut [u8], line: &[u8], out: &mut [u8], at: usize) -> usize
    requires { at + 41 ≤ length out.old }
    ensures upper_bound { result ≤ at + 41 }
    ensures put { Put out.old at ((line_after password_at line.now table.old).text ++ (line_feed ∷ [])) out.new result }
    ensures table_after { table.new ≡ (line_after password_at line.now table.old).table }
{
    let text = serve_line(table, line);
    let end = put(out, at, text.as_slice());
    out[end] = LINE_FEED;
    end + 1
}

// A line on a table of rows that are all of it.
fn serve_later(table: &mut [u8], rows: usize, line: &[u8], out: &mut [u8], at: usize) -> usize
    requires rows_value { row_bytes * rows ≡ length table.old }
    requires rows_bound { rows ≤ 256 }
    requires most_text_in_bounds { at + most_text ≤ length out.old }
    ensures upper_bound { result ≤ at + most_text }
    ensures put { Put out.old at (later_line password_at line.now table.old).text out.new result }
    ensures table_after { table.new ≡ (later_line password_at line.now table.old).stage.table }
{
    if same(line, b"table") {
        return put_rows(out, at, table, rows);
    }
    put_answer(table, line, out, at)
}

// N of a first line `rows,N` that is right.
fn asked_rows(fresh: bool, line: &[u8]) -> Option<usize>
    requires { length line.now ≤ 4096 }
    ensures value { result ≡ cond fresh (rows_of line.now) None }
    ensures upper_bound { IfSome result (λ rows. rows ≤ 256) }
{
    if fresh {
        return rows_of(line);
    }
    None
}

impl Table {
    // A line of up to 4,096 bytes, of which what it prints is put at at. Answers where that ends.
    fn serve(&mut self, line: &[u8], out: &mut [u8], at: usize) -> usize
        requires line_len_bound { length line.now ≤ 4096 }
        requires most_text_in_bounds { at + most_text ≤ length out.old }
        ensures upper_bound { result ≤ at + most_text }
        ensures serves { Serves password_at (line.now ∷ []) (stage_of self.old) (stage_of self.new) out.old at out.new result }
    {
        let Stage { fresh, rows } = self.stage;
        if let Some(rows) = asked_rows(fresh, line) {
            clear(&mut self.bytes[..ROW_BYTES * rows]);
            self.stage = Stage { fresh: false, rows };
            return at;
        }
        self.stage = Stage { fresh: false, rows };
        serve_later(&mut self.bytes[..ROW_BYTES * rows], rows, line, out, at)
    }
}

// Serves the pending line, which has ended.
pub(crate) fn serve_pending(line: &Pending, table: &mut Table, out: &mut [u8], at: usize) -> usize
    requires { at + most_text ≤ length out.old }
    ensures upper_bound { result ≤ at + most_text }
    ensures serves { (p : List ℕ) → line.now ≡ kept longest p → Serves password_at (p ∷ []) (stage_of table.old) (stage_of table.new) out.old at out.new result }
{
    match line.line() {
        Some(line) => table.serve(line, out, at),
        None => {
            let Stage { rows, .. } = table.stage;
            table.stage = Stage { fresh: false, rows };
            put(out, at, b"9005\n")
        }
    }
}
