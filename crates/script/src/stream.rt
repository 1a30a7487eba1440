// The input piece by piece.
ghost use Rattle.std.specs.Prelude.{◌≡◌, List, ℕ, ◌+◌, ◌≤◌, length, take};
ghost use Rattle.lines.specs.Lines.{last, kept};
ghost use Rattle.window.specs.PasswordAt.{password_at};
ghost use Rattle.script.specs.Sizes.{longest, most_text, output_bytes};
ghost use Rattle.script.specs.Script.{stage_of, Serves, Follows};

use crate::serving::serve_pending;
use crate::sizes::{FULL, OUTPUT};
use crate::state::{Pending, Table};
use lines::LINE_FEED;
use text::find;

// How many bytes of the piece are read, and where what was printed ends.
#[derive(Clone, Copy)]
pub struct Fed {
    pub used: usize,
    pub end: usize,
}

// Reads a piece of the input up to its first line feed and serves the line that this ends, or makes the pending line longer by all of it.
fn feed(pending: &mut Pending, table: &mut Table, piece: &[u8], out: &mut [u8], at: usize) -> Fed
    requires most_text_in_bounds { at + most_text ≤ length out.old }
    ensures used_in_bounds { result.used ≤ length piece.now }
    ensures used_bound { 1 ≤ length piece.now → 1 ≤ result.used }
    ensures end_bound { result.end ≤ at + most_text }
    ensures follows { Follows password_at pending.old (take result.used piece.now) pending.new (stage_of table.old) (stage_of table.new) out.old at out.new result.end }
{
    let found = find(piece, 0, piece.len(), LINE_FEED);
    pending.extend(&piece[..found]);
    if found == piece.len() {
        return Fed {
            used: found,
            end: at,
        };
    }
    let end = serve_pending(pending, table, out, at);
    pending.clear();
    Fed {
        used: found + 1,
        end,
    }
}

// Feeds a piece until it ends, or until the output may have no room for what another line prints.
pub fn fill(pending: &mut Pending, table: &mut Table, piece: &[u8], out: &mut [u8; OUTPUT]) -> Fed
    ensures used_in_bounds { result.used ≤ length piece.now }
    ensures used_bound { 1 ≤ length piece.now → 1 ≤ result.used }
    ensures end_bound { result.end ≤ output_bytes }
    ensures follows { Follows password_at pending.old (take result.used piece.now) pending.new (stage_of table.old) (stage_of table.new) out.old 0 out.new result.end }
{
    let mut at = 0;
    let mut end = 0;
    // A `while`, since each turn reads as much as a line has.
    while (at < piece.len()) & (end <= FULL) {
        let fed = feed(pending, table, &piece[at..], out, end);
        at += fed.used;
        end = fed.end;
    }
    Fed { used: at, end }
}

// Serves the line that the end of the input ends, if one has begun. Answers where what it prints ends.
pub fn finish(pending: &Pending, table: &mut Table, out: &mut [u8]) -> usize
    requires { most_text ≤ length out.old }
    ensures upper_bound { result ≤ most_text }
    ensures by_index { (p : List ℕ) → pending.now ≡ kept longest p → Serves password_at (last p) (stage_of table.old) (stage_of table.new) out.old 0 out.new result }
{
    if pending.is_empty() {
        return 0;
    }
    serve_pending(pending, table, out, 0)
}
