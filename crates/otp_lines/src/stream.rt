// The input piece by piece.
ghost use Rattle.std.specs.Prelude.{◌≡◌, List, ℕ, ◌*◌, ◌≤◌, length, take};
ghost use Rattle.lines.specs.Lines.{kept};
ghost use Rattle.otp_lines.specs.Stream.{longest, finished, Follows};

use crate::pending::{LONGEST, put_line, put_pending};
use lines::{LINE_FEED, Pending};
use text::find;

// Feeds a piece of the input: the answers of the lines that end in it go to the front of out, and the rest of it is pending. How many bytes are to be printed.
pub(crate) fn feed(line: &mut Pending<LONGEST>, piece: &[u8], out: &mut [u8]) -> usize
    requires { 11 * length piece.now ≤ length out.old }
    ensures upper_bound { result ≤ length out.old }
    ensures follows { Follows line.old piece.now line.new (take result out.new) }
{
    let mut written = 0;
    let mut at = 0;
    let mut end = find(piece, at, piece.len(), LINE_FEED);
    // A `while`, since it goes from line feed to line feed.
    while end < piece.len() {
        written = put_line(out, written, line, &piece[at..end]);
        at = end + 1;
        end = find(piece, at, piece.len(), LINE_FEED);
    }
    line.extend(&piece[at..end]);
    written
}

// Puts what the end of the input prints to the front of out.
pub(crate) fn finish(line: &Pending<LONGEST>, out: &mut [u8]) -> usize
    requires { 11 ≤ length out.old }
    ensures upper_bound { result ≤ length out.old }
    ensures printed { (p : List ℕ) → line.now ≡ kept longest p → take result out.new ≡ finished p }
{
    if line.is_empty() {
        return 0;
    }
    put_pending(out, 0, line)
}
