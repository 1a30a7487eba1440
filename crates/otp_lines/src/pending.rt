// The line that no line feed has ended yet, of up to 256 bytes.
ghost use Rattle.std.specs.Prelude.{◌≡◌, List, [], ◌++◌, ℕ, ◌+◌, ◌≤◌, length};
ghost use Rattle.lines.specs.Lines.{kept, Put};
ghost use Rattle.otp_lines.specs.Stream.{longest, answered};

use crate::output::put_answer;
use lines::{Pending, put};

pub(crate) const LONGEST: usize = 256;

// Puts the pending line's answer at at, and answers where it ends.
pub(crate) fn put_pending(out: &mut [u8], at: usize, line: &Pending<LONGEST>) -> usize
    requires { at + 11 ≤ length out.old }
    ensures upper_bound { result ≤ at + 11 }
    ensures put { (p : List ℕ) → line.now ≡ kept longest p → Put out.old at (answered p) out.new result }
{
    match line.line() {
        Some(line) => put_answer(out, at, line),
        None => put(out, at, b"9005\n"),
    }
}

// Puts the answer of the line that part ends, and nothing is pending then. A line that is wholly in part is read where it stands.
pub(crate) fn put_line(out: &mut [u8], at: usize, line: &mut Pending<LONGEST>, part: &[u8]) -> usize
    requires { at + 11 ≤ length out.old }
    ensures upper_bound { result ≤ at + 11 }
    ensures none { line.new ≡ kept longest [] }
    ensures put { (p : List ℕ) → line.old ≡ kept longest p → Put out.old at (answered (p ++ part.now)) out.new result }
{
    if line.is_empty() {
        return put_answer(out, at, part);
    }
    line.extend(part);
    let end = put_pending(out, at, line);
    line.clear();
    end
}
