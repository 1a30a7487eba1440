// What is printed, put into the output one text behind the other.
ghost use Rattle.std.specs.Prelude.{◌+◌, ◌≤◌, length};
ghost use Rattle.lines.specs.Lines.{Put};
ghost use Rattle.otp_lines.specs.Stream.{answered};

use lines::{LINE_FEED, put};
use password_lines::answer;

// Puts a line's answer and a line feed at at, and answers where they end.
pub(crate) fn put_answer(out: &mut [u8], at: usize, line: &[u8]) -> usize
    requires { at + 11 ≤ length out.old }
    ensures upper_bound { result ≤ at + 11 }
    ensures put { Put out.old at (answered line.now) out.new result }
{
    let printed = answer(line);
    // All ten bytes, since a count that the compiler knows costs less; the next answer overwrites what is not this one's.
    put(out, at, printed.padded());
    let end = at + printed.len();
    out[end] = LINE_FEED;
    end + 1
}
