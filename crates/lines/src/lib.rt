// Lines of an input that comes in pieces: the line that no line feed has ended yet, and the output.
#![tactic(auto)]

mod pending;

ghost use Rattle.std.specs.Prelude.{◌+◌, ◌≤◌, length};
ghost use Rattle.lines.specs.Lines.{Put};

pub use pending::Pending;
use words::bytes::copy;

pub const LINE_FEED: u8 = 0x0a;

// Puts text at at, and answers where it ends. `put_bytes` of otp also says what stands behind, which no line is read of. The output and the place in it
// stay two parameters: what was printed so far is a part of a buffer whose length is no part of any contract.
pub fn put(out: &mut [u8], at: usize, text: &[u8]) -> usize
    requires { at + length text.now ≤ length out.old }
    ensures { Put out.old at text.now out.new result }
{
    let end = at + text.len();
    copy(text, &mut out[at..end]);
    end
}
