// The whole input: read in pieces, and what its lines print written out.
ghost use Rattle.std.specs.Prelude.{◌≡◌, true, [], ◌≤◌, length, take, Some, is_ok, IfSome, OnOk};
ghost use Rattle.std.specs.Io.KnownBytes.{Appends, Consumes, IsAtEnd};
ghost use Rattle.otp_lines.specs.Stream.{output_of, Follows, Leaves, Answers, Passes};

use crate::pending::LONGEST;
use crate::stream::{feed, finish};
use lines::Pending;
use std::io;
use std::io::{Error, ErrorKind, Read, Write};

pub(crate) const PIECE: usize = 65536;

// Each byte of a piece may end a line, for which up to ten digits and a line feed are printed.
pub(crate) const OUTPUT: usize = 11 * PIECE;

// How the read and the write went, how many bytes were read, and how many bytes were to be printed: the contracts say these also where a write failed.
#[derive(Clone, Copy)]
pub(crate) struct Turn {
    pub(crate) outcome: io::Result<()>,
    pub(crate) read: usize,
    pub(crate) written: usize,
}

// Reads a piece, none at the end of the input, and prints the answers of the lines that end in it.
fn answer_next<R: Read, W: Write>(
    input: &mut R,
    output: &mut W,
    line: &mut Pending<LONGEST>,
    piece: &mut [u8; PIECE],
    out: &mut [u8; OUTPUT],
) -> Turn
    ensures bounds { (result.read ≤ 65536) × (result.written ≤ 720896) }
    ensures follows { Follows line.old (take result.read piece.new) line.new (take result.written out.new) }
    ensures taken { Consumes (R.remaining input.old) (R.remaining input.new) (take result.read piece.new) }
    ensures end { OnOk result.outcome (result.read ≡ 0 → IsAtEnd (R.remaining input.new)) }
    ensures written { OnOk result.outcome (Appends (W.contents output.old) (W.contents output.new) (take result.written out.new)) }
{
    let read = match input.read(piece) {
        Ok(read) => read,
        Err(error) => {
            return Turn {
                outcome: Err(error),
                read: 0,
                written: 0,
            };
        }
    };
    let written = feed(line, &piece[0..read], out);
    let outcome = output.write_all(&out[0..written]);
    Turn {
        outcome,
        read,
        written,
    }
}

// Answers the pieces of the input up to its end, and leaves the pending line.
fn answer_pieces<R: Read, W: Write>(
    input: &mut R,
    output: &mut W,
    line: &mut Pending<LONGEST>,
    piece: &mut [u8; PIECE],
    out: &mut [u8; OUTPUT],
) -> Turn
    requires { line.old ≡ Some [] }
    ensures read_value { is_ok result.outcome ≡ true → result.read ≡ 0 }
    ensures leaves { Leaves line.new }
    ensures passes { OnOk result.outcome (Passes (R.remaining input.old) (R.remaining input.new) (W.contents output.old) (W.contents output.new) line.new) }
    ensures end { OnOk result.outcome (IsAtEnd (R.remaining input.new)) }
{
    // A proved loop has to end, and nothing says that the input does: no run uses up these turns.
    for _ in 0..u64::MAX {
        let turn = answer_next(input, output, line, piece, out);
        if turn.outcome.is_err() | (turn.read == 0) {
            return turn;
        }
    }
    Turn {
        outcome: Err(Error::from(ErrorKind::TimedOut)),
        read: 0,
        written: 0,
    }
}

// Answers all lines of the input.
pub(crate) fn answer_input<R: Read, W: Write>(
    input: &mut R,
    output: &mut W,
    line: &mut Pending<LONGEST>,
    piece: &mut [u8; PIECE],
    out: &mut [u8; OUTPUT],
) -> Turn
    requires { line.old ≡ Some [] }
    ensures answers { Answers (is_ok result.outcome) line.new (take result.written out.new) }
    ensures output { OnOk result.outcome (IfSome (R.remaining input.old) (λ xs. Appends (W.contents output.old) (W.contents output.new) (output_of xs))) }
{
    let last = answer_pieces(input, output, line, piece, out);
    // The pending line may not be whole, so it has no answer.
    if last.outcome.is_err() {
        return last;
    }
    let written = finish(line, out);
    Turn {
        outcome: output.write_all(&out[0..written]),
        read: 0,
        written,
    }
}
