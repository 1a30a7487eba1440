// The whole input: read in pieces, and what its lines print written out.
ghost use Rattle.std.specs.Prelude.{◌≡◌, [], take, Some, is_ok, IfOk, IfSome, OnOk};
ghost use Rattle.std.specs.Io.KnownBytes.{Appends, Consumes, IsAtEnd};
ghost use Rattle.window.specs.PasswordAt.{password_at};
ghost use Rattle.script.specs.Script.{start, stage_of, output_of};
ghost use Rattle.desk_lines.specs.Input.{Advances, AdvancesSome, ReadsSome, Leaves, ServesInput, Writes, Passes, ServesAll};

use script::sizes::OUTPUT;
use script::state::{Pending, Stage, Table};
use script::stream::{fill, finish};
use std::io;
use std::io::{Error, ErrorKind, Read, Write};

const PIECE: usize = 65536;

// Serves the lines that end in a piece, and writes out what they print.
fn serve_piece<W: Write>(
    to: &mut W,
    pending: &mut Pending,
    table: &mut Table,
    piece: &[u8],
    out: &mut [u8; OUTPUT],
) -> io::Result<()>
    ensures some { AdvancesSome password_at pending.old piece.now pending.new (stage_of table.old) (stage_of table.new) }
    ensures advances { OnOk result (Advances password_at pending.old piece.now pending.new (stage_of table.old) (stage_of table.new)) }
    ensures writes { OnOk result (Writes password_at pending.old piece.now (stage_of table.old) (W.contents to.old) (W.contents to.new)) }
{
    let mut at = 0;
    // A `while`, since each turn serves as much as the output has room for.
    while at < piece.len() {
        let fed = fill(pending, table, &piece[at..], out);
        at += fed.used;
        to.write_all(&out[..fed.end])?;
    }
    Ok(())
}

// Reads a piece and serves it, and answers how many bytes it has, none at the end of the input.
fn serve_next<R: Read, W: Write>(
    input: &mut R,
    to: &mut W,
    pending: &mut Pending,
    table: &mut Table,
    piece: &mut [u8; PIECE],
    out: &mut [u8; OUTPUT],
) -> io::Result<usize>
    ensures some { ReadsSome password_at (R.remaining input.old) (R.remaining input.new) piece.new pending.old pending.new (stage_of table.old) (stage_of table.new) }
    ensures advances { IfOk result (λ read. Advances password_at pending.old (take read piece.new) pending.new (stage_of table.old) (stage_of table.new)) }
    ensures taken { IfOk result (λ read. Consumes (R.remaining input.old) (R.remaining input.new) (take read piece.new)) }
    ensures end { IfOk result (λ read. read ≡ 0 → IsAtEnd (R.remaining input.new)) }
    ensures writes { IfOk result (λ read. Writes password_at pending.old (take read piece.new) (stage_of table.old) (W.contents to.old) (W.contents to.new)) }
{
    let read = input.read(piece)?;
    serve_piece(to, pending, table, &piece[..read], out)?;
    Ok(read)
}

// Serves the pieces of the input up to its end, and leaves the pending line.
fn serve_pieces<R: Read, W: Write>(
    input: &mut R,
    to: &mut W,
    pending: &mut Pending,
    table: &mut Table,
    out: &mut [u8; OUTPUT],
) -> io::Result<()>
    requires { pending.old ≡ Some [] }
    ensures leaves { Leaves password_at (stage_of table.old) pending.new (stage_of table.new) }
    ensures passes { OnOk result (Passes password_at (R.remaining input.old) (R.remaining input.new) (W.contents to.old) (W.contents to.new) (stage_of table.old) pending.new (stage_of table.new)) }
    ensures end { OnOk result (IsAtEnd (R.remaining input.new)) }
{
    let mut piece = [0u8; PIECE];
    // A proved loop has to end, and nothing says that the input does: no run uses up these turns.
    for _ in 0..u64::MAX {
        let read = serve_next(input, to, pending, table, &mut piece, out)?;
        if read == 0 {
            return Ok(());
        }
    }
    Err(Error::from(ErrorKind::TimedOut))
}

// Serves all lines of the input. Where it is not read to its end, the pending line may not be whole, so it has no answer.
pub(crate) fn serve_input<R: Read, W: Write>(
    input: &mut R,
    to: &mut W,
    table: &mut Table,
) -> io::Result<()>
    ensures serves_input { ServesInput password_at (is_ok result) (stage_of table.old) (stage_of table.new) }
    ensures serves_all { OnOk result (ServesAll password_at (R.remaining input.old) (W.contents to.old) (W.contents to.new) (stage_of table.old) (stage_of table.new)) }
{
    let mut pending = Pending::new();
    let mut out = [0u8; OUTPUT];
    serve_pieces(input, to, &mut pending, table, &mut out)?;
    let end = finish(&pending, table, &mut out);
    to.write_all(&out[..end])
}

// Serves all lines of the input on a table of the program's own, which the first line makes.
pub(crate) fn serve_own_table<R: Read, W: Write>(
    input: &mut R,
    to: &mut W,
    table: &mut Table,
) -> io::Result<()>
    ensures serves_input { ServesInput password_at (is_ok result) start (stage_of table.new) }
    ensures output { OnOk result (IfSome (R.remaining input.old) (λ xs. Appends (W.contents to.old) (W.contents to.new) (output_of password_at xs))) }
{
    table.stage = Stage {
        fresh: true,
        rows: 0,
    };
    serve_input(input, to, table)
}
