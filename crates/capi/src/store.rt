// A result stored in a lent output: bytes or words.
ghost use Rattle.std.specs.Prelude.{◌≡◌};
ghost use Rattle.capi.specs.Stored.{code_left, out_left};

use words::bytes::copy;
use words::codes::{BAD_ARGUMENT, BadArgument, DONE};

pub(crate) fn store<T: Copy, const N: usize>(
    made: Result<[T; N], BadArgument>,
    out: &mut [T],
) -> u16
    ensures code { result ≡ code_left made out.old }
    ensures out_after { out.new ≡ out_left made out.old }
{
    match made {
        Ok(parts) if N <= out.len() => {
            copy(&parts, out);
            DONE
        }
        _ => BAD_ARGUMENT,
    }
}
