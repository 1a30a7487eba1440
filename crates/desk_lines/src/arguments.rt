// The program's arguments.
ghost use Rattle.std.specs.Prelude.{◌≤◌, length, IfSome};

use std::env::{Env, FillError};

// The most bytes that a path has.
pub(crate) const PATH_MAX: usize = 4096;

// Puts an argument at the front of buf, as far as it has room, and answers how many bytes it takes there; none if there is no such argument.
pub(crate) fn argument(rt: &impl Env, i: usize, buf: &mut [u8]) -> Option<usize>
    ensures { IfSome result (λ n. n ≤ length buf.new) }
{
    match rt.arg(i, buf) {
        Ok(n) => Some(n),
        Err(FillError::TooLong) => Some(buf.len()),
        Err(FillError::NotPresent) => None,
    }
}
