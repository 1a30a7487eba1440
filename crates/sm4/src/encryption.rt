// The encryption of a block (GB/T 32907, 7.1).
ghost use Rattle.std.specs.Prelude.{◌≡◌};
ghost use Rattle.sm4.specs.Sm4.{reversed, encrypt_answer};

use crate::round::{Quad, rounds, words_of};
use words::bytes::put_be;
use words::codes::BadArgument;

// The reverse transformation R: the last word first.
pub(crate) fn reversed(q: Quad) -> [u8; 16]
    ensures { result ≡ reversed q }
{
    let mut out = [0u8; 16];
    put_be(&mut out, 0, 4, q.d as u64);
    put_be(&mut out, 4, 4, q.c as u64);
    put_be(&mut out, 8, 4, q.b as u64);
    put_be(&mut out, 12, 4, q.a as u64);
    out
}

// A block of 16 bytes under 32 round keys.
pub fn encrypt(keys: &[u32], block: &[u8]) -> Result<[u8; 16], BadArgument>
    ensures { result ≡ encrypt_answer keys.now block.now }
{
    if (keys.len() != 32) | (block.len() != 16) {
        return Err(BadArgument);
    }
    Ok(reversed(rounds(keys, words_of(block))))
}
