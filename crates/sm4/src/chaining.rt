// For a chain of blocks: the output as words, and the round keys with the first block.
ghost use Rattle.std.specs.Prelude.{◌≡◌};
ghost use Rattle.sm4.specs.Sm4.{words_of, reversed, encrypt_words_answer, first_answer};

use crate::round::{Quad, rounds, words_of};
use crate::sides::sides_from;
use words::codes::BadArgument;

// The words of an encrypted block, and the round keys for the blocks that follow.
#[derive(Clone, Copy)]
pub struct First {
    pub keys: [u32; 32],
    pub output: Quad,
}

// The words of what the reverse transformation R gives.
fn output_words(q: Quad) -> Quad
    ensures { result ≡ words_of (reversed q) }
{
    Quad {
        a: q.d,
        b: q.c,
        c: q.b,
        d: q.a,
    }
}

// A block as four words, under 32 round keys.
pub fn encrypt_words(keys: &[u32], block: Quad) -> Result<Quad, BadArgument>
    ensures { result ≡ encrypt_words_answer keys.now block }
{
    if keys.len() != 32 {
        return Err(BadArgument);
    }
    Ok(output_words(rounds(keys, block)))
}

// The first of several blocks.
pub fn first_block(key: &[u8], block: &[u8]) -> Result<First, BadArgument>
    ensures { result ≡ first_answer key.now block.now }
{
    if (key.len() != 16) | (block.len() != 16) {
        return Err(BadArgument);
    }
    let mut keys = [0u32; 32];
    let state = sides_from(key, words_of(block), &mut keys);
    Ok(First {
        keys,
        output: output_words(state),
    })
}
