// A block under a fresh key: the key schedule and the rounds side by side, since the processor can then do both at once.
ghost use Rattle.std.specs.Prelude.{◌≡◌, length};
ghost use Rattle.sm4.specs.Sm4.{linear, steps, round_keys, sm4_answer};

use crate::encryption::reversed;
use crate::round::{Encryption, Quad, next_key, words_of};
use crate::schedule::masked;
use words::codes::BadArgument;

// The state after the rounds, of a block's four words, four rounds at a time: one at a time took a fifth longer. The round keys are left in keys.
pub fn sides_from(key: &[u8], block: Quad, keys: &mut [u32]) -> Quad
    requires key_len { length key.now ≡ 16 }
    requires keys_len { length keys.old ≡ 32 }
    ensures value { result ≡ steps linear (round_keys key.now) 32 block }
    ensures keys_after { keys.new ≡ round_keys key.now }
{
    let mut k = masked(words_of(key));
    let mut q = block;
    for i in 0..8 {
        k = next_key(k, 4 * i, keys);
        q = q.step::<Encryption>(k.d);
        k = next_key(k, 4 * i + 1, keys);
        q = q.step::<Encryption>(k.d);
        k = next_key(k, 4 * i + 2, keys);
        q = q.step::<Encryption>(k.d);
        k = next_key(k, 4 * i + 3, keys);
        q = q.step::<Encryption>(k.d);
    }
    q
}

// A block of 16 bytes under a key of 16 bytes.
pub fn sm4(key: &[u8], block: &[u8]) -> Result<[u8; 16], BadArgument>
    ensures { result ≡ sm4_answer key.now block.now }
{
    if (key.len() != 16) | (block.len() != 16) {
        return Err(BadArgument);
    }
    let mut keys = [0u32; 32];
    Ok(reversed(sides_from(key, words_of(block), &mut keys)))
}
