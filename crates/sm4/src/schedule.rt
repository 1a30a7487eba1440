// The key schedule (GB/T 32907, 7.3).
ghost use Rattle.std.specs.Prelude.{◌≡◌};
ghost use Rattle.sm4.specs.Sm4.{masked, keys_answer};

use crate::round::{Quad, next_key, words_of};
use words::codes::BadArgument;

// K_0 .. K_3: the words of a key with the system parameters FK (b)).
pub fn masked(q: Quad) -> Quad
    ensures { result ≡ masked q }
{
    Quad {
        a: q.a ^ 0xa3b1bac6,
        b: q.b ^ 0x56aa3350,
        c: q.c ^ 0x677d9197,
        d: q.d ^ 0xb27022dc,
    }
}

// The round keys of a key of 16 bytes.
pub fn round_keys(key: &[u8]) -> Result<[u32; 32], BadArgument>
    ensures { result ≡ keys_answer key.now }
{
    if key.len() != 16 {
        return Err(BadArgument);
    }
    let mut keys = [0u32; 32];
    let mut k = masked(words_of(key));
    for i in 0..32 {
        k = next_key(k, i, &mut keys);
    }
    Ok(keys)
}
