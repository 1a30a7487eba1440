// Blocks under a fresh key: the key schedule goes along, and each round key is used as soon as it is made.
ghost use Rattle.std.specs.Prelude.{◌≡◌, length, map};
ghost use Rattle.sm4.specs.Sm4.{linear, steps, round_keys};

use crate::rounds::step_each;
use sm4::Quad;
use sm4::round::{next_key, words_of};
use sm4::schedule::masked;

// The states after the 32 rounds, four at a time. The round keys are left in keys.
pub fn first_each<const N: usize>(key: &[u8], blocks: [Quad; N], keys: &mut [u32]) -> [Quad; N]
    requires key_len { length key.now ≡ 16 }
    requires keys_len { length keys.old ≡ 32 }
    ensures value { result ≡ map (steps linear (round_keys key.now) 32) blocks.entry }
    ensures keys_after { keys.new ≡ round_keys key.now }
{
    let mut k = masked(words_of(key));
    let mut s = blocks;
    for i in 0..8 {
        k = next_key(k, 4 * i, keys);
        s = step_each(s, k.d);
        k = next_key(k, 4 * i + 1, keys);
        s = step_each(s, k.d);
        k = next_key(k, 4 * i + 2, keys);
        s = step_each(s, k.d);
        k = next_key(k, 4 * i + 3, keys);
        s = step_each(s, k.d);
    }
    s
}
