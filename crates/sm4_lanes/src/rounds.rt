// Blocks under round keys that are stored.
ghost use Rattle.std.specs.Prelude.{◌≡◌, length, map};
ghost use Rattle.sm4.specs.Sm4.{linear, step, steps};

use sm4::Quad;
use sm4::round::Encryption;

// A round of each block. As part of its caller the loop is unrolled, and the words stay in their registers.
#[inline(always)]
pub(crate) fn step_each<const N: usize>(blocks: [Quad; N], key: u32) -> [Quad; N]
    ensures { result ≡ map (step linear key) blocks.entry }
{
    let mut s = blocks;
    for l in 0..N {
        s[l] = s[l].step::<Encryption>(key);
    }
    s
}

// The states after the 32 rounds, four at a time: one at a time took a tenth longer for three blocks, and a quarter for five.
pub fn rounds_each<const N: usize>(keys: &[u32], blocks: [Quad; N]) -> [Quad; N]
    requires { length keys.now ≡ 32 }
    ensures { result ≡ map (steps linear keys.now 32) blocks.entry }
{
    let mut s = blocks;
    for i in 0..8 {
        s = step_each(s, keys[4 * i]);
        s = step_each(s, keys[4 * i + 1]);
        s = step_each(s, keys[4 * i + 2]);
        s = step_each(s, keys[4 * i + 3]);
    }
    s
}
