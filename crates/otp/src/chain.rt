// The SM4 way (6.2.3): block by block, each output added to the next block. Between two blocks an output stays four words.
ghost use Rattle.std.specs.Prelude.{◌≡◌, ◌+◌, ◌-◌, ◌*◌, ◌^◌, ◌<◌, ◌≤◌, length};
ghost use Rattle.sm4.specs.Sm4.{words_of};
ghost use Rattle.otp.specs.Chain.{chain, words_sum};

use sm4::round::words_of;
use sm4::{Quad, encrypt_words};

// Two words as one number.
fn joined(high: u32, low: u32) -> u64
    ensures { result ≡ high * 2 ^ 32 + low }
{
    high as u64 * 0x1_0000_0000 + low as u64
}

// The sum of two blocks as 128-bit numbers, without the carry: two halves of 64 bits.
fn block_sum(p: Quad, q: Quad) -> Quad
    ensures { result ≡ words_sum p q }
{
    let (low, carry) = joined(p.c, p.d).overflowing_add(joined(q.c, q.d));
    let high = joined(p.a, p.b)
        .wrapping_add(joined(q.a, q.b))
        .wrapping_add(carry as u64);
    Quad {
        a: (high / 0x1_0000_0000) as u32,
        b: (high % 0x1_0000_0000) as u32,
        c: (low / 0x1_0000_0000) as u32,
        d: (low % 0x1_0000_0000) as u32,
    }
}

// The output of the last of the first `blocks` blocks of s, as words; `first` is that of the first block.
pub(crate) fn chain(keys: &[u32], s: &[u8], first: Quad, blocks: usize) -> Quad
    requires keys_len { length keys.now ≡ 32 }
    requires blocks_nonzero { 0 < blocks }
    requires blocks_in_bounds { 16 * blocks ≤ length s.now }
    requires first_value { first ≡ words_of (chain keys.now s.now 0) }
    ensures { result ≡ words_of (chain keys.now s.now (blocks - 1)) }
{
    let mut out = first;
    for i in 1..blocks {
        let from = 16 * i;
        let sum = block_sum(out, words_of(&s[from..from + 16]));
        out = encrypt_words(keys, sum).unwrap();
    }
    out
}
