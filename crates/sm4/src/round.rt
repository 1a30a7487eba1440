// The round function F and its parts (GB/T 32907, clause 6), over a state of four words.
ghost use Rattle.std.specs.Prelude.{◌≡◌, ℕ, ◌+◌, ◌*◌, ◌≤◌, ◌<◌, length, drop, slice_set};
ghost use Rattle.sm4.specs.Sbox.{substitute};
ghost use Rattle.sm4.specs.Sm4.{tau, linear, linear_key, round, step, steps, ck, words_of};

use crate::parameters::{CK, SBOX};
use words::bytes::word_at;
use words::word::rotate_left;

// Four words in a row: X_i, X_i+1, X_i+2, X_i+3.
#[derive(Clone, Copy)]
pub struct Quad {
    pub a: u32,
    pub b: u32,
    pub c: u32,
    pub d: u32,
}

// The four words of 16 bytes.
pub fn words_of(bytes: &[u8]) -> Quad
    requires { length bytes.now ≡ 16 }
    ensures { result ≡ words_of bytes.now }
{
    Quad {
        a: word_at(bytes, 0),
        b: word_at(bytes, 4),
        c: word_at(bytes, 8),
        d: word_at(bytes, 12),
    }
}

// The byte that the S-box has at a place.
fn substitute(i: u8) -> u8
    ensures { result ≡ substitute i }
{
    SBOX[i as usize]
}

// The S-box on each byte of a word (6.2 a)). The sum is grouped so that two halves of it can be made at the same time:
// by `from_be_bytes` a block took an eighth longer.
fn tau(x: u32) -> u32
    ensures { result ≡ tau x }
{
    let [a, b, c, d] = x.to_be_bytes();
    let ac = substitute(a) as u32 * 0x100_0000 + substitute(c) as u32 * 0x100;
    let bd = substitute(b) as u32 * 0x1_0000 + substitute(d) as u32;
    ac + bd
}

// What a round of the cipher and one of the key schedule differ in: the linear transformation.
pub trait Mixing {
    ghost mix: { ℕ → ℕ };

    fn mixed(b: u32) -> u32
        ensures { result ≡ mix b };
}

// L, of the encryption (6.2 b)).
pub struct Encryption;

impl Mixing for Encryption {
    ghost mix = { linear };

    // The form that takes one operation less and fewer copies of the word.
    fn mixed(b: u32) -> u32 {
        let v = b ^ rotate_left(b, 8);
        rotate_left(v, 24) ^ rotate_left(v ^ rotate_left(b, 16), 2)
    }
}

// L', of the key expansion (7.3 a)).
pub struct Expansion;

impl Mixing for Expansion {
    ghost mix = { linear_key };

    fn mixed(b: u32) -> u32 {
        b ^ rotate_left(b, 13) ^ rotate_left(b, 23)
    }
}

impl Quad {
    // The next four words: the round function F (6.1), or the same with L' (7.3 a)).
    pub fn step<M: Mixing>(self, key: u32) -> Quad
        ensures { result ≡ step M.mix key self }
    {
        Quad {
            a: self.b,
            b: self.c,
            c: self.d,
            d: self.a ^ M::mixed(tau(self.b ^ self.c ^ self.d ^ key)),
        }
    }
}

// Four rounds, with the round keys from i on.
fn four_rounds(keys: &[u32], q: Quad, i: usize) -> Quad
    requires { i + 4 ≤ length keys.now }
    ensures { result ≡ steps linear (drop i keys.now) 4 q }
{
    q.step::<Encryption>(keys[i])
        .step::<Encryption>(keys[i + 1])
        .step::<Encryption>(keys[i + 2])
        .step::<Encryption>(keys[i + 3])
}

// The 32 rounds (7.1), four at a time: the words then stay in their registers. One at a time took 8 percent longer.
pub(crate) fn rounds(keys: &[u32], block: Quad) -> Quad
    requires { length keys.now ≡ 32 }
    ensures { result ≡ steps linear keys.now 32 block }
{
    let mut q = block;
    for i in 0..8 {
        q = four_rounds(keys, q, 4 * i);
    }
    q
}

// Step i of the key schedule (7.3 a)). The last word, which is round key i, is stored.
pub fn next_key(q: Quad, i: usize, keys: &mut [u32]) -> Quad
    requires i_bound { i < 32 }
    requires keys_len { length keys.old ≡ 32 }
    ensures value { result ≡ step linear_key (ck i) q }
    ensures keys_after { keys.new ≡ slice_set keys.old i result.d }
{
    let next = q.step::<Expansion>(CK[i]);
    keys[i] = next.d;
    next
}
