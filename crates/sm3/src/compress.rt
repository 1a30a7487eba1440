// The compression function over the blocks of a slice (5.3). The expansion goes along with the rounds, four words ahead of each
// four rounds, since the processor can then do both at once.
ghost use Rattle.std.specs.Prelude.{◌≡◌, ℕ, ◌+◌, ◌-◌, ◌*◌, ◌<◌, ◌≤◌, length, nat_lt};
ghost use Rattle.sm3.specs.Sm3.{words_at, xored, compressed, iterated};
ghost use Rattle.sm3.specs.Rounds.{Reached, word_total};

use crate::Registers;
use crate::block::{grow_four, load};
use crate::round::four_rounds;
use std::num::wrapping_add_u32 as add;

// The rounds 4 first to 4 end - 1, and the words that go along.
fn rounds<const EARLY: bool>(v: Registers, w: &mut [u32; 68], first: usize, end: usize) -> Registers
    requires first_bound { first ≤ end }
    requires end_bound { end ≤ 16 }
    requires early_value { (k : ℕ) → first ≤ k → k < end → EARLY ≡ nat_lt k 4 }
    ensures { Reached (4 * (end - first)) (4 * first) w.old v w.new result }
{
    let mut r = v;
    for k in first..end {
        grow_four(w, 4 + k);
        r = four_rounds::<EARLY>(r, k, w);
    }
    r
}

pub fn xored(r: Registers, v: Registers) -> Registers
    ensures { result ≡ xored r v }
{
    Registers {
        a: r.a ^ v.a,
        b: r.b ^ v.b,
        c: r.c ^ v.c,
        d: r.d ^ v.d,
        e: r.e ^ v.e,
        f: r.f ^ v.f,
        g: r.g ^ v.g,
        h: r.h ^ v.h,
    }
}

// CF on the block of m that starts at at.
fn compress(v: Registers, m: &[u8], at: usize) -> Registers
    requires { at + 64 ≤ length m.now }
    ensures { result ≡ compressed v (words_at 16 m.now at) }
{
    let mut w = load(m, at);
    let early = rounds::<true>(v, &mut w, 0, 4);
    let late = rounds::<false>(early, &mut w, 4, 16);
    xored(late, v)
}

// The sum of the words without the carry.
pub fn word_sum(r: Registers) -> u32
    ensures { result ≡ word_total r }
{
    let left = add(add(r.a, r.b), add(r.c, r.d));
    let right = add(add(r.e, r.f), add(r.g, r.h));
    add(left, right)
}

// A value V with the sum of its words. The sum is made while the words are at hand: stored one by one and read back all at
// once they would be waited for.
#[derive(Clone, Copy)]
pub struct Summed {
    pub value: Registers,
    pub sum: u32,
}

// The first n blocks of m, one after the other.
pub(crate) fn iterate(v: Registers, m: &[u8], n: usize) -> Summed
    requires { 64 * n ≤ length m.now }
    ensures value_value { result.value ≡ iterated n m.now v }
    ensures sum_value { result.sum ≡ word_total result.value }
{
    let mut value = v;
    for i in 0..n {
        value = compress(value, m, 64 * i);
    }
    let sum = word_sum(value);
    Summed { value, sum }
}
