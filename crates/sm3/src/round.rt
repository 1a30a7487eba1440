// A round of the compression function (4.3, 4.4, 5.3.3), and four of them in a row.
ghost use Rattle.std.specs.Prelude.{◌≡◌, ◌*◌, ◌<◌, cond, nat_lt};
ghost use Rattle.sm3.specs.Sm3.{parity, majority, choice, p0, round_with};
ghost use Rattle.sm3.specs.Rounds.{round_on, four_rounds};

use crate::Registers;
use crate::table::CONSTANTS;
use std::num::wrapping_add_u32 as add;
use words::word::rotate_left;

// FF and GG of the rounds 0 to 15.
pub fn parity(x: u32, y: u32, z: u32) -> u32
    ensures { result ≡ parity x y z }
{
    x ^ y ^ z
}

// FF of the rounds 16 to 63.
pub fn majority(x: u32, y: u32, z: u32) -> u32
    ensures { result ≡ majority x y z }
{
    (x & y) | (x & z) | (y & z)
}

// GG of the rounds 16 to 63, in the form that takes one operation less.
pub fn choice(x: u32, y: u32, z: u32) -> u32
    ensures { result ≡ choice x y z }
{
    ((y ^ z) & x) ^ z
}

// The permutation P0, in the form that takes fewer copies of the word.
fn p0(x: u32) -> u32
    ensures { result ≡ p0 x }
{
    x ^ rotate_left(x ^ rotate_left(x, 8), 9)
}

// The round, with what FF and GG gave, the constant t, W_j and W'_j.
pub fn round_with(r: Registers, ff: u32, gg: u32, t: u32, w: u32, v: u32) -> Registers
    ensures { result ≡ round_with ff gg t w v r }
{
    let rotated = rotate_left(r.a, 12);
    let ss1 = rotate_left(add(add(rotated, r.e), t), 7);
    let ss2 = ss1 ^ rotated;
    let tt1 = add(add(add(ff, r.d), ss2), v);
    let tt2 = add(add(add(gg, r.h), ss1), w);
    Registers {
        a: tt1,
        b: r.a,
        c: rotate_left(r.b, 9),
        d: r.c,
        e: p0(tt2),
        f: r.e,
        g: rotate_left(r.f, 19),
        h: r.g,
    }
}

// FF of a round, which is EARLY if it is one of the rounds 0 to 15.
fn ff<const EARLY: bool>(x: u32, y: u32, z: u32) -> u32
    ensures { result ≡ cond EARLY (parity x y z) (majority x y z) }
{
    if EARLY {
        parity(x, y, z)
    } else {
        majority(x, y, z)
    }
}

// GG of a round.
fn gg<const EARLY: bool>(x: u32, y: u32, z: u32) -> u32
    ensures { result ≡ cond EARLY (parity x y z) (choice x y z) }
{
    if EARLY {
        parity(x, y, z)
    } else {
        choice(x, y, z)
    }
}

// Round j, with the word W_j and the word W_j+4 ahead of it.
pub fn round<const EARLY: bool>(r: Registers, j: usize, word: u32, ahead: u32) -> Registers
    requires j_bound { j < 64 }
    requires early_value { EARLY ≡ nat_lt j 16 }
    ensures { result ≡ round_on j word ahead r }
{
    let left = ff::<EARLY>(r.a, r.b, r.c);
    let right = gg::<EARLY>(r.e, r.f, r.g);
    round_with(r, left, right, CONSTANTS[j], word, word ^ ahead)
}

// Four rounds at a time: the registers then stand where they stood, and nothing is moved.
pub(crate) fn four_rounds<const EARLY: bool>(r: Registers, k: usize, w: &[u32; 68]) -> Registers
    requires k_bound { k < 16 }
    requires early_value { EARLY ≡ nat_lt k 4 }
    ensures { result ≡ four_rounds (4 * k) w.now r }
{
    let j = 4 * k;
    let r1 = round::<EARLY>(r, j, w[j], w[j + 4]);
    let r2 = round::<EARLY>(r1, j + 1, w[j + 1], w[j + 5]);
    let r3 = round::<EARLY>(r2, j + 2, w[j + 2], w[j + 6]);
    round::<EARLY>(r3, j + 3, w[j + 3], w[j + 7])
}
