// The words of the messages: word i of message l stands at 4 i + l.
ghost use Rattle.std.specs.Prelude.{◌≡◌, ◌+◌, ◌*◌, ◌<◌, ◌≤◌, length, nat_lt, slice_set};
ghost use Rattle.sm3.specs.Sm3.{next_word};
ghost use Rattle.sm3_lanes.specs.Lanes.{lane_of, Across, among, raised, Added, Grew};

use sm3::block::p1;
use std::num::wrapping_add_u32 as add;
use words::bytes::word_at;
use words::word::rotate_left;

// W_j of message l from the words before it. An index has its bound in the contract that uses it: a type for each index is no plainer.
fn next_word(w: &[u32; 272], j: usize, l: usize) -> u32
    requires le_j { 16 ≤ j }
    requires j_bound { j < 68 }
    requires l_bound { l < 4 }
    ensures { result ≡ next_word (lane_of 68 l w.now) j }
{
    let first = w[4 * (j - 16) + l] ^ w[4 * (j - 9) + l] ^ rotate_left(w[4 * (j - 3) + l], 15);
    p1(first) ^ rotate_left(w[4 * (j - 13) + l], 7) ^ w[4 * (j - 6) + l]
}

// Stores W_j of message l.
fn grow(w: &mut [u32; 272], j: usize, l: usize)
    requires le_j { 16 ≤ j }
    requires j_bound { j < 68 }
    requires l_bound { l < 4 }
    ensures { w.new ≡ slice_set w.old (4 * j + l) (next_word (lane_of 68 l w.old) j) }
{
    w[4 * j + l] = next_word(w, j, l);
}

// Stores W_4k to W_4k+3 of message l. Past the last word there is nothing to store: there GROWS is false.
pub(crate) fn grow_four<const GROWS: bool>(w: &mut [u32; 272], k: usize, l: usize)
    requires le_k { 4 ≤ k }
    requires grows_value { GROWS ≡ nat_lt k 17 }
    requires l_bound { l < 4 }
    ensures { Grew l (4 * k) w.old w.new }
{
    if !GROWS {
        return;
    }
    let j = 4 * k;
    grow(w, j, l);
    grow(w, j + 1, l);
    grow(w, j + 2, l);
    grow(w, j + 3, l);
}

// Puts word j of each message. The four words are parameters, since the caller has them in no array.
pub fn put_four(w: &mut [u32; 272], j: usize, a: u32, b: u32, c: u32, d: u32)
    requires { j < 68 }
    ensures { Across j (among a b c d) w.old w.new }
{
    let at = 4 * j;
    w[at] = a;
    w[at + 1] = b;
    w[at + 2] = c;
    w[at + 3] = d;
}

// Adds x to word j of each message, without the carry.
fn add_word(w: &mut [u32; 272], j: usize, x: u32)
    requires { j < 68 }
    ensures { Across j (raised x j w.old) w.old w.new }
{
    let at = 4 * j;
    let a = add(w[at], x);
    let b = add(w[at + 1], x);
    let c = add(w[at + 2], x);
    let d = add(w[at + 3], x);
    put_four(w, j, a, b, c, d);
}

// Adds the sixteen words of a block to those of each message.
pub fn add_block(w: &mut [u32; 272], m: &[u8])
    requires { 64 ≤ length m.now }
    ensures { Added 16 m.now w.old w.new }
{
    for j in 0..16 {
        add_word(w, j, word_at(m, 4 * j));
    }
}
