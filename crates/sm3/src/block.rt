// The words of a block and their expansion (5.3.2).
ghost use Rattle.std.specs.Prelude.{◌≡◌, ◌+◌, ◌*◌, ◌<◌, ◌≤◌, length, take, slice_set};
ghost use Rattle.sm3.specs.Sm3.{p1, words_at, next_word};
ghost use Rattle.sm3.specs.Rounds.{grown};

use words::bytes::word_at;
use words::word::rotate_left;

// Room for the words W_0 to W_67, with the sixteen of the block in place.
pub(crate) fn load(m: &[u8], at: usize) -> [u32; 68]
    requires { at + 64 ≤ length m.now }
    ensures { take 16 result ≡ words_at 16 m.now at }
{
    let mut w = [0u32; 68];
    for j in 0..16 {
        w[j] = word_at(m, at + 4 * j);
    }
    w
}

// The permutation P1, in the form that takes fewer copies of the word.
pub fn p1(x: u32) -> u32
    ensures { result ≡ p1 x }
{
    x ^ rotate_left(x ^ rotate_left(x, 8), 15)
}

// W_j from the words before it.
fn next_word(w: &[u32; 68], j: usize) -> u32
    requires le_j { 16 ≤ j }
    requires j_in_bounds { j < 68 }
    ensures { result ≡ next_word w.now j }
{
    let first = w[j - 16] ^ w[j - 9] ^ rotate_left(w[j - 3], 15);
    p1(first) ^ rotate_left(w[j - 13], 7) ^ w[j - 6]
}

// Stores W_j.
fn grow(w: &mut [u32; 68], j: usize)
    requires le_j { 16 ≤ j }
    requires j_in_bounds { j < 68 }
    ensures { w.new ≡ slice_set w.old j (next_word w.old j) }
{
    w[j] = next_word(w, j);
}

// Stores W_4k to W_4k+3. Past the last word there is nothing to store.
pub(crate) fn grow_four(w: &mut [u32; 68], k: usize)
    requires le_k { 4 ≤ k }
    requires k_bound { k < 20 }
    ensures { w.new ≡ grown 4 w.old (4 * k) }
{
    if 17 <= k {
        return;
    }
    let j = 4 * k;
    grow(w, j);
    grow(w, j + 1);
    grow(w, j + 2);
    grow(w, j + 3);
}
