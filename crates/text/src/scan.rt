// The search for a byte, eight at a time, for the proved callers: they require what those give.
ghost use Rattle.std.specs.Prelude.{◌≡◌, ◌+◌, ◌/◌, ◌≤◌, length};
ghost use Rattle.std.specs.Int.Count.{count_trailing_zeros};
ghost use Rattle.words.specs.Search.{index_of, slice};
ghost use Rattle.text.specs.Steps.{first_zero};

use std::num::wrapping_sub_u64;
use words::bytes::le_eight;

// 1 in each byte, and the highest bit of each.
const ONES: u64 = 0x0101_0101_0101_0101;

const HIGHEST: u64 = 0x8080_8080_8080_8080;

// Marks the zero bytes of x up to the first: the lowest bit that is set is the highest bit of that byte.
fn zero_marks(x: u64) -> u64
    ensures { count_trailing_zeros 64 result / 8 ≡ first_zero 8 x }
{
    wrapping_sub_u64(x, ONES) & !x & HIGHEST
}

// Marks the first b among the eight bytes from at on.
fn marks(s: &[u8], at: usize, b: u8) -> u64
    requires { at + 8 ≤ length s.now }
    ensures { count_trailing_zeros 64 result / 8 ≡ index_of b (slice at (at + 8) s.now) }
{
    zero_marks(le_eight(s, at) ^ (b as u64 * ONES))
}

// The same for a few bytes, one at a time.
fn find_each(s: &[u8], from: usize, to: usize, b: u8) -> usize
    requires from_le_to { from ≤ to }
    requires to_in_bounds { to ≤ length s.now }
    ensures value { result ≡ from + index_of b (slice from to s.now) }
    ensures upper_bound { result ≤ to }
{
    for at in from..to {
        if s[at] == b {
            return at;
        }
    }
    to
}

// The place of the first b from `from` up to, not including, `to`; `to` where there is none.
#[inline(always)]
pub fn find(s: &[u8], from: usize, to: usize, b: u8) -> usize
    requires from_le_to { from ≤ to }
    requires to_in_bounds { to ≤ length s.now }
    ensures value { result ≡ from + index_of b (slice from to s.now) }
    ensures upper_bound { result ≤ to }
{
    let mut at = from;
    // Eight bytes a step; a range by `step_by` would want the last start, and that may lie below 0.
    while at + 8 <= to {
        let found = marks(s, at, b);
        if found != 0 {
            return at + (u64::trailing_zeros(found) / 8) as usize;
        }
        at += 8;
    }
    find_each(s, at, to, b)
}
