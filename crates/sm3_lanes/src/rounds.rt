// The rounds. What is done to one message is done to the next one in a loop over l, which the compiler turns into instructions that take
// four words at once. EARLY says that the rounds are among 0 to 15, GROWS that words go along: what is tested in the loop would keep it from that.
ghost use Rattle.std.specs.Prelude.{◌≡◌, ℕ, ◌+◌, ◌-◌, ◌*◌, ◌<◌, ◌≤◌, nat_lt};
ghost use Rattle.sm3.specs.Sm3.{round};
ghost use Rattle.sm3_lanes.specs.Lanes.{lane_of, Stepped, Moved, AllReached};

use crate::messages::grow_four;
use crate::values::{put_value, value_at};
use sm3::Registers;
use sm3::round::round;

// Round j of message l.
fn lane_round<const EARLY: bool>(r: Registers, j: usize, l: usize, w: &[u32; 272]) -> Registers
    requires j_bound { j < 64 }
    requires early_value { EARLY ≡ nat_lt j 16 }
    requires l_bound { l < 4 }
    ensures { result ≡ round j (lane_of 68 l w.now) r }
{
    round::<EARLY>(r, j, w[4 * j + l], w[4 * (j + 4) + l])
}

// The rounds 4k to 4k+3 of message l, and the words that go along.
fn four_rounds<const EARLY: bool, const GROWS: bool>(
    s: &mut [u32; 32],
    w: &mut [u32; 272],
    k: usize,
    l: usize,
)
    requires k_bound { k < 16 }
    requires early_value { EARLY ≡ nat_lt k 4 }
    requires grows_value { GROWS ≡ nat_lt k 13 }
    requires l_bound { l < 4 }
    ensures { Stepped l (4 * k) s.old w.old s.new w.new }
{
    grow_four::<GROWS>(w, 4 + k, l);
    let j = 4 * k;
    let r = value_at(s, l);
    let r1 = lane_round::<EARLY>(r, j, l, w);
    let r2 = lane_round::<EARLY>(r1, j + 1, l, w);
    let r3 = lane_round::<EARLY>(r2, j + 2, l, w);
    let r4 = lane_round::<EARLY>(r3, j + 3, l, w);
    put_value(s, l, r4);
}

// The same of all four messages.
fn four_lanes<const EARLY: bool, const GROWS: bool>(s: &mut [u32; 32], w: &mut [u32; 272], k: usize)
    requires k_bound { k < 16 }
    requires early_value { EARLY ≡ nat_lt k 4 }
    requires grows_value { GROWS ≡ nat_lt k 13 }
    ensures { Moved (4 * k) s.old w.old s.new w.new }
{
    for l in 0..4 {
        four_rounds::<EARLY, GROWS>(s, w, k, l);
    }
}

// The rounds 4 first to 4 end - 1 of all four messages.
pub(crate) fn rounds<const EARLY: bool, const GROWS: bool>(
    s: &mut [u32; 32],
    w: &mut [u32; 272],
    first: usize,
    end: usize,
)
    requires first_bound { first ≤ end }
    requires end_bound { end ≤ 16 }
    requires early_value { (k : ℕ) → first ≤ k → k < end → EARLY ≡ nat_lt k 4 }
    requires grows_value { (k : ℕ) → first ≤ k → k < end → GROWS ≡ nat_lt k 13 }
    ensures { AllReached (4 * (end - first)) (4 * first) s.old w.old s.new w.new }
{
    for k in first..end {
        four_lanes::<EARLY, GROWS>(s, w, k);
    }
}
