// The cuts of consecutive steps by SM4 without a challenge, side by side: ID is then one block.
ghost use Rattle.std.specs.Prelude.{◌≡◌, ◌+◌, ◌^◌, ◌<◌, ◌≤◌, length, map};
ghost use Rattle.std.specs.List.{range_with_len};
ghost use Rattle.otp.specs.Chain.{prepared};
ghost use Rattle.otp.specs.StepCuts.{step_block, words_cut, cut_by, cuts_from};

use crate::cut::cut_words;
use sm4::Quad;
use sm4_lanes::{first_each, rounds_each};

// The words of a step's block: a time token's T has two, an event token's C one.
fn block_of(timed: bool, s: u64) -> Quad
    ensures { result ≡ step_block timed s }
{
    let high = (s / 0x1_0000_0000) as u32;
    let low = (s % 0x1_0000_0000) as u32;
    let (a, b) = if timed { (high, low) } else { (low, 0) };
    Quad { a, b, c: 0, d: 0 }
}

// The blocks of the steps from s on.
fn blocks_from<const N: usize>(timed: bool, s: u64) -> [Quad; N]
    requires n_bound { N ≤ 5 }
    requires s_bound { s < 2 ^ 63 }
    ensures { result ≡ map (λ l. step_block timed (s + l)) (range_with_len 0 N) }
{
    let mut lanes = [block_of(timed, s); N];
    for l in 0..N {
        lanes[l] = block_of(timed, s + l as u64);
    }
    lanes
}

// The cuts of last states.
fn cuts_of<const N: usize>(states: [Quad; N]) -> [u32; N]
    ensures { result ≡ map words_cut states.entry }
{
    let mut cuts = [0u32; N];
    for l in 0..N {
        cuts[l] = cut_words(states[l]);
    }
    cuts
}

// The cuts of N steps from s on, under a fresh key. The round keys are left in keys.
pub(crate) fn first_cuts<const N: usize>(
    key: &[u8],
    timed: bool,
    s: u64,
    keys: &mut [u32],
) -> [u32; N]
    requires in_bounds { 16 ≤ length key.now }
    requires keys_len { length keys.old ≡ 32 }
    requires n_bound { N ≤ 5 }
    requires s_bound { s < 2 ^ 63 }
    ensures value { result ≡ cuts_from (cut_by (prepared key.now) timed) N s }
    ensures keys_after { keys.new ≡ prepared key.now }
{
    cuts_of(first_each(&key[0..16], blocks_from(timed, s), keys))
}

// Those under round keys.
pub(crate) fn cuts<const N: usize>(keys: &[u32], timed: bool, s: u64) -> [u32; N]
    requires keys_len { length keys.now ≡ 32 }
    requires n_bound { N ≤ 5 }
    requires s_bound { s < 2 ^ 63 }
    ensures { result ≡ cuts_from (cut_by keys.now timed) N s }
{
    cuts_of(rounds_each(keys, blocks_from(timed, s)))
}
