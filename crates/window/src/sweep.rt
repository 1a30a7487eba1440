// One sweep of the window, upward: used and fresh candidates in one loop (document 01, Part 3; document 02, Ask 2).
ghost use Rattle.std.specs.Prelude.{◌≡◌, ◌^◌, ◌≤◌, ◌<◌, length};
ghost use Rattle.window.specs.Window.{Sound};
ghost use Rattle.window.specs.Goal.{maker_of, cut_at};
ghost use Rattle.window.specs.Sweep.{sure_cuts, swept_by};

use crate::goal::{Goal, ahead_by, hits, more_sure};
use crate::met::{UNMET, met_by, met_outcome};
use crate::range::candidates;
use crate::{Scheme, Seconds, Size, Swept, TIME_TOKEN, Track};
use otp::lists::{Maker, READY, put_cuts, put_first_cuts};

// The most candidates that a window has.
const MOST: usize = 51;

// How a token's steps are cut.
fn maker_of(scheme: Scheme) -> Maker
    ensures { result ≡ maker_of scheme }
{
    Maker {
        algorithm: scheme.algorithm,
        timed: scheme.kind == TIME_TOKEN,
    }
}

// How many of all candidates every sweep computes: for one password all of them, for a pair the used steps and the first that it could be accepted with.
fn sure_cuts(goal: Goal, all: u64, used: u64) -> u64
    requires { used < 2 ^ 63 }
    ensures value { result ≡ sure_cuts goal all used }
    ensures upper_bound { result ≤ all }
{
    match goal.before {
        Some(_) => all.min(used + 2),
        None => all,
    }
}

// Place i is the candidate first + i; a pair that hits there is accepted at the place `ahead` of it, and ends the sweep. `made` counts the cuts that are made:
// first those that every sweep makes, then, for a pair, those that it is certain to reach. Track and clock are no struct with `Sound` in it: `check` has to
// ask for it in any case, and only `candidates` asks for it too.
pub(crate) fn sweep(
    track: Track,
    clock: Seconds,
    size: Size,
    key: &[u8],
    challenge: &[u8],
    goal: Goal,
) -> Swept
    requires sound { Sound track clock.0 }
    requires in_bounds { 16 ≤ length key.now }
    requires key_len_bound { length key.now ≤ 32 }
    requires challenge_len_bound { length challenge.now ≤ 32 }
    requires modulus_nonzero { 0 < goal.modulus }
    ensures { result ≡ swept_by track clock.0 size goal (cut_at track.scheme key.now challenge.now) }
{
    let ahead = ahead_by(goal);
    let pair = goal.before.is_some();
    let range = candidates(track, clock, size);
    let first = range.first.0;
    let end = range.end.0;
    let next = track.next.0;
    let maker = maker_of(track.scheme);
    let all = end.saturating_sub(first);
    let mut ready = [0u32; READY];
    let mut cuts = [0u32; MOST];
    let mut made = sure_cuts(goal, all, next.saturating_sub(first));
    let sure = made as usize;
    put_first_cuts(maker, key, challenge, first, &mut ready, &mut cuts[0..sure]);
    let mut met = UNMET;
    for i in 0..all.saturating_sub(ahead) {
        let here = i as usize;
        if made <= i + ahead {
            let s = first + made;
            let more = more_sure(goal, cuts[here], end - s);
            let from = made as usize;
            let to = (made + more) as usize;
            put_cuts(maker, key, &ready, challenge, s, &mut cuts[from..to]);
            made += more;
        }
        let last = (i + ahead) as usize;
        let hit = hits(goal, cuts[here], cuts[last]);
        met = met_by(met, hit, next <= first + i, first + i + 1 == next, i);
        if (0 < met.fresh) && pair {
            break;
        }
    }
    Swept {
        outcome: met_outcome(first, ahead, met),
        computed: made,
        fresh: met.fresh,
    }
}
