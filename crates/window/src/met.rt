// What a sweep of the window has met on its way up.
ghost use Rattle.std.specs.Prelude.{◌≡◌, ◌^◌, ◌≤◌, ◌<◌};
ghost use Rattle.window.specs.Sweep.{met_by, met_outcome};

use crate::{Outcome, Step};

// Whether a used step hit, and among them the one before the first unused step; how many fresh ones did, and the place of the last of those, which counts
// where it is the only one.
#[derive(Clone, Copy)]
pub struct Met {
    pub used: bool,
    pub again: bool,
    pub fresh: u64,
    pub at: u64,
}

// Nothing so far.
pub(crate) const UNMET: Met = Met {
    used: false,
    again: false,
    fresh: 0,
    at: 0,
};

// With place i looked at: whether its step hit, is fresh, or is the last used one.
pub(crate) fn met_by(met: Met, hit: bool, fresh: bool, last: bool, i: u64) -> Met
    requires { met.fresh < 2 ^ 63 }
    ensures { result ≡ met_by met hit fresh last i }
{
    if !hit {
        return met;
    }
    if fresh {
        Met {
            fresh: met.fresh + 1,
            at: i,
            ..met
        }
    } else {
        Met {
            used: true,
            again: met.again | last,
            ..met
        }
    }
}

// Of several fresh hits none is accepted; the place of the accepted step is `ahead` of the hit's.
pub(crate) fn met_outcome(first: u64, ahead: u64, met: Met) -> Outcome
    requires first_bound { first ≤ 2 ^ 41 }
    requires at_bound { met.at ≤ 2 ^ 41 }
    requires ahead_bound { ahead ≤ 1 }
    ensures { result ≡ met_outcome first ahead met }
{
    if 2 <= met.fresh {
        return Outcome::Several;
    }
    if 0 < met.fresh {
        return Outcome::Accepted(Step(first + met.at + ahead));
    }
    if met.again {
        return Outcome::Again;
    }
    if met.used {
        Outcome::Used
    } else {
        Outcome::Wrong
    }
}
