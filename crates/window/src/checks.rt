// The single and the pair check (document 01, Part 3).
ghost use Rattle.std.specs.Prelude.{◌≡◌, true};
ghost use Rattle.window.specs.Window.{Sound};
ghost use Rattle.window.specs.PasswordAt.{password_at, in_range};
ghost use Rattle.window.specs.Asked.{outcome_of};
ghost use Rattle.window.specs.Sweep.{counts_right, computed_of, fresh_of};

use crate::goal::{pair_goal, single_goal};
use crate::sweep::sweep;
use crate::{Asked, Outcome, Seconds, Swept, Track};

// Whether each password has the token's count of digits.
fn counts_right(digits: u8, asked: Asked) -> bool
    ensures { result ≡ counts_right digits asked }
{
    match asked {
        Asked::One(_, p) => p.digits == digits,
        Asked::Challenged(_, p) => p.digits == digits,
        Asked::Two(_, p, q) => (p.digits == digits) & (q.digits == digits),
    }
}

// What is asked of a token, how many passwords were computed, and how many fresh steps matched: where a count of digits is not the token's, nothing is searched.
pub fn check(track: Track, clock: Seconds, key: &[u8], challenge: &[u8], asked: Asked) -> Swept
    requires sound { Sound track clock.0 }
    requires challenge_value { in_range track.scheme key.now challenge.now ≡ true }
    ensures outcome_value { result.outcome ≡ outcome_of password_at track clock.0 key.now challenge.now asked }
    ensures computed_value { result.computed ≡ computed_of password_at track clock.0 key.now challenge.now asked }
    ensures fresh_value { result.fresh ≡ fresh_of password_at track clock.0 key.now challenge.now asked }
{
    if !counts_right(track.scheme.digits, asked) {
        return Swept {
            outcome: Outcome::Wrong,
            computed: 0,
            fresh: 0,
        };
    }
    match asked {
        Asked::One(size, p) => sweep(track, clock, size, key, b"", single_goal(p)),
        Asked::Challenged(size, p) => sweep(track, clock, size, key, challenge, single_goal(p)),
        Asked::Two(size, p, q) => sweep(track, clock, size, key, b"", pair_goal(p, q)),
    }
}
