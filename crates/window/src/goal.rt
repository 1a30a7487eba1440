// What is searched for: the presented passwords as numbers, and which cuts of steps have them.
ghost use Rattle.std.specs.Prelude.{◌≡◌, ◌%◌, ◌≤◌, ◌<◌};
ghost use Rattle.window.specs.Goal.{single_goal, pair_goal, ahead_by, begins, hits, more_sure};

use otp::number::ten_to;
use otp::typed::Password;

// The numbers that are searched for: that of the accepted step and, of a pair, that of the step before it.
#[derive(Clone, Copy)]
pub struct Goal {
    pub modulus: u64,
    pub before: Option<u64>,
    pub last: u64,
}

// One password.
pub(crate) fn single_goal(p: Password) -> Goal
    requires { p.digits ≤ 10 }
    ensures { result ≡ single_goal p }
{
    let modulus = ten_to(p.digits as usize);
    Goal {
        modulus,
        before: None,
        last: p.number % modulus,
    }
}

// Two in a row, of as many digits.
pub(crate) fn pair_goal(p: Password, q: Password) -> Goal
    requires { p.digits ≤ 10 }
    ensures { result ≡ pair_goal p q }
{
    let modulus = ten_to(p.digits as usize);
    Goal {
        modulus,
        before: Some(p.number % modulus),
        last: q.number % modulus,
    }
}

pub(crate) fn ahead_by(goal: Goal) -> u64
    ensures value { result ≡ ahead_by goal }
    ensures upper_bound { result ≤ 1 }
{
    goal.before.is_some() as u64
}

// The number of a cut's last digits. Most passwords have six, and by a number that the compiler knows it divides sooner.
fn digits_of(cut: u32, modulus: u64) -> u64
    requires { 0 < modulus }
    ensures { result ≡ cut % modulus }
{
    if modulus == 1_000_000 {
        return cut as u64 % 1_000_000;
    }
    cut as u64 % modulus
}

// Whether a cut has a pair's first password; of one password each does.
fn begins(goal: Goal, cut: u32) -> bool
    requires { 0 < goal.modulus }
    ensures { result ≡ begins goal cut }
{
    match goal.before {
        Some(before) => digits_of(cut, goal.modulus) == before,
        None => true,
    }
}

// Whether the cuts of the step that hits and of the step to accept are the goal's; of one password both are of one step.
pub(crate) fn hits(goal: Goal, before: u32, cut: u32) -> bool
    requires { 0 < goal.modulus }
    ensures { result ≡ hits goal before cut }
{
    (digits_of(cut, goal.modulus) == goal.last) && begins(goal, before)
}

// How many of the `left` steps past a reached one are computed for certain: a pair that this one does not begin may begin only at the next.
pub(crate) fn more_sure(goal: Goal, reached: u32, left: u64) -> u64
    requires { 0 < goal.modulus }
    ensures value { result ≡ more_sure goal reached left }
    ensures lower_bound { 1 ≤ result }
    ensures upper_bound { result ≤ 2 }
{
    if (left < 2) | begins(goal, reached) {
        1
    } else {
        2
    }
}
