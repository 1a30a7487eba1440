// The check of a token's window, for callers who keep the token's numbers themselves.
ghost use Rattle.std.specs.Prelude.{◌≡◌, ◌<◌, length};
ghost use Rattle.capi.specs.Stored.{left};
ghost use Rattle.capi.specs.Checked.{track_of, size_of, presented_of, check_numbers_ok, checked, outcome_left, check_left};

use otp::typed::password_of;
use row::track_ok;
use token::{Refusal, number_of};
use window::{Asked, CLOCKS, Offset, Outcome, Scheme, Seconds, Size, Step, Track, check, in_range};
use words::codes::{BAD_ARGUMENT, DONE};

// The size that a number from 1 to 3 stands for: C has numbers.
fn size_of(number: u8) -> Size
    ensures { result ≡ size_of number }
{
    if number == 1 {
        return Size::Small;
    }
    if number == 2 {
        return Size::Medium;
    }
    Size::Large
}

// What is asked of the window, where the passwords are in range: one password, with its challenge where there is one, or two as a pair, which has no challenge.
fn presented_of(size: Size, challenge: &[u8], presented: &[u8], following: &[u8]) -> Option<Asked>
    ensures { result ≡ presented_of size challenge.now presented.now following.now }
{
    let p = password_of(presented)?;
    if following.len() == 0 {
        if challenge.len() == 0 {
            return Some(Asked::One(size, p));
        }
        return Some(Asked::Challenged(size, p));
    }
    let q = password_of(following)?;
    if 0 < challenge.len() {
        return None;
    }
    Some(Asked::Two(size, p, q))
}

// Whether the other arguments are in the ranges of document 01, Parts 2 to 4.
fn numbers_ok(track: Track, clock: Seconds, size: u8, key: &[u8], challenge: &[u8]) -> bool
    ensures { result ≡ check_numbers_ok track clock.0 size key.now challenge.now }
{
    in_range(track.scheme, key, challenge)
        & ((clock.0 < CLOCKS) & ((1 <= size) & (size <= 3)))
        & track_ok(track)
}

// The outcome's code, and an accepted step in the first element of step.
fn put_outcome(outcome: Outcome, step: &mut [u64]) -> u16
    requires { 0 < length step.old }
    ensures { left result step.new ≡ outcome_left outcome step.old }
{
    match outcome {
        Outcome::Accepted(s) => {
            step[0] = s.0;
            DONE
        }
        Outcome::Several => number_of(Err(Refusal::NextAtLogin)),
        Outcome::Again | Outcome::Used => number_of(Err(Refusal::UsedAtLogin)),
        Outcome::Wrong => number_of(Err(Refusal::WrongAtLogin)),
    }
}

// The check of one presented password, or of two. An accepted step goes to the first element of step, how many passwords were computed to that of computed, and
// how many unused steps matched to that of fresh.
#[unsafe(no_mangle)]
pub extern "C" fn dl_check(
    kind: u8,
    algorithm: u8,
    digits: u8,
    period: u8,
    next: u64,
    offset: u16,
    clock: u64,
    size: u8,
    key: &[u8],
    challenge: &[u8],
    presented: &[u8],
    following: &[u8],
    step: &mut [u64],
    computed: &mut [u64],
    fresh: &mut [u64],
) -> u16
    ensures { checked result step.new computed.new fresh.new ≡ check_left (track_of kind algorithm digits period next offset) clock size key.now challenge.now presented.now following.now step.old computed.old fresh.old }
{
    let track = Track {
        scheme: Scheme {
            kind,
            algorithm,
            digits,
        },
        period,
        next: Step(next),
        offset: Offset(offset),
    };
    let ok = numbers_ok(track, Seconds(clock), size, key, challenge);
    let room = (0 < step.len()) & ((0 < computed.len()) & (0 < fresh.len()));
    if !(ok & room) {
        return BAD_ARGUMENT;
    }
    let Some(asked) = presented_of(size_of(size), challenge, presented, following) else {
        return BAD_ARGUMENT;
    };
    let swept = check(track, Seconds(clock), key, challenge, asked);
    let outcome = swept.outcome;
    computed[0] = swept.computed;
    fresh[0] = swept.fresh;
    put_outcome(outcome, step)
}
