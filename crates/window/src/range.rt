// The candidates of a token as a range of steps, possibly empty.
ghost use Rattle.std.specs.Prelude.{◌≡◌, ◌^◌, ◌≤◌, ◌<◌};
ghost use Rattle.window.specs.Window.{step_at, time_width, event_width, Sound};
ghost use Rattle.window.specs.Range.{time_first, time_end, event_first, event_end, first_step, end_step};

use crate::{Seconds, Size, Step, TIME_TOKEN, Track};

// The farthest that a step may lie from T, and d from 0.
pub const FARTHEST: u64 = 600;

// Every event count lies below.
pub const COUNTS: u64 = 0x1_0000_0000;

// The steps from first up to, not including, end.
#[derive(Clone, Copy)]
pub struct Range {
    pub first: Step,
    pub end: Step,
}

// The step of a clock reading: seconds become steps only here. By the usual periods, which the compiler then knows, dividing costs less.
pub fn step_at(clock: Seconds, period: u8) -> Step
    requires { 0 < period }
    ensures { result.0 ≡ step_at clock.0 period }
{
    if period == 30 {
        return Step(clock.0 / 30);
    }
    if period == 60 {
        return Step(clock.0 / 60);
    }
    Step(clock.0 / period as u64)
}

// The widths w of a window: a time token's and an event token's.
fn widths(size: Size) -> (u64, u64)
    ensures time_value { result.0 ≡ time_width size }
    ensures event_value { result.1 ≡ event_width size }
    ensures time_bound { result.0 ≤ 10 }
    ensures event_bound { result.1 ≤ 50 }
{
    match size {
        Size::Small => (2, 10),
        Size::Medium => (5, 20),
        Size::Large => (10, 50),
    }
}

// Both bounds of a time token's candidates: w around T + d, and 600 around T.
fn time_range(t: Step, offset: u64, w: u64) -> Range
    requires t_bound { t.0 < 2 ^ 40 }
    requires offset_bound { offset ≤ 1200 }
    requires w_bound { w ≤ 10 }
    ensures first_value { result.first.0 ≡ time_first t.0 offset w }
    ensures end_value { result.end.0 ≡ time_end t.0 offset w }
{
    let centre = t.0 + offset;
    let first = centre
        .saturating_sub(FARTHEST + w)
        .max(t.0.saturating_sub(FARTHEST));
    let end = (centre + w + 1)
        .saturating_sub(FARTHEST)
        .min(t.0 + FARTHEST + 1);
    Range {
        first: Step(first),
        end: Step(end),
    }
}

// An event token's candidates: from the last used step on.
fn event_range(next: Step, w: u64) -> Range
    requires next_bound { next.0 < 2 ^ 41 }
    requires w_bound { w ≤ 50 }
    ensures first_value { result.first.0 ≡ event_first next.0 }
    ensures end_value { result.end.0 ≡ event_end next.0 w }
{
    Range {
        first: Step(next.0.saturating_sub(1)),
        end: Step((next.0 + w).min(COUNTS)),
    }
}

// The candidates of a token at a clock reading: `candidates-are-range` of specs/WindowLaws.antt says that these are all.
pub(crate) fn candidates(track: Track, clock: Seconds, size: Size) -> Range
    requires { Sound track clock.0 }
    ensures first_value { result.first.0 ≡ first_step track clock.0 size }
    ensures end_value { result.end.0 ≡ end_step track clock.0 size }
{
    let (time_width, event_width) = widths(size);
    if track.scheme.kind == TIME_TOKEN {
        let t = step_at(clock, track.period);
        return time_range(t, track.offset.0 as u64, time_width);
    }
    event_range(track.next, event_width)
}
