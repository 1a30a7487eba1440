// Steps and windows (document 01, Part 3).
#![tactic(auto)]

mod arguments;
mod asked;
mod checks;
mod goal;
mod met;
mod range;
mod sweep;

pub use arguments::{CLOCKS, in_range};
pub use asked::Asked;
pub use checks::check;
pub use range::{COUNTS, FARTHEST, step_at};

// The kind of a time token; an event token's is 1.
pub const TIME_TOKEN: u8 = 0;

// A clock reading, in seconds.
#[derive(Clone, Copy)]
pub struct Seconds(pub u64);

// A step: a count of periods or of events.
#[derive(Clone, Copy)]
pub struct Step(pub u64);

// A time token's offset d, from -600 to 600, held as d + 600 as in the row (document 01, Part 4).
#[derive(Clone, Copy)]
pub struct Offset(pub u16);

// The size of a window.
#[derive(Clone, Copy)]
pub enum Size {
    Small,
    Medium,
    Large,
}

// How a token's passwords are made: its kind (0 time, 1 event), its algorithm, a number that `otp` knows, and its count of digits. Kind and algorithm stay
// numbers, since `in_range`, `track_ok` of row and `Sound` answer for every byte that a row or a caller in C may have there.
#[derive(Clone, Copy)]
pub struct Scheme {
    pub kind: u8,
    pub algorithm: u8,
    pub digits: u8,
}

// What a check reads of a token: how its passwords are made, the period in seconds, the first unused step, and the offset.
#[derive(Clone, Copy)]
pub struct Track {
    pub scheme: Scheme,
    pub period: u8,
    pub next: Step,
    pub offset: Offset,
}

// What a check finds: the accepted step; or a password that several fresh steps have, that is presented again (the step before the first unused one has it),
// that an older used step has, or that is wrong.
#[derive(Clone, Copy)]
pub enum Outcome {
    Accepted(Step),
    Several,
    Again,
    Used,
    Wrong,
}

// What a check finds, how many passwords it computed, and how many fresh steps matched.
#[derive(Clone, Copy)]
pub struct Swept {
    pub outcome: Outcome,
    pub computed: u64,
    pub fresh: u64,
}
