// The layout of a row (document 01, Part 4): where in the row each number stands, and how many bytes there are.
pub const ROW_BYTES: usize = 96;

pub const KEY_BYTES: usize = 32;

pub(crate) const STATE: usize = 0;

pub(crate) const KIND: usize = 1;

pub(crate) const ALGORITHM: usize = 2;

pub(crate) const DIGITS: usize = 3;

pub(crate) const PERIOD: usize = 4;

pub(crate) const LIMIT: usize = 5;

pub(crate) const ERRORS: usize = 6;

pub(crate) const KEY_LENGTH: usize = 7;

pub(crate) const SERIAL: usize = 8;

pub const KEY: usize = 16;

pub(crate) const NEXT: usize = 48;

pub(crate) const OFFSET: usize = 56;

pub(crate) const GAP: usize = 58;

pub(crate) const WAIT: usize = 60;

pub(crate) const EXPIRY: usize = 64;

pub(crate) const LOCKED_AT: usize = 72;

pub(crate) const LAST_USE: usize = 80;

pub(crate) const SPARE: usize = 88;
