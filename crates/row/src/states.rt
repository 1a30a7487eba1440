// The states of a row (document 01, Part 4).
pub const EMPTY: u8 = 0;

pub const NOT_ACTIVATED: u8 = 1;

pub const READY: u8 = 2;

pub const LOCKED_BY_ERRORS: u8 = 3;

pub const LOCKED_BY_HAND: u8 = 4;

pub const SUSPENDED: u8 = 5;

pub const VOID: u8 = 6;

// The highest state of a table.
pub const LAST_STATE: u8 = VOID;
