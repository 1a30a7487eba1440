// The codes of document 01 that Parts 1 and 2 give, as C gets them.

// Nothing was refused; document 01 has no number for it.
pub const DONE: u16 = 0;

// A bad argument ("What a turned-down call says").
pub const BAD_ARGUMENT: u16 = 0x9005;

// The error of a function that refuses its arguments: its caller answers BAD_ARGUMENT.
#[derive(Clone, Copy, Debug, PartialEq, Eq)]
pub struct BadArgument;
