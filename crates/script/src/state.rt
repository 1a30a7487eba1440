// What is kept from line to line.
ghost use Rattle.std.specs.Prelude.{◌≤◌};

use crate::sizes::{LONGEST, TABLE};

// The line that no line feed has ended yet.
pub type Pending = lines::Pending<LONGEST>;

// Whether no line was read yet, and how many rows the table has: a table may stand before the first line.
#[derive(Clone, Copy)]
pub struct Stage {
    pub fresh: bool,
    pub rows: usize,
    ghost few: { rows ≤ 256 },
}

// The rows stand at the front of the bytes.
#[derive(Drop)]
pub struct Table {
    pub bytes: [u8; TABLE],
    pub stage: Stage,
}
