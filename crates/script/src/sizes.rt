// The sizes of the buffers.
use desk::MOST_ROWS;
use row::ROW_BYTES;

// The longest line that is looked at.
pub const LONGEST: usize = 4096;

// All rows of a table.
pub const TABLE: usize = MOST_ROWS * ROW_BYTES;

// A row as text: two digits a byte, and a line feed.
const ROW_TEXT: usize = 2 * ROW_BYTES + 1;

// Above it there may be no room for all rows.
pub(crate) const FULL: usize = 65536;

// Beside what is not written out yet, room for all rows.
pub const OUTPUT: usize = FULL + MOST_ROWS * ROW_TEXT;
