// Whether what is lent to a call is in range (document 01, "What a turned-down call says", 9005).
ghost use Rattle.std.specs.Prelude.{◌≡◌, ◌&&◌};
ghost use Rattle.row.specs.Row.{row_bytes};
ghost use Rattle.desk.specs.Requests.{table_ok, clock_ok};

use row::ROW_BYTES;
use window::{CLOCKS, Seconds};

pub const MOST_ROWS: usize = 256;

// Whether the table has 1 to 256 rows.
pub(crate) fn table_ok(table: &[u8]) -> bool
    ensures { result ≡ table_ok row_bytes table.now }
{
    let rows = table.len() / ROW_BYTES;
    (table.len() % ROW_BYTES == 0) & ((1 <= rows) & (rows <= MOST_ROWS))
}

// Besides, whether the clock reading is below 2^40.
pub(crate) fn lent_ok(table: &[u8], clock: Seconds) -> bool
    ensures { result ≡ table_ok row_bytes table.now && clock_ok clock.0 }
{
    table_ok(table) & (clock.0 < CLOCKS)
}
