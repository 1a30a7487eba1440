// The call `load`.
ghost use Rattle.std.specs.Prelude.{◌≡◌, ◌≤◌, length};
ghost use Rattle.window.specs.PasswordAt.{password_at};
ghost use Rattle.desk.specs.Requests.{DeskCall, loaded_row, load_ok};
ghost use Rattle.desk.specs.Desk.{result_of, desk_after};

use crate::Particulars;
use crate::arguments::table_ok;
use row::{
    KEY_BYTES, LAST_STATE, NOT_ACTIVATED, ROW_BYTES, Row, find_empty, find_row, numbers_ok,
    write_row,
};
use token::{Answer, Content, Refusal, Success};
use window::{FARTHEST, Offset, Seconds, Step, Track};

const LOADED: u16 = 0x0140;

// The row that a load sets: not activated; next, d, errors and times are 0.
fn loaded_row(particulars: Particulars, key: &[u8]) -> Row
    requires { length key.now ≤ 32 }
    ensures { result ≡ loaded_row particulars key.now }
{
    let track = Track {
        scheme: particulars.scheme,
        period: particulars.period,
        next: Step(0),
        offset: Offset(FARTHEST as u16),
    };
    Row {
        state: NOT_ACTIVATED,
        track,
        limit: particulars.limit,
        errors: 0,
        key_length: key.len() as u8,
        serial: particulars.serial,
        wait: particulars.wait,
        expiry: particulars.expiry,
        locked_at: Seconds(0),
        last_use: Seconds(0),
    }
}

// Whether a load's values are in Part 4's ranges.
fn load_ok(particulars: Particulars, key: &[u8]) -> bool
    ensures { result ≡ load_ok particulars key.now }
{
    if KEY_BYTES < key.len() {
        return false;
    }
    numbers_ok(LAST_STATE, loaded_row(particulars, key))
}

// The call `load`: the token goes to the first empty row.
pub fn load(table: &mut [u8], particulars: Particulars, key: &[u8]) -> Answer
    ensures { result_of result table.new ≡ desk_after password_at (DeskCall.load particulars key.now) table.old }
{
    if !(table_ok(table) & load_ok(particulars, key)) {
        return Err(Refusal::BadArgument);
    }
    if find_row(table, ROW_BYTES, particulars.serial).is_some() {
        return Err(Refusal::AlreadyLoaded);
    }
    let Some(at) = find_empty(table, ROW_BYTES) else {
        return Err(Refusal::TableFull);
    };
    write_row(table, at, loaded_row(particulars, key), key);
    Ok(Success {
        number: LOADED,
        content: Content::Plain,
    })
}
