// A message served as its call (document 02, Ask 1).
ghost use Rattle.std.specs.Prelude.{◌≡◌};
ghost use Rattle.capi.specs.DeskLeft.{left_with, message_left};

use crate::values::{MOST_VALUES, put_answer};
use message_calls::serve_message;
use window::Seconds;
use words::codes::BAD_ARGUMENT;

// Serves a message of GM/T 0021-2012, Annex D.
#[unsafe(no_mangle)]
pub extern "C" fn dl_serve_message(
    table: &mut [u8],
    message: &[u8],
    clock: u64,
    values: &mut [u64],
) -> u16
    ensures { left_with result table.new values.new ≡ message_left message.now clock table.old values.old }
{
    if values.len() < MOST_VALUES {
        return BAD_ARGUMENT;
    }
    let answer = serve_message(table, message, Seconds(clock));
    put_answer(answer, values)
}
