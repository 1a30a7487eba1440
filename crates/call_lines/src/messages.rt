// A line of a message (document 02, Ask 1).
ghost use Rattle.std.specs.Prelude.{◌≡◌, ◌≤◌, length};
ghost use Rattle.text.specs.Text.{fields_of};
ghost use Rattle.window.specs.PasswordAt.{password_at};
ghost use Rattle.desk.specs.Desk.{result_of};
ghost use Rattle.desk.specs.Reads.{read_after};
ghost use Rattle.call_lines.specs.Line.{message_in, message_line};

use crate::fields::{field, has_fields};
use crate::reading::number_at;
use message_calls::serve_message;
use text::hex_into;
use token::{Answer, Refusal};
use window::Seconds;

// Room for the bytes of as many digits as the longest line has. The functions below ask for a line of up to 4,096 bytes for it: the digits of a longer one might not fit.
const ROOM: usize = 2048;

// Serves the message of the digits.
fn message_in(table: &mut [u8], digits: &[u8], clock: Seconds) -> Answer
    requires { length digits.now ≤ 4096 }
    ensures { result_of result table.new ≡ read_after password_at (message_in digits.now clock.0) table.old }
{
    let mut bytes = [0u8; ROOM];
    let n = hex_into(digits, &mut bytes).ok_or(Refusal::BadArgument)?;
    serve_message(table, &bytes[..n], clock)
}

// A line `message,HEX,NOW`.
pub(crate) fn message_line(table: &mut [u8], line: &[u8]) -> Answer
    requires { length line.now ≤ 4096 }
    ensures { result_of result table.new ≡ read_after password_at (message_line (fields_of line.now)) table.old }
{
    if !has_fields(line, 3) {
        return Err(Refusal::BadArgument);
    }
    let clock = number_at(line, 2).ok_or(Refusal::BadArgument)?;
    message_in(table, field(line, 1), Seconds(clock))
}
