// What a line of the program desk_lines means: the call or the message that is served on a table, and the text that is printed for it.
#![tactic(auto)]

mod calls;
mod fields;
mod messages;
mod names;
mod printing;
mod reading;

ghost use Rattle.std.specs.Prelude.{◌≡◌, ◌≤◌, length};
ghost use Rattle.window.specs.PasswordAt.{password_at};
ghost use Rattle.desk.specs.Desk.{result_of};
ghost use Rattle.desk.specs.Reads.{read_after};
ghost use Rattle.call_lines.specs.Line.{reads_of, left, line_after};

use calls::call_line;
use fields::field;
use messages::message_line;
use printing::answer_text;
use text::Bytes;
use token::{Answer, Refusal};
use words::bytes::same;

const LONGEST: usize = 4096;

// What is printed for a line.
pub type Printed = Bytes<40>;

// The answer to a line.
fn line_answer(table: &mut [u8], line: &[u8]) -> Answer
    ensures { result_of result table.new ≡ read_after password_at (reads_of line.now) table.old }
{
    if LONGEST < line.len() {
        return Err(Refusal::BadArgument);
    }
    if same(field(line, 0), b"message") {
        return message_line(table, line);
    }
    call_line(table, line)
}

// Serves a line on the table, and answers what is printed, without the line feed.
pub fn serve_line(table: &mut [u8], line: &[u8]) -> Printed
    ensures table_after { left result table.new ≡ line_after password_at line.now table.old }
    ensures len_bound { length result ≤ 40 }
{
    answer_text(line_answer(table, line))
}
