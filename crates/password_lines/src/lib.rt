// What a line of the password's line program means (document 01, "Line program").
#![tactic(auto)]

mod fields;

ghost use Rattle.std.specs.Prelude.{◌≡◌, unwrap_or};
ghost use Rattle.password_lines.specs.Line.{refusal, line_answer};

use fields::fields_answer;
use text::{Bytes, first_field};

// What is printed for a line: a password has up to ten digits.
pub type Printed = Bytes<10>;

// The text 9005.
fn refused() -> Printed
    ensures { result ≡ refusal }
{
    Bytes::new([0x39, 0x30, 0x30, 0x35, 0, 0, 0, 0, 0, 0], 4)
}

// The password of a line of six fields, if it has one.
fn password_of(line: &[u8]) -> Option<Printed>
    ensures { unwrap_or result refusal ≡ line_answer line.now }
{
    let (key, rest) = first_field(line);
    let (time, rest) = first_field(rest?);
    let (count, rest) = first_field(rest?);
    let (challenge, rest) = first_field(rest?);
    let (algorithm, rest) = first_field(rest?);
    let (digits, rest) = first_field(rest?);
    match rest {
        None => fields_answer(key, time, count, challenge, algorithm, digits),
        Some(_) => None,
    }
}

// The password of a line `key,T,C,Q,algorithm,digits`, or 9005.
pub fn answer(line: &[u8]) -> Printed
    ensures { result ≡ line_answer line.now }
{
    match password_of(line) {
        Some(password) => password,
        None => refused(),
    }
}
