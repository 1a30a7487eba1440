// The text of an answer.
ghost use Rattle.std.specs.Prelude.{◌≡◌, ◌∷◌, ◌++◌, ◌+◌, ◌≤◌, length};
ghost use Rattle.text.specs.Text.{comma};
ghost use Rattle.token.specs.Codes.{signed_of, values_of};
ghost use Rattle.call_lines.specs.Line.{code_text, decimal_text, signed_text, values_text, answer_text};

use crate::Printed;
use text::{Bytes, hex_digit};
use token::{Answer, Content, number_of};
use window::{FARTHEST, Offset};

// The code in four hexadecimal digits.
fn code_text(code: u16) -> Printed
    ensures { result ≡ code_text code }
{
    let nothing = Bytes::new([0; 40], 0);
    nothing.with(&[
        hex_digit(code / 0x1000),
        hex_digit(code / 0x100 % 16),
        hex_digit(code / 0x10 % 16),
        hex_digit(code % 16),
    ])
}

// The text with x behind it, whose digits are found from the last to the first.
fn put_decimal(text: Printed, x: u64) -> Printed
    requires { length text + length (decimal_text x) ≤ 40 }
    ensures { result ≡ text ++ decimal_text x }
{
    let mut digits = [0u8; 20];
    let mut start = 19;
    let mut rest = x;
    // A `while`, since it ends at the first digit: to find all twenty would cost their divisions.
    while 10 <= rest {
        digits[start] = (rest % 10) as u8 + b'0';
        rest /= 10;
        start -= 1;
    }
    digits[start] = rest as u8 + b'0';
    text.with(&digits[start..])
}

// The text with a comma and x behind it.
fn put_number(text: Printed, x: u64) -> Printed
    requires { length text + 1 + length (decimal_text x) ≤ 40 }
    ensures { result ≡ text ++ (comma ∷ decimal_text x) }
{
    put_decimal(text.with(b","), x)
}

// The text with a comma and the offset behind it, which has up to five digits.
fn put_offset(text: Printed, offset: Offset) -> Printed
    requires { length text + 7 ≤ 40 }
    ensures { result ≡ text ++ (comma ∷ signed_text (signed_of offset)) }
{
    let held = offset.0 as u64;
    if FARTHEST <= held {
        return put_number(text, held - FARTHEST);
    }
    put_decimal(text.with(b",-"), FARTHEST - held)
}

// The code with what a success carries behind it.
fn put_content(code: Printed, content: Content) -> Printed
    requires { length code ≡ 4 }
    ensures { result ≡ code ++ values_text (values_of content) }
{
    match content {
        Content::Plain => code,
        Content::Checked(step, offset) => put_offset(put_number(code, step.0), offset),
        Content::Queried(status) => {
            let state = put_number(code, status.state as u64);
            let errors = put_number(state, status.errors as u64);
            put_number(errors, status.last_use.0)
        }
    }
}

// What is printed of an answer.
pub(crate) fn answer_text(answer: Answer) -> Printed
    ensures { result ≡ answer_text answer }
{
    let code = code_text(number_of(answer));
    match answer {
        Ok(success) => put_content(code, success.content),
        Err(_) => code,
    }
}
