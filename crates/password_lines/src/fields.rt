// The six fields of a line, read and answered.
ghost use Rattle.std.specs.Prelude.{◌≡◌, ◌+◌, unwrap_or};
ghost use Rattle.text.specs.Text.{decimal_of};
ghost use Rattle.password_lines.specs.Line.{refusal, factor_field, password_text, fields_answer};
ghost use Rattle.password_lines.specs.Fields.{byte_of};

use crate::Printed;
use otp::{Factor, password};
use text::{Bytes, decimal, hex};

// T or C: absent where the field is empty, else a number up to `most`.
fn factor_field(field: &[u8], most: u64) -> Option<Factor>
    ensures { result ≡ factor_field (most + 1) field.now }
{
    if field.len() == 0 {
        return Some(None);
    }
    let x = decimal(field)?;
    if x <= most { Some(Some(x)) } else { None }
}

// A small number. Most have one digit.
#[inline(always)]
fn small_field(field: &[u8]) -> Option<u8>
    ensures { result ≡ byte_of (decimal_of field.now) }
{
    if field.len() == 1 {
        let b = field[0];
        return if (0x30 <= b) & (b <= 0x39) {
            Some(b - 0x30)
        } else {
            None
        };
    }
    let x = decimal(field)?;
    if x < 256 { Some(x as u8) } else { None }
}

// The password of read arguments; none where they are bad.
fn password_text(
    algorithm: u8,
    key: &[u8],
    time: Factor,
    count: Factor,
    challenge: &[u8],
    digits: u8,
) -> Option<Printed>
    ensures { unwrap_or result refusal ≡ password_text algorithm key.now time count challenge.now digits }
{
    let mut out = [0u8; 10];
    let n = digits as usize;
    match password(algorithm, key, time, count, challenge, n, &mut out) {
        Ok(()) => Some(Bytes::new(out, n)),
        Err(_) => None,
    }
}

pub(crate) fn fields_answer(
    key: &[u8],
    time: &[u8],
    count: &[u8],
    challenge: &[u8],
    algorithm: &[u8],
    digits: &[u8],
) -> Option<Printed>
    ensures { unwrap_or result refusal ≡ fields_answer key.now time.now count.now challenge.now algorithm.now digits.now }
{
    let key = hex(key)?;
    let t = factor_field(time, 0xffff_ffff_ffff_ffff)?;
    let c = factor_field(count, 0xffff_ffff)?;
    let a = small_field(algorithm)?;
    let d = small_field(digits)?;
    password_text(a, key.as_slice(), t, c, challenge, d)
}
