// Decimal numbers without leading zeros.
ghost use Rattle.std.specs.Prelude.{◌≡◌, ◌≤◌, length};
ghost use Rattle.text.specs.Text.{digits_from, bounded, number_in};

use crate::digit::is_decimal;

// The number in the digits of s, with leading zeros or without.
fn digits(s: &[u8]) -> Option<u64>
    ensures { result ≡ bounded (digits_from 0 s.now) }
{
    let mut value: u64 = 0;
    for &b in s {
        if !is_decimal(b) {
            return None;
        }
        value = value.checked_mul(10)?.checked_add((b - 0x30) as u64)?;
    }
    Some(value)
}

// The same of at most 19 digits, which are below 2^64 whatever they are. No digit is branched on, since it could not be foreseen.
// The lower half of a digit is its value; that of another byte is at most 15, for which there is room too.
fn few_digits(s: &[u8]) -> Option<u64>
    requires { length s.now ≤ 19 }
    ensures { result ≡ bounded (digits_from 0 s.now) }
{
    let mut value: u64 = 0;
    let mut right = true;
    for &b in s {
        right = right & is_decimal(b);
        value = value * 10 + (b % 16) as u64;
    }
    if right { Some(value) } else { None }
}

// The number in s. A zero in front is right only where it stands alone.
pub fn decimal(s: &[u8]) -> Option<u64>
    ensures { result ≡ number_in s.now }
{
    match s {
        [] => None,
        [0x30, rest @ ..] => if rest.len() == 0 { Some(0) } else { None },
        _ if s.len() <= 19 => few_digits(s),
        _ => digits(s),
    }
}
