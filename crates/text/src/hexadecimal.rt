// Bytes in hexadecimal, two digits a byte.
ghost use Rattle.std.specs.Prelude.{◌≡◌, ◌-◌, ◌/◌, ◌≤◌, ◌++◌, map, length, drop, replicate};
ghost use Rattle.text.specs.Text.{digit_value, decoded_of, hex_left, hex_into};
ghost use Rattle.text.specs.Steps.{all_hex, pairs_of};

use crate::Bytes;
use crate::digit::digit;
use words::bytes::copy;

// The digits of s with zeros behind them. Loops over a count that the compiler knows take sixteen digits at a time.
fn padded(s: &[u8]) -> [u8; 64]
    requires { length s.now ≤ 64 }
    ensures { result ≡ s.now ++ replicate (64 - length s.now) 0x30 }
{
    let mut digits = [0x30u8; 64];
    copy(s, &mut digits);
    digits
}

// The value of each digit. A `for`, since the contract was not proved of `digits.map(digit)`.
fn values_of(digits: [u8; 64]) -> [u8; 64]
    ensures { result ≡ map digit_value digits }
{
    let mut values = [0u8; 64];
    for i in 0..64 {
        values[i] = digit(digits[i]);
    }
    values
}

// Whether every value is that of a hexadecimal digit.
fn all_hex(values: [u8; 64]) -> bool
    ensures { result ≡ all_hex values }
{
    let mut right = true;
    for value in values {
        right = right & (value < 16);
    }
    right
}

// The bytes of the pairs of values, of which only the lower halves are taken.
fn pairs_of(values: [u8; 64]) -> [u8; 32]
    ensures { result ≡ pairs_of values }
{
    let mut bytes = [0u8; 32];
    for i in 0..32 {
        bytes[i] = values[2 * i] % 16 * 16 + values[2 * i + 1] % 16;
    }
    bytes
}

// The bytes of s, up to 32: no key has more. Not by hex_into, whose loops over a count that is not known take twice the time (100 ns, and 45 here).
pub fn hex(s: &[u8]) -> Option<Bytes<32>>
    ensures { result ≡ decoded_of s.now }
{
    if s.len() % 2 != 0 {
        return None;
    }
    if 64 < s.len() {
        return None;
    }
    let values = values_of(padded(s));
    if !all_hex(values) {
        return None;
    }
    Some(Bytes::new(pairs_of(values), s.len() / 2))
}

// ---- any count of bytes

// Whether every byte of s is a hexadecimal digit.
fn all_digits(s: &[u8]) -> bool
    ensures { result ≡ all_hex (map digit_value s.now) }
{
    let mut right = true;
    for &b in s {
        right = right & (digit(b) < 16);
    }
    right
}

// Puts the bytes of the pairs of digits at the front of out.
fn put_pairs(s: &[u8], out: &mut [u8])
    requires { length s.now / 2 ≤ length out.old }
    ensures { out.new ≡ pairs_of (map digit_value s.now) ++ drop (length s.now / 2) out.old }
{
    for i in 0..s.len() / 2 {
        out[i] = digit(s[2 * i]) % 16 * 16 + digit(s[2 * i + 1]) % 16;
    }
}

// Puts the bytes of s at the front of out, and answers how many they are. Where the digits are wrong, or their bytes more than out has, out stays as it is.
pub fn hex_into(s: &[u8], out: &mut [u8]) -> Option<usize>
    ensures { hex_left result out.new ≡ hex_into s.now out.old }
{
    let n = s.len() / 2;
    if !((s.len() % 2 == 0) & (n <= out.len()) & all_digits(s)) {
        return None;
    }
    put_pairs(s, out);
    Some(n)
}
