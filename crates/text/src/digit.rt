// Digits, decimal and hexadecimal.
ghost use Rattle.std.specs.Prelude.{◌≡◌, ◌<◌, if◌then◌else◌, nat_lt};
ghost use Rattle.text.specs.Text.{digit_value, hex_digit};

fn pick(first: bool, a: u8, b: u8) -> u8
    ensures { result ≡ (if first then a else b) }
{
    if first { a } else { b }
}

// Whether b is a decimal digit, of the value b - 0x30.
pub(crate) fn is_decimal(b: u8) -> bool
    ensures { result ≡ nat_lt (digit_value b) 10 }
{
    (0x30 <= b) & (b <= 0x39)
}

// The value of a hexadecimal digit of either case, of which a decimal one is below 10; 16 for another byte.
// All three values are made and one is picked: a branch on the digits of a key could not be foreseen.
pub(crate) fn digit(b: u8) -> u8
    ensures { result ≡ digit_value b }
{
    let lower = pick((0x61 <= b) & (b <= 0x66), b.saturating_sub(0x57), 16);
    let letter = pick((0x41 <= b) & (b <= 0x46), b.saturating_sub(0x37), lower);
    pick((0x30 <= b) & (b <= 0x39), b.saturating_sub(0x30), letter)
}

// A digit's figure or small letter.
pub fn hex_digit(x: u16) -> u8
    requires { x < 16 }
    ensures { result ≡ hex_digit x }
{
    if x < 10 {
        return x as u8 + 0x30;
    }
    x as u8 + 0x57
}
