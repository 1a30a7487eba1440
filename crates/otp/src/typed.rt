// A password as it is typed: its digits are looked at once, here.
ghost use Rattle.std.specs.Prelude.{◌≡◌};
ghost use Rattle.otp.specs.Typed.{typed_of};

use crate::number::number_shown;
use words::bytes::within;

// A count of decimal digits, and the number that they show.
#[derive(Clone, Copy)]
pub struct Password {
    pub digits: u8,
    pub number: u64,
}

// A password has 6 to 10 ASCII digits; bytes of another length are not read.
pub fn password_of(bytes: &[u8]) -> Option<Password>
    ensures { result ≡ typed_of bytes.now }
{
    let n = bytes.len();
    if !((6 <= n) & (n <= 10)) {
        return None;
    }
    if !within(bytes, 0x30, 0x39) {
        return None;
    }
    Some(Password {
        digits: n as u8,
        number: number_shown(bytes),
    })
}
