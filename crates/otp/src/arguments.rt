// Whether the arguments are in range (document 01, Part 2).
ghost use Rattle.std.specs.Prelude.{◌≡◌};
ghost use Rattle.otp.specs.Password.{is_below, challenge_ok, arguments_ok};

use crate::{Factor, SM3, SM4};
use words::bytes::within;

fn is_below(limit: u64, factor: Factor) -> bool
    ensures { result ≡ is_below limit factor }
{
    match factor {
        None => true,
        Some(x) => x < limit,
    }
}

// A challenge has 4 to 32 bytes, each 21 to 7e hexadecimal; an empty one is none.
pub fn challenge_ok(challenge: &[u8]) -> bool
    ensures { result ≡ challenge_ok challenge.now }
{
    let n = challenge.len();
    (n == 0) | (((4 <= n) & (n <= 32)) & within(challenge, 0x21, 0x7e))
}

pub fn arguments_ok(
    algorithm: u8,
    key: &[u8],
    time: Factor,
    count: Factor,
    challenge: &[u8],
    digits: usize,
) -> bool
    ensures { result ≡ arguments_ok algorithm key.now time count challenge.now digits }
{
    let n = key.len();
    ((algorithm == SM3) | (algorithm == SM4))
        & ((16 <= n) & (n <= 32))
        & (time.is_some() | count.is_some())
        & is_below(0x1_0000_0000, count)
        & challenge_ok(challenge)
        & ((6 <= digits) & (digits <= 10))
}
