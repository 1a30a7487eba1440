// Whether the arguments of the password are in range, tested for callers that have no row.
ghost use Rattle.std.specs.Prelude.{◌≡◌};
ghost use Rattle.window.specs.PasswordAt.{in_range};

use crate::Scheme;
use otp::arguments_ok;

// Every clock reading lies below.
pub const CLOCKS: u64 = 0x100_0000_0000;

// The algorithm, the key, the challenge and the count of digits (document 01, Part 2).
pub fn in_range(scheme: Scheme, key: &[u8], challenge: &[u8]) -> bool
    ensures { result ≡ in_range scheme key.now challenge.now }
{
    arguments_ok(
        scheme.algorithm,
        key,
        Some(0),
        None,
        challenge,
        scheme.digits as usize,
    )
}
