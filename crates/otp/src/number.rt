// Passwords as numbers: what digits show, and how many numbers they have.
ghost use Rattle.std.specs.Prelude.{◌≡◌, ◌^◌, ◌≤◌, length};
ghost use Rattle.otp.specs.Numbers.{number_from};

// The number that ASCII digits show, for callers that have looked at each.
pub(crate) fn number_shown(digits: &[u8]) -> u64
    requires { length digits.now ≤ 10 }
    ensures { result ≡ number_from 0 digits.now }
{
    let mut x: u64 = 0;
    for b in digits {
        x = x * 10 + b.saturating_sub(b'0') as u64;
    }
    x
}

// Ten to the n: a password of n digits is what its cut leaves of it.
pub fn ten_to(n: usize) -> u64
    requires { n ≤ 10 }
    ensures { result ≡ 10 ^ n }
{
    10u64.pow(n as u32)
}
