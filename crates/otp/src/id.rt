// The ID of T, C and Q (6.1), laid into a buffer.
ghost use Rattle.std.specs.Prelude.{◌≡◌, ◌+◌, ◌≤◌, max, length};
ghost use Rattle.words.specs.Bytes.{put};
ghost use Rattle.otp.specs.Password.{factor_bytes, id_of};

use crate::Factor;
use words::bytes::{copy, put_be};

// Puts a factor of `width` bytes at at, and answers where it ends.
fn put_factor(out: &mut [u8], at: usize, width: usize, factor: Factor) -> usize
    requires { at + width ≤ length out.old }
    ensures value { result ≡ at + length (factor_bytes width factor) }
    ensures out_after { out.new ≡ put out.old at (factor_bytes width factor) }
{
    match factor {
        None => at,
        Some(x) => {
            put_be(out, at, width, x);
            at + width
        }
    }
}

// Puts bytes at at, and answers where they end.
pub(crate) fn put_bytes(out: &mut [u8], at: usize, part: &[u8]) -> usize
    requires { at + length part.now ≤ length out.old }
    ensures value { result ≡ at + length part.now }
    ensures out_after { out.new ≡ put out.old at part.now }
{
    let end = at + part.len();
    copy(part, &mut out[at..end]);
    end
}

// Puts the ID at at, and answers where it ends once it is filled to 16 bytes.
pub(crate) fn put_id(
    out: &mut [u8],
    at: usize,
    time: Factor,
    count: Factor,
    challenge: &[u8],
) -> usize
    requires challenge_len_bound { length challenge.now ≤ 32 }
    requires at_in_bounds { at + 44 ≤ length out.old }
    ensures value { result ≡ at + max 16 (length (id_of time count challenge.now)) }
    ensures out_after { out.new ≡ put out.old at (id_of time count challenge.now) }
{
    let after_time = put_factor(out, at, 8, time);
    let after_count = put_factor(out, after_time, 4, count);
    let end = put_bytes(out, after_count, challenge);
    end.max(at + 16)
}
