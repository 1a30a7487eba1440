// The hash of two parts that lie apart, for the proved layers above: they require what those give. Only the bytes of one block or
// two are put together, so that no buffer grows with the second part.
ghost use Rattle.std.specs.Prelude.{◌≡◌, ◌+◌, ◌^◌, ◌<◌, ◌≤◌, ◌++◌, length, drop};
ghost use Rattle.words.specs.Bytes.{be_bytes};
ghost use Rattle.sm3.specs.Sm3.{digest, sm3_of};

use crate::compress::iterate;
use crate::padding::pad;
use crate::{Registers, digest, last_value, start};
use words::bytes::copy;

// Puts head and then body at the front of out.
fn join(head: &[u8], body: &[u8], out: &mut [u8])
    requires { length head.now + length body.now ≤ length out.old }
    ensures { out.new ≡ (head.now ++ body.now) ++ drop (length head.now + length body.now) out.old }
{
    copy(head, out);
    copy(body, &mut out[head.len()..]);
}

// The value after the last block of head and then body. Parts for which two blocks have room are padded where they are put together.
fn short_value(head: &[u8], body: &[u8]) -> Registers
    requires { length head.now + length body.now < 120 }
    ensures { digest result ≡ sm3_of (head.now ++ body.now) }
{
    let mut all = [0u8; 128];
    join(head, body, &mut all);
    let blocks = pad(&mut all, head.len() + body.len());
    iterate(start(), &all, blocks).value
}

// Of others the first block is put together, and the rest of body is hashed where it lies.
fn long_value(head: &[u8], body: &[u8]) -> Registers
    requires head_len_bound { length head.now ≤ 64 }
    requires in_bounds { 64 ≤ length head.now + length body.now }
    requires body_len_bound { length head.now + length body.now < 2 ^ 32 }
    ensures { digest result ≡ sm3_of (head.now ++ body.now) }
{
    let taken = 64 - head.len();
    let mut first = [0u8; 64];
    join(head, &body[0..taken], &mut first);
    let value = iterate(start(), &first, 1).value;
    last_value(value, &body[taken..], head.len() + body.len())
}

fn joined_value(head: &[u8], body: &[u8]) -> Registers
    requires head_len_bound { length head.now ≤ 64 }
    requires len_bound { length head.now + length body.now < 2 ^ 32 }
    ensures { digest result ≡ sm3_of (head.now ++ body.now) }
{
    if head.len() + body.len() < 120 {
        return short_value(head, body);
    }
    long_value(head, body)
}

// The digest of head and then body.
pub fn joined_digest(head: &[u8], body: &[u8]) -> [u8; 32]
    requires head_len_bound { length head.now ≤ 64 }
    requires len_bound { length head.now + length body.now < 2 ^ 32 }
    ensures { result ≡ sm3_of (head.now ++ body.now) }
{
    digest(joined_value(head, body))
}

// The last four bytes of the digest of head and then body, as a word: stored in bytes and read at once, they would be waited for.
pub fn last_word(head: &[u8], body: &[u8]) -> u32
    requires head_len_bound { length head.now ≤ 64 }
    requires body_len_bound { length head.now + length body.now < 2 ^ 32 }
    ensures { be_bytes 4 result ≡ drop 28 (sm3_of (head.now ++ body.now)) }
{
    joined_value(head, body).h
}
