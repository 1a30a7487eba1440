// The end of the padded message (5.2): what follows the message's whole blocks.
ghost use Rattle.std.specs.Prelude.{◌≡◌, ◌+◌, ◌-◌, ◌*◌, ◌/◌, ◌%◌, ◌^◌, ◌<◌, ◌++◌, length, take, drop, replicate};
ghost use Rattle.sm3.specs.Sm3.{padded};
ghost use Rattle.sm3.specs.Rounds.{last_blocks, ended};

use words::bytes::{copy, put_be};

// How many blocks follow the whole ones: two where the length has no room in one.
pub(crate) fn last_blocks(len: usize) -> usize
    ensures { result ≡ last_blocks len }
{
    if len % 64 < 56 { 1 } else { 2 }
}

// Puts the last blocks into a buffer of zeros, which has room for two. Of a message of len bytes tail follows the whole blocks.
pub(crate) fn put_tail(tail: &[u8], len: usize, blocks: usize, out: &mut [u8; 128])
    requires len_bound { len < 2 ^ 32 }
    requires tail_len { length tail.now ≡ len % 64 }
    requires blocks_value { blocks ≡ last_blocks len }
    requires out_value { out.old ≡ replicate 128 0 }
    ensures { out.new ≡ ended tail.now len ++ replicate (128 - 64 * blocks) 0 }
{
    copy(tail, out);
    out[tail.len()] = 0x80;
    put_be(out, 64 * blocks - 8, 8, 8 * len as u64);
}

// Pads the message in the first len bytes of m, where it lies, and answers how many blocks it has then. Behind it m has zeros, and
// the length has two bytes.
pub fn pad(m: &mut [u8; 128], len: usize) -> usize
    requires len_bound { len < 120 }
    requires m_value { drop len m.old ≡ replicate (128 - len) 0 }
    ensures value { result ≡ len / 64 + last_blocks len }
    ensures m_after { m.new ≡ padded (take len m.old) ++ replicate (128 - 64 * result) 0 }
{
    let blocks = len / 64 + last_blocks(len);
    m[len] = 0x80;
    put_be(m, 64 * blocks - 2, 2, 8 * len as u64);
    blocks
}
