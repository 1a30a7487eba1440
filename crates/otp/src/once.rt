// The cut of the algorithm's output with a key that is used once.
ghost use Rattle.std.specs.Prelude.{◌≡◌, ◌≤◌, length};
ghost use Rattle.otp.specs.Password.{id_of, filled, chained, cut, keyed};

use crate::chain::chain;
use crate::cut::cut_words;
use crate::id::put_id;
use crate::prepared::hashed;
use crate::{Factor, SM3};
use sm4::first_block;

// The SM4 way (6.2.3), cut: the first block makes the round keys as it uses them.
fn ciphered_once(key: &[u8], time: Factor, count: Factor, challenge: &[u8]) -> u32
    requires in_bounds { 16 ≤ length key.now }
    requires challenge_len_bound { length challenge.now ≤ 32 }
    ensures { result ≡ cut (chained key.now (filled (id_of time count challenge.now))) }
{
    let mut buffer = [0u8; 48];
    let end = put_id(&mut buffer, 0, time, count, challenge);
    let first = first_block(&key[0..16], &buffer[0..16]).unwrap();
    let keys = first.keys;
    let output = first.output;
    cut_words(chain(&keys, &buffer, output, (end + 15) / 16))
}

pub(crate) fn truncated_once(
    algorithm: u8,
    key: &[u8],
    time: Factor,
    count: Factor,
    challenge: &[u8],
) -> u32
    requires in_bounds { 16 ≤ length key.now }
    requires key_len_bound { length key.now ≤ 32 }
    requires challenge_len_bound { length challenge.now ≤ 32 }
    ensures { result ≡ cut (keyed algorithm key.now (filled (id_of time count challenge.now))) }
{
    if algorithm == SM3 {
        return hashed(key, time, count, challenge);
    }
    ciphered_once(key, time, count, challenge)
}
