// The two ways to a cut (6.2.2, 6.2.3), with a key made ready once for many.
ghost use Rattle.std.specs.Prelude.{◌≡◌, ◌≤◌, ◌++◌, length};
ghost use Rattle.sm3.specs.Sm3.{sm3_of};
ghost use Rattle.otp.specs.Password.{id_of, filled, chained, cut};
ghost use Rattle.otp.specs.Chain.{prepared};
ghost use Rattle.otp.specs.StepCuts.{time_at, count_at};

use crate::Factor;
use crate::chain::chain;
use crate::cut::cut_words;
use crate::id::{put_bytes, put_id};
use sm3::sums::hash_sum;
use sm4::encrypt_words;
use sm4::round::words_of;

// A time token's step is its time factor T, an event token's its count C.
pub(crate) fn time_at(timed: bool, s: u64) -> Factor
    ensures { result ≡ time_at timed s }
{
    timed.then_some(s)
}

pub(crate) fn count_at(timed: bool, s: u64) -> Factor
    ensures { result ≡ count_at timed s }
{
    (!timed).then_some(s)
}

// The SM3 way (6.2.2), cut.
pub(crate) fn hashed(key: &[u8], time: Factor, count: Factor, challenge: &[u8]) -> u32
    requires key_len_bound { length key.now ≤ 32 }
    requires challenge_len_bound { length challenge.now ≤ 32 }
    ensures { result ≡ cut (sm3_of (key.now ++ filled (id_of time count challenge.now))) }
{
    let mut buffer = [0u8; 128];
    let at = put_bytes(&mut buffer, 0, key);
    let end = put_id(&mut buffer, at, time, count, challenge);
    hash_sum(&mut buffer, end)
}

// The SM4 way (6.2.3), cut.
pub(crate) fn ciphered(
    key: &[u8],
    keys: &[u32],
    time: Factor,
    count: Factor,
    challenge: &[u8],
) -> u32
    requires keys_value { keys.now ≡ prepared key.now }
    requires challenge_len_bound { length challenge.now ≤ 32 }
    ensures { result ≡ cut (chained key.now (filled (id_of time count challenge.now))) }
{
    let mut buffer = [0u8; 48];
    let end = put_id(&mut buffer, 0, time, count, challenge);
    let first = encrypt_words(keys, words_of(&buffer[0..16])).unwrap();
    cut_words(chain(keys, &buffer, first, (end + 15) / 16))
}
