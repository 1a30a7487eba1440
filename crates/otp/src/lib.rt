// The password of GM/T 0021-2012 (document 01, Part 2).
#![tactic(auto)]

mod arguments;
mod chain;
mod cut;
mod cuts;
mod id;
pub mod lists;
pub mod number;
mod once;
mod prepared;
mod steps;
pub mod typed;

ghost use Rattle.std.specs.Prelude.{◌≡◌, eqb, is_ok};
ghost use Rattle.words.specs.Codes.{done};
ghost use Rattle.otp.specs.Password.{password_answer};

pub use arguments::{arguments_ok, challenge_ok};
use cut::put_decimals;
use once::truncated_once;
use words::codes::BadArgument;

// The algorithms (document 01, Part 4). Numbers, since `password` and `arguments_ok` answer for each.
pub const SM3: u8 = 3;

pub const SM4: u8 = 4;

// A factor of the password, the time T or the event count C (GM/T 0021, 6.1), which may be absent.
pub type Factor = Option<u64>;

// The password of the given factors, at the front of out; of bad arguments, and of an output that is too short, none.
pub fn password(
    algorithm: u8,
    key: &[u8],
    time: Factor,
    count: Factor,
    challenge: &[u8],
    digits: usize,
    out: &mut [u8],
) -> Result<(), BadArgument>
    ensures value { is_ok result ≡ eqb (password_answer algorithm key.now time count challenge.now digits out.old).code done }
    ensures out_after { out.new ≡ (password_answer algorithm key.now time count challenge.now digits out.old).out }
{
    if !arguments_ok(algorithm, key, time, count, challenge, digits) {
        return Err(BadArgument);
    }
    if out.len() < digits {
        return Err(BadArgument);
    }
    let sum = truncated_once(algorithm, key, time, count, challenge);
    put_decimals(sum, digits, out);
    Ok(())
}
