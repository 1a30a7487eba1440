// The cuts of consecutive steps under one key: how many are made side by side is decided here, and none is made beyond those asked for.
ghost use Rattle.std.specs.Prelude.{◌≡◌, ◌+◌, ◌^◌, ◌<◌, ◌≤◌, length};
ghost use Rattle.otp.specs.Password.{algorithm_sm3};
ghost use Rattle.otp.specs.Chain.{prepared};
ghost use Rattle.otp.specs.StepCuts.{cut_by, cuts_from};
ghost use Rattle.otp.specs.CutLists.{step_cut, Ready, Put};

use crate::SM3;
use crate::cuts::{cuts, first_cuts};
use crate::prepared::{ciphered, count_at, hashed, time_at};
use crate::steps::hashed_cuts;
use sm4::round_keys;
use words::bytes::copy;

// How a token's steps are cut: by which algorithm, a number since `step_cut` answers for each, and whether a step is a time T or a count C.
#[derive(Clone, Copy)]
pub struct Maker {
    pub algorithm: u8,
    pub timed: bool,
}

// The words that a key is made ready to: SM4's round keys; SM3 needs none.
pub const READY: usize = 32;

// Each function asks for the bounds of the key, the challenge and the step that it uses; their sets differ, and a struct of all would be taken apart again.

// By SM3: four side by side, three or two, or one; with a challenge one.
fn put_hashed(maker: Maker, key: &[u8], challenge: &[u8], s: u64, out: &mut [u32]) -> usize
    requires algorithm_value { maker.algorithm ≡ algorithm_sm3 }
    requires key_len_bound { length key.now ≤ 32 }
    requires challenge_len_bound { length challenge.now ≤ 32 }
    requires s_bound { s < 2 ^ 63 }
    requires out_nonzero { 0 < length out.old }
    ensures result_nonzero { 0 < result }
    ensures put { Put (step_cut maker.algorithm key.now challenge.now maker.timed) result s out.old out.new }
{
    let timed = maker.timed;
    if (challenge.len() == 0) & (2 <= out.len()) {
        let n = out.len().min(4);
        let cuts = hashed_cuts(key, timed, s, n);
        copy(&cuts[0..n], out);
        return n;
    }
    out[0] = hashed(key, time_at(timed, s), count_at(timed, s), challenge);
    1
}

// Puts the cuts of N steps at the front of out, under round keys.
fn put_side_by_side<const N: usize>(keys: &[u32], timed: bool, s: u64, out: &mut [u32]) -> usize
    requires keys_len { length keys.now ≡ 32 }
    requires n_bound { N ≤ 5 }
    requires s_bound { s < 2 ^ 63 }
    requires out_room { N ≤ length out.old }
    ensures value { result ≡ N }
    ensures put { Put (cut_by keys.now timed) result s out.old out.new }
{
    copy(&cuts::<N>(keys, timed, s), out);
    N
}

// By SM4 without a challenge: five side by side, three, two, or one.
fn put_keyed(keys: &[u32], timed: bool, s: u64, out: &mut [u32]) -> usize
    requires keys_len { length keys.now ≡ 32 }
    requires s_bound { s < 2 ^ 63 }
    requires out_nonzero { 0 < length out.old }
    ensures result_nonzero { 0 < result }
    ensures upper_bound { result ≤ 5 }
    ensures put { Put (cut_by keys.now timed) result s out.old out.new }
{
    match out.len() {
        1 => put_side_by_side::<1>(keys, timed, s, out),
        2 => put_side_by_side::<2>(keys, timed, s, out),
        3 | 4 => put_side_by_side::<3>(keys, timed, s, out),
        _ => put_side_by_side::<5>(keys, timed, s, out),
    }
}

// Puts the cuts of some steps from s on at the front of out, and answers how many: by SM4 with a challenge one.
fn put_some(
    maker: Maker,
    key: &[u8],
    ready: &[u32],
    challenge: &[u8],
    s: u64,
    out: &mut [u32],
) -> usize
    requires key_len_bound { length key.now ≤ 32 }
    requires ready { Ready maker.algorithm key.now ready.now }
    requires challenge_len_bound { length challenge.now ≤ 32 }
    requires s_bound { s < 2 ^ 63 }
    requires out_nonzero { 0 < length out.old }
    ensures result_nonzero { 0 < result }
    ensures put { Put (step_cut maker.algorithm key.now challenge.now maker.timed) result s out.old out.new }
{
    if maker.algorithm == SM3 {
        return put_hashed(maker, key, challenge, s, out);
    }
    let timed = maker.timed;
    if 0 < challenge.len() {
        out[0] = ciphered(key, ready, time_at(timed, s), count_at(timed, s), challenge);
        return 1;
    }
    put_keyed(ready, timed, s, out)
}

// The same under a fresh key, which is made ready on the way.
fn put_fresh<const N: usize>(
    key: &[u8],
    timed: bool,
    s: u64,
    ready: &mut [u32],
    out: &mut [u32],
) -> usize
    requires in_bounds { 16 ≤ length key.now }
    requires n_bound { N ≤ 5 }
    requires s_bound { s < 2 ^ 63 }
    requires ready_len { length ready.old ≡ 32 }
    requires out_room { N ≤ length out.old }
    ensures value { result ≡ N }
    ensures put { Put (cut_by (prepared key.now) timed) result s out.old out.new }
    ensures ready { ready.new ≡ prepared key.now }
{
    copy(&first_cuts::<N>(key, timed, s, ready), out);
    N
}

// Makes a fresh key ready, and puts the cuts that are made beside it: by SM4 without a challenge three, or one. Answers how many.
fn put_first(
    maker: Maker,
    key: &[u8],
    challenge: &[u8],
    s: u64,
    ready: &mut [u32],
    out: &mut [u32],
) -> usize
    requires in_bounds { 16 ≤ length key.now }
    requires s_bound { s < 2 ^ 63 }
    requires ready_len { length ready.old ≡ 32 }
    requires out_nonzero { 0 < length out.old }
    ensures put { Put (step_cut maker.algorithm key.now challenge.now maker.timed) result s out.old out.new }
    ensures ready { Ready maker.algorithm key.now ready.new }
{
    if maker.algorithm == SM3 {
        return 0;
    }
    if 0 < challenge.len() {
        copy(&round_keys(&key[0..16]).unwrap(), ready);
        return 0;
    }
    if out.len() < 3 {
        return put_fresh::<1>(key, maker.timed, s, ready, out);
    }
    put_fresh::<3>(key, maker.timed, s, ready, out)
}

// Puts the cuts of the steps from s on, one into each place of out, under a key made ready.
pub fn put_cuts(maker: Maker, key: &[u8], ready: &[u32], challenge: &[u8], s: u64, out: &mut [u32])
    requires key_len_bound { length key.now ≤ 32 }
    requires ready { Ready maker.algorithm key.now ready.now }
    requires challenge_len_bound { length challenge.now ≤ 32 }
    requires out_bound { s + length out.old < 2 ^ 63 }
    ensures { out.new ≡ cuts_from (step_cut maker.algorithm key.now challenge.now maker.timed) (length out.old) s }
{
    // A `while`, since each turn puts another number of cuts.
    let mut i = 0;
    while i < out.len() {
        i += put_some(maker, key, ready, challenge, s + i as u64, &mut out[i..]);
    }
}

// The same under a fresh key, which is made ready on the way for the cuts that follow.
pub fn put_first_cuts(
    maker: Maker,
    key: &[u8],
    challenge: &[u8],
    s: u64,
    ready: &mut [u32],
    out: &mut [u32],
)
    requires in_bounds { 16 ≤ length key.now }
    requires key_len_bound { length key.now ≤ 32 }
    requires challenge_len_bound { length challenge.now ≤ 32 }
    requires out_bound { s + length out.old < 2 ^ 63 }
    requires ready_len { length ready.old ≡ 32 }
    ensures out_after { out.new ≡ cuts_from (step_cut maker.algorithm key.now challenge.now maker.timed) (length out.old) s }
    ensures ready { 0 < length out.old → Ready maker.algorithm key.now ready.new }
{
    if out.len() == 0 {
        return;
    }
    let made = put_first(maker, key, challenge, s, ready, out);
    put_cuts(
        maker,
        key,
        ready,
        challenge,
        s + made as u64,
        &mut out[made..],
    );
}
