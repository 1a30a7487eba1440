// Bytes and words: what the hash, the cipher and the token's row share.
#![tactic(auto)]

pub mod bytes;
pub mod codes;
pub mod word;
