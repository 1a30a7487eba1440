// The block cipher SM4 (GB/T 32907): round keys from a key, and the encryption of a block. The modules that are public serve the crate lanes.
#![tactic(auto)]

mod chaining;
mod encryption;
pub mod parameters;
pub mod round;
pub mod schedule;
pub mod sides;

pub use chaining::{First, encrypt_words, first_block};
pub use encryption::encrypt;
pub use round::Quad;
pub use schedule::round_keys;
pub use sides::sm4;
