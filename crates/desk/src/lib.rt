// The desk over a lent table of tokens (document 01, Part 5): eleven calls, each with the answer and every byte of the table by an equation.
#![tactic(auto)]

mod arguments;
mod calls;
mod loading;
mod serving;

pub use arguments::MOST_ROWS;
pub use calls::{activate, challenge_login, lock, login, resume, suspend, sync, unlock, void};
pub use loading::load;
pub use serving::{query, serve};
use window::{Scheme, Seconds};

// What a load sets of a token, besides its key.
#[derive(Clone, Copy)]
pub struct Particulars {
    pub serial: u64,
    pub scheme: Scheme,
    pub period: u8,
    pub limit: u8,
    pub wait: u32,
    pub expiry: Seconds,
}
