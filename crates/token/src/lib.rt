// One token by value: the requests to it, its states and the answers (document 01, Part 5).
#![tactic(auto)]

mod answers;
mod codes;
mod deciding;
mod lines;
mod states;

pub use answers::{Answer, Content, Refusal, Status, Success};
pub use codes::number_of;
pub use deciding::{Decision, Left, decide, report};
pub use lines::Request;
