// Messages served as the desk's calls (document 02, Ask 1).
#![tactic(auto)]

mod items;
mod services;
mod serving;

pub use serving::serve_message;
