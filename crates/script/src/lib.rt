// The lines of a script, one after another (docs/DESK-LINES.md): the table that the first one makes, the calls, and what is printed. No input or output is done here.
#![tactic(auto)]

mod rows;
mod serving;
pub mod sizes;
pub mod state;
pub mod stream;
