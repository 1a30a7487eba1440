// The text of a line (document 01, "Line program"): its fields, decimal numbers and hexadecimal bytes.
#![tactic(auto)]

mod bytes;
mod digit;
mod fields;
mod hexadecimal;
mod numbers;
mod scan;

pub use bytes::Bytes;
pub use digit::hex_digit;
pub use fields::first_field;
pub use hexadecimal::{hex, hex_into};
pub use numbers::decimal;
pub use scan::find;
