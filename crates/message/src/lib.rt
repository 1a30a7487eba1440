// Messages of GM/T 0021-2012, Annex D (document 02, Asks 1 and 3): their bytes, read and written.
#![tactic(auto)]

mod frame;
mod items;
mod laying;
pub mod mac;
mod reading;
mod writing;

pub use frame::{Framed, frame_of, is_reply};
pub use items::{ItemPlace, Items};
pub use reading::{Heading, Reading, item, read_message};
pub use writing::write_message;
