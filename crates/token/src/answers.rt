// What a call says (document 01, Part 5 and "What a turned-down call says"). `number_of` of specs/Codes.antt gives each case its code.
ghost use Rattle.std.specs.Prelude.{◌≡◌};
ghost use Rattle.token.specs.Answers.{missing};

use row::Unserved;
use window::{Offset, Seconds, Step};

// What a query tells of a token.
#[derive(Clone, Copy)]
pub struct Status {
    pub state: u8,
    pub errors: u8,
    pub last_use: Seconds,
}

// What a success carries.
#[derive(Clone, Copy)]
pub enum Content {
    Plain,
    Checked(Step, Offset),
    Queried(Status),
}

// Each refusal has the number that document 01 gives to it, and document 02 to those that it adds.
#[derive(Clone, Copy, Debug, PartialEq, Eq)]
pub enum Refusal {
    BadMessage = 0x9001,
    BadMac = 0x9002,
    NoService = 0x9004,
    BadArgument = 0x9005,
    AlreadyLoaded = 0x8411,
    TableFull = 0x8410,
    Unknown = 0x8402,
    Damaged = 0x8403,
    Ready = 0x8409,
    Locked = 0x8404,
    Suspended = 0x8405,
    Inactive = 0x8406,
    Void = 0x8407,
    Expired = 0x8408,
    NextAtLogin = 0x8001,
    NextWanted = 0x8101,
    UsedAtLogin = 0x8004,
    Used = 0x8104,
    WrongAtLogin = 0x8002,
    Wrong = 0x8102,
    WrongAtSync = 0x8105,
}

// A success's number and what it carries.
#[derive(Clone, Copy)]
pub struct Success {
    pub number: u16,
    pub content: Content,
}

// What a call says.
pub type Answer = Result<Success, Refusal>;

// What is said where there is no row to serve.
impl From<Unserved> for Refusal {
    ghost from_gives = { λ unserved refusal. refusal ≡ missing unserved };

    fn from(unserved: Unserved) -> Refusal {
        match unserved {
            Unserved::Unknown => Refusal::Unknown,
            Unserved::Damaged => Refusal::Damaged,
        }
    }
}
