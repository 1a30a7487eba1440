// What is asked of a token's window.
use crate::Size;
use otp::typed::Password;

// One password, one with a challenge, which is lent beside it, or two in a row, which have none.
#[derive(Clone, Copy)]
pub enum Asked {
    One(Size, Password),
    Challenged(Size, Password),
    Two(Size, Password, Password),
}
