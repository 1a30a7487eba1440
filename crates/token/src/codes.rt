// The numbers of the answers.
ghost use Rattle.std.specs.Prelude.{◌≡◌};
ghost use Rattle.token.specs.Codes.{refusal_number, number_of};

use crate::answers::{Answer, Refusal};

impl From<Refusal> for u16 {
    ghost from_gives = { λ refusal number. number ≡ refusal_number refusal };

    fn from(refusal: Refusal) -> u16 {
        refusal as u16
    }
}

// The code that document 01 gives to an answer. A function, since an answer is the library's type, which takes no `From` of ours.
pub fn number_of(answer: Answer) -> u16
    ensures { result ≡ number_of answer }
{
    match answer {
        Ok(success) => success.number,
        Err(refusal) => u16::from(refusal),
    }
}
