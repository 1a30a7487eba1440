// What a success carries, as signed numbers in 64 bits at the front of lent values.
ghost use Rattle.std.specs.Prelude.{◌≡◌, ◌≤◌, length};
ghost use Rattle.token.specs.Codes.{signed_of, number_of};
ghost use Rattle.capi.specs.DeskLeft.{word, content_left, answer_left};

use token::{Answer, Content, number_of};
use window::{FARTHEST, Offset};

pub(crate) const MOST_VALUES: usize = 3;

const LAST_WORD: u64 = 0xffff_ffff_ffff_ffff;

// The signed offset d, in two's complement: C gets numbers.
fn signed(offset: Offset) -> u64
    ensures { result ≡ word (signed_of offset) }
{
    let held = offset.0 as u64;
    if FARTHEST <= held {
        return held - FARTHEST;
    }
    LAST_WORD - (FARTHEST - held) + 1
}

// Puts what a success carries to the front of values.
fn put_content(content: Content, values: &mut [u64])
    requires { 3 ≤ length values.old }
    ensures { values.new ≡ content_left content values.old }
{
    match content {
        Content::Plain => {}
        Content::Checked(step, offset) => {
            values[0] = step.0;
            values[1] = signed(offset);
        }
        Content::Queried(status) => {
            values[0] = status.state as u64;
            values[1] = status.errors as u64;
            values[2] = status.last_use.0;
        }
    }
}

// The answer's code, with what a success carries in values.
pub(crate) fn put_answer(answer: Answer, values: &mut [u64]) -> u16
    requires { 3 ≤ length values.old }
    ensures value { result ≡ number_of answer }
    ensures values_after { values.new ≡ answer_left answer values.old }
{
    if let Ok(success) = answer {
        put_content(success.content, values);
    }
    number_of(answer)
}
