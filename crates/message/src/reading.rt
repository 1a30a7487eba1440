// Reading a message, request or reply (document 02, Ask 3).
ghost use Rattle.std.specs.Prelude.{◌≡◌};
ghost use Rattle.std.specs.Result.{result_map_both};
ghost use Rattle.message.specs.Message.{message_at};
ghost use Rattle.message.specs.Reading.{read_of, heading_of, reading_of, item_of};
ghost use Rattle.message.specs.Walking.{framed_as, sealed_as};

use crate::frame::{CALLER, Framed, KIND, NUMBER, frame_of};
use crate::items::ItemPlace;
use token::Refusal;
use words::bytes::{be_at, be_eight};

// What a message says beside its items. Type, service and options are wider than their fields, so that the writer can refuse a value too large.
#[derive(Clone, Copy)]
pub struct Heading {
    pub kind: u32,
    pub caller: u64,
    pub number: u64,
    pub service: u32,
    pub options: u32,
}

// With the number of its items.
#[derive(Clone, Copy)]
pub struct Reading {
    pub heading: Heading,
    pub count: usize,
}

impl<'a> Framed<'a> {
    pub fn service(&self) -> u32
        ensures { result ≡ (message_at self.now.message.now).service }
    {
        be_at(self.message, self.body(), 2) as u32
    }

    pub fn options(&self) -> u32
        ensures { result ≡ (message_at self.now.message.now).options }
    {
        be_at(self.message, self.body() + 2, 2) as u32
    }

    pub fn heading(&self) -> Heading
        ensures { result ≡ heading_of (message_at self.now.message.now) }
    {
        Heading {
            kind: self.message[KIND] as u32,
            caller: be_eight(self.message, CALLER),
            number: be_eight(self.message, NUMBER),
            service: self.service(),
            options: self.options(),
        }
    }
}

// The message that the bytes are, with a MAC that fits: 9001, then 9002.
fn framed_read(message: &[u8]) -> Result<Framed<'_>, Refusal>
    ensures { result_map_both (λ framed. framed.message.now) (λ refusal. refusal) result ≡ sealed_as (framed_as message.now) }
{
    let framed = frame_of(message).ok_or(Refusal::BadMessage)?;
    if !framed.mac_fits() {
        return Err(Refusal::BadMac);
    }
    Ok(framed)
}

// Reads a message.
pub fn read_message(message: &[u8]) -> Result<Reading, Refusal>
    ensures { result ≡ reading_of (read_of message.now) }
{
    let framed = framed_read(message)?;
    Ok(Reading {
        heading: framed.heading(),
        count: framed.count(),
    })
}

// Finds the item of an index, 0 for the first. The message is read anew, its MAC too.
pub fn item(message: &[u8], index: usize) -> Result<Option<ItemPlace>, Refusal>
    ensures { result ≡ item_of message.now index }
{
    let framed = framed_read(message)?;
    Ok(framed.items().nth(index))
}
