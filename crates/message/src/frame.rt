// Header and body of a message, by their places (GM/T 0021-2012, Tables D.1, D.2 and D.4).
ghost use Rattle.std.specs.Prelude.{◌≡◌, ◌+◌, ◌≤◌, true, length, option_map};
ghost use Rattle.words.specs.Lists.{one_of};
ghost use Rattle.message.specs.Message.{kinds, marked, is_reply, head_length, item_end, body_start, message_at, frame_fits, mac_fits};
ghost use Rattle.message.specs.Walking.{longest, Whole, items_fill, framed_as};

use crate::mac::mac_fits;
use words::bytes::be_at;

pub(crate) const KIND: usize = 1;

pub(crate) const VERSION: usize = 2;

pub(crate) const CALLER: usize = 3;

pub(crate) const NUMBER: usize = 11;

pub(crate) const BODY_LENGTH: usize = 19;

pub(crate) const HEAD: usize = 21;

pub(crate) const MARKED_HEAD: usize = 25;

// A body without items: service, options and item count.
pub(crate) const EMPTY_BODY: usize = 5;

// Attribute, identifier and length of an item.
pub(crate) const ITEM_HEAD: usize = 4;

const FIRST_MARKED: u8 = 0x80;

pub(crate) fn is_marked(kind: u8) -> bool
    ensures { result ≡ marked kind }
{
    FIRST_MARKED <= kind
}

pub(crate) fn head_length(kind: u8) -> usize
    ensures { result ≡ head_length kind }
{
    if is_marked(kind) {
        return MARKED_HEAD;
    }
    HEAD
}

pub(crate) fn is_named(kind: u32) -> bool
    ensures { result ≡ one_of kind kinds }
{
    matches!(kind, 0x00 | 0x01 | 0x80 | 0x81)
}

pub fn is_reply(kind: u8) -> bool
    ensures { result ≡ is_reply kind }
{
    matches!(kind, 0x01 | 0x81)
}

// Where the item that starts at a place ends.
pub(crate) fn item_end(message: &[u8], at: usize) -> usize
    requires { at + 4 ≤ length message.now }
    ensures { result ≡ item_end message.now at }
{
    at + ITEM_HEAD + message[at + 3] as usize
}

// Whether so many items from a place on end where the message ends, each with attribute 00. By places, as the definition goes.
fn items_fill(message: &[u8], count: usize, start: usize) -> bool
    requires message_len_bound { length message.now ≤ longest }
    requires start_le_longest { start ≤ longest }
    ensures { result ≡ items_fill count message.now start }
{
    let mut at = start;
    for _ in 0..count {
        if message.len() < at + ITEM_HEAD {
            return false;
        }
        if message[at] != 0x00 {
            return false;
        }
        at = item_end(message, at);
    }
    at == message.len()
}

// Whether type and version are named, the lengths add up and the attributes are 00.
fn frame_fits(message: &[u8]) -> bool
    ensures value { result ≡ frame_fits message.now }
    ensures short { result ≡ true → length message.now ≤ longest }
{
    if message.len() < HEAD {
        return false;
    }
    let kind = message[KIND];
    let body = head_length(kind);
    let size = be_at(message, BODY_LENGTH, 2) as usize;
    if !(is_named(kind as u32)
        & (message[VERSION] == 0x01)
        & (message[0] as usize == body)
        & (body + size == message.len())
        & (EMPTY_BODY <= size))
    {
        return false;
    }
    items_fill(message, message[body + 4] as usize, body + EMPTY_BODY)
}

// The bytes of a message, whatever its MAC.
#[derive(Clone, Copy)]
pub struct Framed<'a> {
    pub message: &'a [u8],
    // Where the body starts.
    body: usize,
    ghost whole: { Whole message.now body },
}

// The message that the bytes are.
pub fn frame_of(message: &[u8]) -> Option<Framed<'_>>
    ensures { option_map (λ framed. framed.message.now) result ≡ framed_as message.now }
{
    if !frame_fits(message) {
        return None;
    }
    let body = head_length(message[KIND]);
    Some(Framed { message, body })
}

impl<'a> Framed<'a> {
    pub fn is_reply(&self) -> bool
        ensures { result ≡ is_reply (message_at self.now.message.now).kind }
    {
        is_reply(self.message[KIND])
    }

    // Whether a marked MAC is the last four bytes of the digest.
    pub fn mac_fits(&self) -> bool
        ensures { result ≡ mac_fits self.now.message.now }
    {
        mac_fits(self.message)
    }

    pub(crate) fn body(&self) -> usize
        ensures value { result ≡ body_start self.now.message.now }
        ensures room { result + 5 ≤ length self.now.message.now }
    {
        self.body
    }
}
