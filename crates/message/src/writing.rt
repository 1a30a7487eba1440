// Writing a message, request or reply (document 02, Ask 3): all tests first, then the stores.
ghost use Rattle.std.specs.Prelude.{◌≡◌, ◌≤◌, length};
ghost use Rattle.message.specs.Message.{body_bytes};
ghost use Rattle.message.specs.Writing.{message_bytes, wrote, items_lent, write_lent};
ghost use Rattle.message.specs.Lending.{lent_fit, heading_fits, drafted};

use crate::frame::{EMPTY_BODY, ITEM_HEAD, head_length, is_named};
use crate::reading::Heading;
use std::marker::Model;
use words::codes::BadArgument;

const MOST_ITEMS: usize = 0xff;

const MOST_CONTENT: u32 = 0xff;

const MOST_BODY: usize = 0xffff;

// The most that two bytes hold: a service, options, an identifier.
const MOST: u32 = 0xffff;

// Whether the type is named, and service and options are no more than their fields hold.
fn heading_fits(heading: Heading) -> bool
    ensures { result ≡ heading_fits heading }
{
    is_named(heading.kind) & (heading.service <= MOST) & (heading.options <= MOST)
}

// Whether the identifiers rise and items of so many bytes of content hold what they are lent with.
fn items_fit(identifiers: &[u32], lengths: &[u32], contents: usize) -> bool
    ensures { result ≡ lent_fit 0 identifiers.now lengths.now contents }
{
    if identifiers.len() != lengths.len() {
        return false;
    }
    let mut low: u32 = 0;
    let mut left = contents;
    for (identifier, length) in identifiers.iter().zip(lengths) {
        let id = *identifier;
        let n = *length;
        if (id < low) | (MOST < id) | (MOST_CONTENT < n) | (left < n as usize) {
            return false;
        }
        low = id + 1;
        left -= n as usize;
    }
    left == 0
}

// A message that can be written. C lends its items so, too: by their identifiers, the lengths of their contents, and these one behind the other.
#[derive(Drop)]
pub(crate) struct Draft<'a> {
    pub(crate) heading: Heading,
    pub(crate) identifiers: &'a [u32],
    pub(crate) lengths: &'a [u32],
    pub(crate) contents: &'a [u8],
}

impl<'a> Model for Draft<'a> {
    ghost use Rattle.message.specs.Message.{Message};

    ghost Value = { Message };

    ghost use Rattle.message.specs.Lending.{lent, Tested};

    ghost view = { λ d. lent d.heading d.identifiers.now d.lengths.now d.contents.now };

    ghost invariant = { λ d. Tested d.heading d.identifiers.now d.lengths.now d.contents.now };
}

impl<'a> Draft<'a> {
    fn of(
        heading: Heading,
        identifiers: &'a [u32],
        lengths: &'a [u32],
        contents: &'a [u8],
    ) -> Option<Draft<'a>>
        ensures { result ≡ drafted heading identifiers.now lengths.now contents.now }
    {
        let count = identifiers.len();
        let bytes = contents.len();
        if !(heading_fits(heading) & (count <= MOST_ITEMS) & (bytes <= MOST_BODY)) {
            return None;
        }
        let size = EMPTY_BODY + ITEM_HEAD * count + bytes;
        if !((size <= MOST_BODY) & items_fit(identifiers, lengths, bytes)) {
            return None;
        }
        Some(Draft {
            heading,
            identifiers,
            lengths,
            contents,
        })
    }

    // How many bytes the body has.
    pub(crate) fn size(&self) -> usize
        ensures value { result ≡ length (body_bytes self.now) }
        ensures small { result ≤ 0xffff }
    {
        EMPTY_BODY + ITEM_HEAD * self.identifiers.len() + self.contents.len()
    }

    fn len(&self) -> usize
        ensures { result ≡ length (message_bytes self.now) }
    {
        head_length(self.heading.kind as u8) + self.size()
    }
}

// Writes a message to the front of out, with items that are lent by their identifiers, the lengths of their contents, and these one behind the other.
pub fn write_message(
    heading: Heading,
    identifiers: &[u32],
    lengths: &[u32],
    contents: &[u8],
    out: &mut [u8],
) -> Result<usize, BadArgument>
    ensures { wrote result out.new ≡ write_lent heading (items_lent identifiers.now lengths.now contents.now) out.old }
{
    let draft = Draft::of(heading, identifiers, lengths, contents).ok_or(BadArgument)?;
    let end = draft.len();
    if out.len() < end {
        return Err(BadArgument);
    }
    draft.lay(&mut out[0..end]);
    Ok(end)
}
