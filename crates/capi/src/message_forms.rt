// Messages read and written (document 02, Ask 3).
ghost use Rattle.std.specs.Prelude.{◌≡◌, ◌++◌, ◌≤◌, length, drop};
ghost use Rattle.capi.specs.Stored.{left};
ghost use Rattle.capi.specs.MessageLeft.{reading_fields, place_fields, read_left, item_left, wrote_left, write_left, heading_for};

use message::{Heading, ItemPlace, Reading, item, read_message, write_message};
use token::number_of;
use words::codes::{BAD_ARGUMENT, BadArgument, DONE};

const MESSAGE_FIELDS: usize = 6;

const ITEM_FIELDS: usize = 3;

// What a message says, at the front of fields.
fn put_reading(reading: Reading, fields: &mut [u64])
    requires { 6 ≤ length fields.old }
    ensures { fields.new ≡ reading_fields reading ++ drop 6 fields.old }
{
    let heading = reading.heading;
    let front = &mut fields[0..MESSAGE_FIELDS];
    front.copy_from_slice(&[
        heading.kind as u64,
        heading.caller,
        heading.number,
        heading.service as u64,
        heading.options as u64,
        reading.count as u64,
    ]);
}

// An item's identifier, place and length, at the front of fields.
fn put_place(place: ItemPlace, fields: &mut [u64])
    requires in_bounds { 3 ≤ length fields.old }
    requires start_le_end { place.start ≤ place.end }
    ensures { fields.new ≡ place_fields place ++ drop 3 fields.old }
{
    let front = &mut fields[0..ITEM_FIELDS];
    front.copy_from_slice(&[
        place.identifier as u64,
        place.start as u64,
        (place.end - place.start) as u64,
    ]);
}

// Reads a message, request or reply.
#[unsafe(no_mangle)]
pub extern "C" fn dl_message_read(message: &[u8], fields: &mut [u64]) -> u16
    ensures { left result fields.new ≡ read_left message.now fields.old }
{
    if fields.len() < MESSAGE_FIELDS {
        return BAD_ARGUMENT;
    }
    match read_message(message) {
        Ok(reading) => {
            put_reading(reading, fields);
            DONE
        }
        Err(refusal) => number_of(Err(refusal)),
    }
}

// Finds an item of a message.
#[unsafe(no_mangle)]
pub extern "C" fn dl_message_item(message: &[u8], index: usize, fields: &mut [u64]) -> u16
    ensures { left result fields.new ≡ item_left message.now index fields.old }
{
    if fields.len() < ITEM_FIELDS {
        return BAD_ARGUMENT;
    }
    match item(message, index) {
        Ok(Some(place)) => {
            put_place(place, fields);
            DONE
        }
        Ok(None) => BAD_ARGUMENT,
        Err(refusal) => number_of(Err(refusal)),
    }
}

// Writes a message, request or reply.
#[unsafe(no_mangle)]
pub extern "C" fn dl_message_write(
    kind: u32,
    caller: u64,
    number: u64,
    service: u32,
    options: u32,
    identifiers: &[u32],
    lengths: &[u32],
    contents: &[u8],
    out: &mut [u8],
    written: &mut [u64],
) -> u16
    ensures { wrote_left result out.new written.new ≡ write_left (heading_for kind caller number service options) identifiers.now lengths.now contents.now out.old written.old }
{
    if written.len() == 0 {
        return BAD_ARGUMENT;
    }
    let heading = Heading {
        kind,
        caller,
        number,
        service,
        options,
    };
    match write_message(heading, identifiers, lengths, contents, out) {
        Ok(len) => {
            written[0] = len as u64;
            DONE
        }
        Err(BadArgument) => BAD_ARGUMENT,
    }
}
