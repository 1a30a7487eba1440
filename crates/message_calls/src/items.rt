// The items of a message by their identifiers.
ghost use Rattle.std.specs.Prelude.{◌≡◌};
ghost use Rattle.message.specs.Message.{message_at};
ghost use Rattle.message_calls.specs.Serving.{items_of, content_of, only_these};
ghost use Rattle.message_calls.specs.Finding.{has, serial_in};

use crate::services::{SERIAL, Service, items_of};
use message::Framed;
use words::bytes::be_eight;

const SERIAL_BYTES: usize = 8;

fn has(framed: &Framed, id: u32) -> bool
    ensures { result ≡ has id (message_at framed.now.message.now).items }
{
    framed.content(id).is_some()
}

// The content of the item, empty where there is none.
pub(crate) fn content<'a>(framed: &Framed<'a>, id: u32) -> &'a [u8]
    ensures { result.now ≡ content_of id (message_at framed.now.message.now).items }
{
    framed.content(id).unwrap_or(&[])
}

// Whether the items are those of the service's call, each once: as many, and each there.
pub(crate) fn items_fit(framed: &Framed, service: Service) -> bool
    ensures { result ≡ only_these (items_of service) (message_at framed.now.message.now).items }
{
    let wanted = items_of(service);
    if framed.count() != wanted.len() {
        return false;
    }
    wanted.iter().all(|id| has(framed, *id))
}

// The serial, where it has 8 bytes.
pub(crate) fn serial_of(framed: &Framed) -> Option<u64>
    ensures { result ≡ serial_in (message_at framed.now.message.now) }
{
    let serial = content(framed, SERIAL);
    if serial.len() != SERIAL_BYTES {
        return None;
    }
    Some(be_eight(serial, 0))
}
