// The stores of a message that can be written.
ghost use Rattle.std.specs.Prelude.{◌≡◌, ◌+◌, ◌≤◌, length, drop};
ghost use Rattle.words.specs.Bytes.{put};
ghost use Rattle.sm3.specs.Sm3.{sm3_of};
ghost use Rattle.message.specs.Message.{item_bytes, items_bytes, body_bytes, head_bytes, without_mac};
ghost use Rattle.message.specs.Walking.{longest};
ghost use Rattle.message.specs.Writing.{message_bytes};

use crate::frame::{
    BODY_LENGTH, CALLER, EMPTY_BODY, HEAD, ITEM_HEAD, KIND, MARKED_HEAD, NUMBER, VERSION,
    head_length, is_marked,
};
use crate::writing::Draft;
use sm3::joined::last_word;
use words::bytes::{copy, put_be};

// Attribute, identifier, length and content.
fn lay_item(out: &mut [u8], at: usize, identifier: u32, content: &[u8])
    requires content_in_bounds { at + 4 + length content.now ≤ length out.old }
    requires content_len_bound { length content.now ≤ 0xff }
    ensures { out.new ≡ put out.old at (item_bytes (record { identifier = identifier; content = content.now })) }
{
    let start = at + ITEM_HEAD;
    let end = start + content.len();
    out[at] = 0x00;
    put_be(out, at + 1, 2, identifier as u64);
    out[at + 3] = content.len() as u8;
    copy(content, &mut out[start..end]);
}

// The MAC over header and body as they stand.
fn lay_mac(out: &mut [u8])
    requires in_bounds { 25 ≤ length out.old }
    requires out_len_bound { length out.old ≤ longest }
    ensures { out.new ≡ put out.old 21 (drop 28 (sm3_of (without_mac out.old))) }
{
    let mac = last_word(&out[0..HEAD], &out[MARKED_HEAD..]);
    put_be(out, HEAD, 4, mac as u64);
}

// Each part of the message goes to a part of the output that it fills.
impl<'a> Draft<'a> {
    fn lay_items(&self, out: &mut [u8])
        requires { length out.old ≡ length (items_bytes self.now.items) }
        ensures { out.new ≡ items_bytes self.now.items }
    {
        let mut at = 0;
        let mut contents = self.contents;
        for (identifier, length) in self.identifiers.iter().zip(self.lengths) {
            let (content, rest) = contents.split_at(*length as usize);
            lay_item(out, at, *identifier, content);
            at = at + ITEM_HEAD + content.len();
            contents = rest;
        }
    }

    // Service, options, number of items, items.
    fn lay_body(&self, out: &mut [u8])
        requires { length out.old ≡ length (body_bytes self.now) }
        ensures { out.new ≡ body_bytes self.now }
    {
        put_be(out, 0, 2, self.heading.service as u64);
        put_be(out, 2, 2, self.heading.options as u64);
        out[4] = self.identifiers.len() as u8;
        self.lay_items(&mut out[EMPTY_BODY..]);
    }

    // The header without its MAC.
    fn lay_head(&self, out: &mut [u8])
        requires { length out.old ≡ 21 }
        ensures { out.new ≡ head_bytes self.now }
    {
        let kind = self.heading.kind as u8;
        out[0] = head_length(kind) as u8;
        out[KIND] = kind;
        out[VERSION] = 0x01;
        put_be(out, CALLER, 8, self.heading.caller);
        put_be(out, NUMBER, 8, self.heading.number);
        put_be(out, BODY_LENGTH, 2, self.size() as u64);
    }

    pub(crate) fn lay(&self, out: &mut [u8])
        requires { length out.old ≡ length (message_bytes self.now) }
        ensures { out.new ≡ message_bytes self.now }
    {
        let kind = self.heading.kind as u8;
        let start = head_length(kind);
        self.lay_body(&mut out[start..]);
        self.lay_head(&mut out[0..HEAD]);
        if is_marked(kind) {
            lay_mac(out);
        }
    }
}
