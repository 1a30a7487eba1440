// The items of a message, one by one (GM/T 0021-2012, Table D.4).
ghost use Rattle.std.specs.Prelude.{◌≡◌, length, option_copied};
ghost use Rattle.std.specs.Iterator.{YieldsFirst, item_count};
ghost use Rattle.message.specs.Message.{message_at};
ghost use Rattle.message.specs.Reading.{places_in, content_in};

use crate::frame::{EMPTY_BODY, Framed, ITEM_HEAD, item_end};
use std::marker::Model;
use words::bytes::be_at;

// An item's identifier, and where in the message its content starts and ends.
#[derive(Clone, Copy)]
pub struct ItemPlace {
    pub identifier: u32,
    pub start: usize,
    pub end: usize,
}

// The items that are left, which end where the message ends.
#[derive(Drop)]
pub struct Items<'a> {
    message: &'a [u8],
    at: usize,
    left: usize,
}

impl<'a> Model for Items<'a> {
    ghost use Rattle.std.specs.Prelude.{◌≡◌, List, length};
    ghost use Rattle.message.specs.declared.items.ItemPlace.{ItemPlace};

    ghost Value = { List ItemPlace };

    ghost use Rattle.message.specs.Message.{items_end};
    ghost use Rattle.message.specs.Reading.{places};

    ghost view = { λ items. places items.left items.message.now items.at };

    ghost invariant = { λ items. items_end items.left items.message.now items.at ≡ length items.message.now };
}

impl<'a> Iterator for Items<'a> {
    type Item = ItemPlace;

    ghost next_gives = { YieldsFirst (λ rest. rest) };

    ghost remaining = { item_count (λ rest. rest) };

    fn next(&mut self) -> Option<ItemPlace> {
        if self.left == 0 {
            return None;
        }
        let item = ItemPlace {
            identifier: be_at(self.message, self.at + 1, 2) as u32,
            start: self.at + ITEM_HEAD,
            end: item_end(self.message, self.at),
        };
        self.at = item.end;
        self.left -= 1;
        Some(item)
    }
}

impl<'a> Framed<'a> {
    pub fn count(&self) -> usize
        ensures { result ≡ length (message_at self.now.message.now).items }
    {
        self.message[self.body() + 4] as usize
    }

    pub fn items(&self) -> Items<'a>
        ensures { result ≡ places_in self.now.message.now }
    {
        Items {
            message: self.message,
            at: self.body() + EMPTY_BODY,
            left: self.count(),
        }
    }

    // The content of the first item that has the identifier.
    pub fn content(&self, identifier: u32) -> Option<&'a [u8]>
        ensures { option_copied result ≡ content_in identifier (message_at self.now.message.now).items }
    {
        let place = self.items().find(|item| item.identifier == identifier)?;
        Some(&self.message[place.start..place.end])
    }
}
