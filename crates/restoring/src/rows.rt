ghost use Rattle.std.specs.Prelude.{◌≡◌, ◌+◌, ◌≤◌};
ghost use Rattle.std.specs.Iterator.{YieldsFirst, item_count};
ghost use Rattle.model.specs.Restoring.{is_row, heads_row};
ghost use Rattle.restoring.specs.Outlines.{word_in};
ghost use Rattle.restoring.specs.Rows.{headers, headers_left, ends_by};

use super::objects::Objects;
use layouts::Layout;
use state::object_words;

/// The addresses of the headers in a row of objects, each behind the object before, and at most so many of them.
#[derive_where(Clone, Copy)]
pub(crate) struct Headers<'a, L> {
    objects: Objects<'a, L>,
    a: u32,
    stop: u32,
    left: u32,
}

impl<L: Layout> Iterator for Headers<'_, L> {
    type Item = u32;

    ghost next_gives = { YieldsFirst (headers_left L.Layout.rules) };

    ghost remaining = { item_count (headers_left L.Layout.rules) };

    fn next(&mut self) -> Option<u32> {
        if self.left == 0 || self.a >= self.stop {
            return None;
        }
        let a = self.a;
        let words = object_words(self.objects.layout, self.objects.word(a));
        // No object lies past the last address, so a sum that stops there ends the row.
        self.a = a.saturating_add(words);
        self.left -= 1;
        Some(a)
    }
}

impl<L: Layout> Objects<'_, L> {
    /// The addresses of the headers in a row from one address up to another.
    pub(crate) fn headers(&self, from: u32, stop: u32) -> Headers<'_, L>
        ensures { headers_left L.Layout.rules result ≡ headers L.Layout.rules (word_in self.now) self.now.outline.words from stop }
    {
        Headers {
            objects: *self,
            a: from,
            stop,
            left: self.outline.words,
        }
    }

    // Whether the word at an address is the header of an object that ends by another address.
    fn ends_by(&self, a: u32, stop: u32) -> bool
        ensures { result ≡ ends_by L.Layout.rules (word_in self.now) stop a }
    {
        self.layout
            .slots(self.word(a))
            .is_some_and(|slots| slots < stop.saturating_sub(a))
    }

    /// Whether the words from one address up to another are whole objects in a row.
    pub(crate) fn is_row(&self, from: u32, stop: u32) -> bool
        requires { (from ≤ stop) × (stop ≤ from + self.now.outline.words) }
        ensures { result ≡ is_row L.Layout.rules (word_in self.now) self.now.outline.words from stop }
    {
        self.headers(from, stop).all(|a| self.ends_by(a, stop))
    }

    /// Whether an address is that of a header in a row of objects.
    pub(crate) fn heads_row(&self, from: u32, stop: u32, address: u32) -> bool
        ensures { result ≡ heads_row L.Layout.rules (word_in self.now) self.now.outline.words from stop address }
    {
        self.headers(from, stop).any(|a| a == address)
    }
}
