ghost use Rattle.std.specs.Prelude.{◌≡◌, length};
ghost use Rattle.model.specs.Images.{image_words};
ghost use Rattle.model.specs.declared.calls.Call.TheVariants as Call;
ghost use Rattle.images.specs.Lent.{Writes, done_answer, save_answer};
ghost use Rattle.heap.specs.View.{view};

use super::heap_state::Heap;
use images::Seal;
use layouts::Layout;
use memory::{Host, Refusal};

impl<H: Host, L: Layout> Heap<H, L> {
    /// The words that an image of this heap takes.
    pub fn image_words(&self) -> u32
        ensures { result ≡ image_words (view H.Host.meaning self.now).memory }
    {
        images::image_words(&self.host)
    }

    /// MARK: opens an image of the heap as it is now, in the first words of the buffer.
    pub fn mark(&mut self, buffer: &mut [u32]) -> Result<(), Refusal>
        ensures writes { Writes L.Layout.rules (view H.Host.meaning self.old) buffer.old (Call.Mark (length buffer.old)) (view H.Host.meaning self.new) buffer.new (done_answer result) }
        ensures layout { self.new.layout ≡ self.old.layout }
    {
        images::mark(&mut self.host, &self.layout, &mut self.plain, buffer)
    }

    /// SAVE: saves the lowest page that the image in progress has yet to save, if there is one; whether the image is sealed
    /// then.
    pub fn save(&mut self, buffer: &mut [u32]) -> Result<Seal, Refusal>
        ensures writes { Writes L.Layout.rules (view H.Host.meaning self.old) buffer.old (Call.Save (length buffer.old)) (view H.Host.meaning self.new) buffer.new (save_answer result) }
        ensures layout { self.new.layout ≡ self.old.layout }
    {
        images::save(&mut self.host, &self.layout, &mut self.plain, buffer)
    }
}
