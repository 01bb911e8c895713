ghost use Rattle.std.specs.Prelude.{◌≡◌, ◌&&◌, length};
ghost use Rattle.model.specs.Restoring.{is_written_well, is_made_of_objects, restored, restore_refusal};
ghost use Rattle.restoring.specs.Restored.{image_view};

use super::image_words::{Image, SEAL, TO_SPACE};
use super::objects::Objects;
use layouts::Layout;
use memory::{Host, Refusal};
use state::words_in_half;

// Whether an image is one of a heap.
fn is_of_a_heap<H: Host, L: Layout>(host: &H, layout: &L, image: &Image) -> bool
    ensures { result ≡ (is_written_well (H.Host.meaning host.now) (image_view image.now.words.now) && is_made_of_objects L.Layout.rules (restored (H.Host.meaning host.now) (image_view image.now.words.now))) }
{
    image.is_written_well(host) && Objects::new(host, layout, image.words).are_well_made()
}

/// Why RESTORE refuses an image on a host, if it does.
pub fn restore_refusal<H: Host, L: Layout>(host: &H, layout: &L, image: &[u32]) -> Option<Refusal>
    ensures { result ≡ restore_refusal L.Layout.rules (H.Host.meaning host.now) (length image.now) (image_view image.now) }
{
    if host.page_count() % 2 == 1 {
        return Some(Refusal::Size);
    }
    if image.len() < TO_SPACE + words_in_half(host) as usize {
        return Some(Refusal::Short);
    }
    let image = Image { words: image };
    let sealed = image.word(SEAL) != 0;
    if sealed && !image.is_of_this(host, layout) {
        return Some(Refusal::OtherImage);
    }
    if !sealed || !is_of_a_heap(host, layout, &image) {
        return Some(Refusal::BadImage);
    }
    None
}
