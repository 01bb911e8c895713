ghost use Rattle.std.specs.Prelude.{◌≡◌, ℕ, ◌<◌};
ghost use Rattle.memory.specs.Memory.{Memory, extent};
ghost use Rattle.model.specs.Restoring.{half_of};
ghost use Rattle.model.specs.declared.states.State.TheVariants.{Running};
ghost use Rattle.state.specs.View.{register_view, state_view, state_of};
ghost use Rattle.restoring.specs.Restored.{image_view, Restores};
ghost use Rattle.restoring.specs.Outlines.{word_in, register_in};
ghost use Rattle.restoring.specs.Writing.{written, turned, Registers, plain_in};

use super::image_words::Image;
use super::objects::Objects;
use super::refusing::restore_refusal;
use layouts::Layout;
use memory::{Host, Rejected, Right};
use model::{Half, State};
use state::{Held, Mutator, Plain, other, page_of_half};
use std::array;
use words::{open_pages, page_words, pages_in_half, set_word};

// Sets a half to all and the other to none.
fn turn_rights<H: Host>(host: &mut H, half: Half)
    ensures { H.Host.meaning host.new ≡ turned (H.Host.meaning host.old) half }
{
    let pages = pages_in_half(host);
    let open = page_of_half(host, half);
    let shut = page_of_half(host, other(half));
    open_pages(host, open, pages);
    let _ = host.protn(shut, pages, Right::None);
}

impl Image<'_> {
    // A mutator that runs, with its registers.
    fn mutator(&self, m: usize) -> Mutator
        requires { m < 4 }
        ensures registers { Registers (register_in (image_view self.now.words.now)) m result.registers }
        ensures state { result.state ≡ Running }
    {
        Mutator {
            registers: array::from_fn(|r| Held::from(self.register_value((m * 8 + r) as u32))),
            state: State::Running,
        }
    }

    // The four mutators.
    fn mutators(&self) -> [Mutator; 4]
        ensures registers { (k : ℕ) → register_view result k ≡ register_in (image_view self.now.words.now) k }
        ensures states { (m : ℕ) → state_view result m ≡ Running }
    {
        array::from_fn(|m| self.mutator(m))
    }
}

impl<L: Layout> Objects<'_, L> {
    // Writes every word of a host as the image has it.
    fn write<H: Host>(&self, host: &mut H)
        ensures { H.Host.meaning host.new ≡ written (extent (H.Host.meaning host.old)) (H.Host.meaning host.old) (word_in self.now) }
    {
        let words = host.page_count() * page_words(host);
        for a in 0..words {
            set_word(host, a, self.word(a));
        }
    }

    // The state of a heap with these objects, and with the image's registers.
    fn plain(&self) -> Plain
        ensures { (x : Memory) → state_of x result ≡ plain_in x (half_of (image_view self.now.image.words.now 3)) self.now.outline (image_view self.now.image.words.now) }
    {
        Plain::idle(
            self.image.mutators(),
            self.image.half(),
            self.outline.copy_end,
            self.outline.new_start,
        )
    }
}

/// RESTORE: a heap on a host, made of an image. Refused as `restore_refusal` says; host and layout then come back.
pub fn restore<H: Host, L: Layout>(
    mut host: H,
    layout: L,
    image: &[u32],
) -> Result<(H, L, Plain), Rejected<(H, L)>>
    ensures { Restores L.Layout.rules H.Host.meaning host layout image.now result }
{
    if let Some(refusal) = restore_refusal(&host, &layout, image) {
        return Err(Rejected {
            refusal,
            given: (host, layout),
        });
    }
    let objects = Objects::new(&host, &layout, image);
    let plain = objects.plain();
    objects.write(&mut host);
    turn_rights(&mut host, plain.half);
    Ok((host, layout, plain))
}
