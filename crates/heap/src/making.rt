ghost use Rattle.std.specs.Prelude.{◌≡◌};
ghost use Rattle.memory.specs.Memory.{Memory};
ghost use Rattle.model.specs.Heap.{with_new_start};
ghost use Rattle.model.specs.Calls.{fresh_heap};
ghost use Rattle.state.specs.View.{state_of};
ghost use Rattle.heap.specs.Making.{Made, Restored, cleared};

use super::heap_state::Heap;
use layouts::Layout;
use memory::{Host, Refusal, Rejected, Right};
use model::{Half, State};
use state::{Held, Mutator, Plain, words_in_half};
use words::{open_pages, page_words, pages_in_half, zero_words};

// The state of a heap with no objects, whose to-space ends at an address.
fn fresh_plain(new_start: u32) -> Plain
    ensures { (x : Memory) → state_of x result ≡ with_new_start (fresh_heap x) new_start }
{
    let mutator = Mutator {
        registers: [Held::Nil; 8],
        state: State::Running,
    };
    Plain::idle([mutator; 4], Half::Lower, 0, new_start)
}

// Sets every word to 0, the first half to all and the second to none.
// Inlined into `make`, where the host is a local: there the loop over a check host's words becomes wide stores.
#[inline(always)]
fn clear<H: Host>(host: &mut H)
    ensures { H.Host.meaning host.new ≡ cleared (H.Host.meaning host.old) }
{
    let pages = pages_in_half(host);
    let words = host.page_count() * page_words(host);
    zero_words(host, words);
    open_pages(host, 0, pages);
    let _ = host.protn(pages, pages, Right::None);
}

impl<H: Host, L: Layout> Heap<H, L> {
    /// MAKE: a heap on a host, with no objects. Refused for an odd page count; host and layout then come back.
    pub fn make(mut host: H, layout: L) -> Result<Heap<H, L>, Rejected<(H, L)>>
        ensures { Made H.Host.meaning host layout result }
    {
        if host.page_count() % 2 == 1 {
            return Err(Rejected {
                refusal: Refusal::Size,
                given: (host, layout),
            });
        }
        clear(&mut host);
        let half_words = words_in_half(&host);
        Ok(Heap {
            host,
            layout,
            plain: fresh_plain(half_words),
        })
    }

    /// RESTORE: a heap as it was when an image was marked. A refused image alters nothing; host and layout then come back.
    pub fn restore(host: H, layout: L, image: &[u32]) -> Result<Heap<H, L>, Rejected<(H, L)>>
        ensures { Restored L.Layout.rules H.Host.meaning host layout image.now result }
    {
        let (host, layout, plain) = restoring::restore(host, layout, image)?;
        Ok(Heap {
            host,
            layout,
            plain,
        })
    }
}
