ghost use Rattle.std.specs.Prelude.{◌≡◌};

use super::heap_state::Heap;
use layouts::Layout;
use memory::Host;

impl<H: Host, L: Layout> Heap<H, L> {
    /// Ends the heap: its host and its layout.
    pub fn into_parts(self) -> (H, L)
        ensures { result ≡ (self.host, self.layout) }
    {
        let Heap {
            host,
            layout,
            plain: _,
        } = self;
        (host, layout)
    }
}
