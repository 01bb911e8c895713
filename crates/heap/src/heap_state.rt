use layouts::Layout;
use memory::Host;
use model::Answer;
use state::{Plain, ToAddress};

/// A heap over a host and a layout. Nothing of it can be reached but by its calls.
// Each call promises that the layout stays. That ties the heap before to the one after, so no fact of the type can say it.
pub struct Heap<H: Host, L: Layout> {
    pub(crate) host: H,
    pub(crate) layout: L,
    pub(crate) plain: Plain,
}

/// How a call that may trap ended. Not an `Option` of the page: both are good ends, and their names tell them apart.
#[derive(Clone, Copy)]
pub enum Access {
    Done,
    /// It trapped on this page, and its mutator waits.
    Trapped(u32),
}

/// The answer of an access.
impl From<Access> for Answer {
    ghost use Rattle.std.specs.Prelude.{◌≡◌, Ok};
    ghost use Rattle.heap.specs.Effects.{access_answer};

    ghost from_gives = { λ access answer. answer ≡ access_answer (Ok access) };

    fn from(access: Access) -> Answer {
        match access {
            Access::Done => Answer::Done,
            Access::Trapped(page) => Answer::Trapped(page),
        }
    }
}

/// An object in to-space: where it lies, and its header.
#[derive(Clone, Copy)]
pub struct Object {
    pub address: ToAddress,
    pub header: u32,
}
