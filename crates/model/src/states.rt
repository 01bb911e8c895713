ghost use Rattle.std.specs.Prelude.{◌≡◌};

/// A half of the host's pages.
#[derive(Clone, Copy, Debug, PartialEq, Eq)]
pub enum Half {
    Lower = 0,
    Upper = 1,
}

/// A half's number in an image.
impl From<Half> for u32 {
    ghost use Rattle.model.specs.Heap.{half_number};

    ghost from_gives = { λ half n. n ≡ half_number half };

    fn from(half: Half) -> u32 {
        half as u32
    }
}

/// What a mutator does.
#[derive(Clone, Copy, Debug, PartialEq, Eq)]
pub enum State {
    Running,
    /// It trapped on this page.
    Waiting(u32),
    /// Its fault on this page was handed out.
    InHand(u32),
}

/// What is in progress.
#[derive(Clone, Copy, Debug, PartialEq, Eq)]
pub enum Phase {
    Idle = 0,
    Collecting = 1,
    Imaging = 2,
}
