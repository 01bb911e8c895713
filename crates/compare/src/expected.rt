ghost use Rattle.std.specs.Prelude.{ℕ, ◌<◌};

use super::objects::{Item, Objects, Shape};
use super::packing::Packing;
use std::alloc::{AllocError, Global};

/// What a mutator does.
#[derive(Clone, Copy, PartialEq, Eq)]
pub enum Doing {
    Running,
    Waiting(u32),
    InHand(u32),
}

/// What is in progress.
#[derive(Clone, Copy, PartialEq, Eq)]
pub enum Phase {
    Idle,
    Collecting,
    Imaging,
}

/// The words of a page and the pages of a half.
#[derive(Clone, Copy)]
pub struct Sizes {
    pub page: u32,
    pub half_pages: u32,
}

impl Sizes {
    /// The pages of both halves.
    pub fn pages(self) -> u32 {
        self.half_pages.saturating_mul(2)
    }

    pub fn half(self) -> u32 {
        self.page.saturating_mul(self.half_pages)
    }

    /// The pages that so many words take.
    pub fn pages_for(self, words: u32) -> u32 {
        words.div_ceil(self.page.max(1))
    }

    pub fn image(self) -> usize {
        self.half().saturating_add(70) as usize
    }
}

/// A heap's state but for its objects.
#[derive(Clone, Copy)]
pub struct Ledger {
    pub registers: [Item; 32],
    pub doing: [Doing; 4],
    pub phase: Phase,
    /// Whether the upper half is in use.
    pub upper: bool,
    pub traps: u32,
    /// The words of copied objects, and those of new ones.
    pub copied: u32,
    pub fresh: u32,
    /// The words in use at the last FLIP.
    pub used: u32,
}

/// A register's place among the 32.
pub fn place(m: u32, r: u32) -> usize
    ensures { result < 32 }
{
    (m % 4 * 8 + r % 8) as usize
}

fn mutator(m: u32) -> usize
    ensures { result < 4 }
{
    (m % 4) as usize
}

impl Ledger {
    pub fn register(&self, m: u32, r: u32) -> Item {
        self.registers[place(m, r)]
    }

    pub fn hold(&mut self, m: u32, r: u32, item: Item) {
        self.registers[place(m, r)] = item;
    }

    pub fn doing(&self, m: u32) -> Doing {
        self.doing[mutator(m)]
    }

    pub fn set_doing(&mut self, m: u32, doing: Doing) {
        self.doing[mutator(m)] = doing;
    }

    pub fn runs(&self, m: u32) -> bool {
        self.doing(m) == Doing::Running
    }

    pub fn all_run(&self) -> bool {
        self.doing.iter().all(|doing| *doing == Doing::Running)
    }

    pub fn any_runs(&self) -> bool {
        self.doing.iter().any(|doing| *doing == Doing::Running)
    }

    pub fn in_hand_with(&self, m: u32, page: u32) -> bool {
        self.doing(m) == Doing::InHand(page)
    }

    pub fn waits(&self, m: u32) -> bool {
        matches!(self.doing(m), Doing::Waiting(_))
    }

    pub fn is_idle(&self) -> bool {
        self.phase == Phase::Idle
    }

    pub fn is_collecting(&self) -> bool {
        self.phase == Phase::Collecting
    }

    pub fn is_imaging(&self) -> bool {
        self.phase == Phase::Imaging
    }
}

/// The heap as it is expected to be: objects that never move.
#[derive(Drop)]
pub struct Expected {
    pub sizes: Sizes,
    pub packing: Packing,
    pub objects: Objects,
    pub ledger: Ledger,
}

impl Expected {
    pub fn new(heap: Global, sizes: Sizes, packing: Packing) -> Expected {
        Expected {
            sizes,
            packing,
            objects: Objects::none(heap),
            ledger: Ledger {
                registers: [Item::Nil; 32],
                doing: [Doing::Running; 4],
                phase: Phase::Idle,
                upper: false,
                traps: 0,
                copied: 0,
                fresh: 0,
                used: 0,
            },
        }
    }

    /// The heap that an image of this one restores.
    pub fn snapshot(&self) -> Result<Expected, AllocError> {
        let mut ledger = self.ledger;
        ledger.doing = [Doing::Running; 4];
        ledger.phase = Phase::Idle;
        ledger.traps = 0;
        ledger.used = 0;
        Ok(Expected {
            sizes: self.sizes,
            packing: self.packing,
            objects: self.objects.clone()?,
            ledger,
        })
    }

    /// The shape of the object that a register holds.
    pub fn held_shape(&self, m: u32, s: u32) -> Option<Shape> {
        match self.ledger.register(m, s) {
            Item::Object(object) => Some(self.objects.shape(object)),
            _ => None,
        }
    }

    /// The words that a new object may have, header included.
    pub fn room(&self) -> u32 {
        let taken = match self.ledger.phase {
            Phase::Collecting => self
                .sizes
                .pages_for(self.ledger.used)
                .saturating_mul(self.sizes.page),
            _ => self.ledger.copied,
        };
        self.new_start().saturating_sub(taken)
    }

    /// Where the new objects begin, counted from the first word of to-space.
    pub fn new_start(&self) -> u32 {
        self.sizes.half().saturating_sub(self.ledger.fresh)
    }

    /// The first word of to-space.
    pub fn first_word(&self) -> u32 {
        if self.ledger.upper {
            self.sizes.half()
        } else {
            0
        }
    }

    /// The place of a page of to-space among its pages.
    pub fn inside(&self, page: u32) -> Option<u32> {
        let inside = page.checked_sub(self.first_page())?;
        (inside < self.sizes.half_pages).then_some(inside)
    }

    /// The first page of to-space.
    pub fn first_page(&self) -> u32 {
        if self.ledger.upper {
            self.sizes.half_pages
        } else {
            0
        }
    }
}
