use super::mutators::Mutator;
use model::{Half, Phase};

/// Where copied objects go: the copy end, and for each page the header's address of the object with its first word.
#[derive(Clone, Copy)]
pub struct Space {
    pub copy_end: u32,
    pub crossing: [u32; 64],
}

/// All of a heap's state but its host and layout. It is of one size, and has a place for each page that a host may have.
// The three tables of pages are not one: forwarding is lent `Space` alone, and MARK makes `unsaved` alone.
#[derive(Clone, Copy)]
pub struct Plain {
    pub mutators: [Mutator; 4],
    pub space: Space,
    /// The half in use.
    pub half: Half,
    /// The lowest word of the new objects.
    pub new_start: u32,
    /// The first unscanned word of each page.
    pub unscanned: [u32; 64],
    /// The words in use at the last FLIP.
    pub flip_used: u32,
    /// The pages that the image in progress has yet to save.
    pub unsaved: [bool; 64],
    /// The lowest word of the new objects at the last MARK.
    pub mark_start: u32,
    pub phase: Phase,
    /// How often a call trapped.
    pub traps: u32,
}
