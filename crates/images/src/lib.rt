#![tactic(auto)]

pub mod buffers;
pub mod marking;
pub mod preambles;
pub mod saving;

pub use buffers::image_words;
pub use marking::mark;
pub use saving::{Seal, lowest_unsaved, save, save_if_unsaved};
