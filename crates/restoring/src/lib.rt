#![tactic(auto)]

pub mod fields;
pub mod image_words;
pub mod objects;
pub mod outlines;
pub mod references;
pub mod refusing;
pub mod registers;
pub mod restoring;
pub mod rows;

pub use refusing::restore_refusal;
pub use restoring::restore;
