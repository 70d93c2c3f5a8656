//! A program under new names, in place.
#![tactic(auto)]

mod laws;
mod renaming;
mod walk;

pub use laws::renamed_programs_are_programs;
pub use renaming::{rename, rename_tree};
