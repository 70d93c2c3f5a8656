//! Texts in an arena, and sets of numbers over any allocator.
#![tactic(auto)]

pub mod bit_set;
pub mod laws;
pub mod text;

pub use bit_set::{BitSet, Ones};
pub use text::{alloc_str, concat_strs};

#[cfg(test)]
mod tests;
