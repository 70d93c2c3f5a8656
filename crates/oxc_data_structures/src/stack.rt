//! Stacks: of any length, of one entry at least, and of entries that are mostly absent.

pub mod non_empty;
pub mod sparse;
pub mod standard;

pub use non_empty::{CollectError, NonEmptyStack, TryFromVecError};
pub use sparse::SparseStack;
pub use standard::Stack;
