//! Undoing a renaming: a map of the names and shorthand marks that it changed, and the tree that they give back.
#![tactic(auto)]

mod fill;
mod fits;
mod laws;
mod list;
mod make;
mod map;
mod naming;
mod read;
mod restoring;
mod same;
mod spots;

pub use laws::{map_texts_read, maps_read_back};
pub use list::PlaceNames;
pub use make::{MapError, make_map};
pub use map::NameMap;
pub use naming::{can_take_names, with_names};
pub use read::{MapReadError, read_map};
pub use restoring::{RestoreError, restore};
