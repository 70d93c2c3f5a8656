//! Tables by numbers: items in groups, and numbers by the indices at which they stand.
#![tactic(auto)]

mod groups;
mod placed;

pub use groups::Groups;
pub use placed::place_numbers;
