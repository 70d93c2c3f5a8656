//! The new names of a tree: of each place which name it gets, if it gets one.
#![tactic(auto)]

mod choices;
mod naming;
mod private;
mod taken;

pub use naming::{NewNames, new_names};
