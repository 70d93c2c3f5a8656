//! The bindings of names in a tree: definitions that contracts cite.
#![tactic(auto)]

mod laws;
mod separation_laws;

pub use laws::{bindings_stay, faults_are_never_new, redeclarations_stand_at_places};
pub use separation_laws::{function_names_stand_apart, names_separate};
