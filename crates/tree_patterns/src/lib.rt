//! The names that patterns and declarations bind.
#![tactic(auto)]

mod laws;
mod patterns;

pub use laws::{bound_names_are_declared, bound_names_are_identifiers, bound_names_by_kind};
pub use patterns::{NodeRefs, bound_names};
