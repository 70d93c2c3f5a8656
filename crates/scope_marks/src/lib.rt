//! Marks on the scopes of a list of places: from a scope outwards, and on what direct evals and
//! WithStatements reach.
#![tactic(auto)]

mod evals;
mod marks;
mod withs;

pub use evals::{is_eval, scopes_with_evals};
pub use marks::{mark_each, mark_outwards};
pub use withs::scopes_with_withs;
