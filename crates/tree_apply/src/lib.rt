//! A program under the names that an analysis of it has.
#![tactic(auto)]

mod apply;
mod given;
mod new_name;

pub use apply::apply_names;
