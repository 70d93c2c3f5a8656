//! What `serde_json` reads from the texts that this project writes: definitions and laws, no code.
#![tactic(auto)]

mod laws;

pub use laws::{printed_trees_are_read, printed_values_are_read};
