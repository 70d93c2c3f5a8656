//! Data structures that the crates above print and collect with.
#![tactic(auto)]

pub mod branch_hints;
pub mod code_buffer;
pub mod inline_string;
pub mod rope;
pub mod slice_iter;
pub mod stack;
pub mod str;
