//! The outside of a tool: where its input comes from, where its answers go, and one function that reads whole,
//! has the answer made, and writes whole, whatever the answer is.
#![tactic(auto)]

pub mod adapters;
pub mod carry_out;
mod failures;
pub mod memory;
pub mod read_all;
pub mod sink;
pub mod source;
pub mod work;
pub mod write_whole;
