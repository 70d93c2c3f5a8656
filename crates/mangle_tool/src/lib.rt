//! The mangler as a tool: what its words ask for, where its input comes from, what it does with it, where the
//! answer goes, and how a run ends.
#![tactic(auto)]

mod answering;
pub mod estree;
mod make;
mod mangle;
pub mod run;
pub mod status;

pub use mangle::mangle_program;
pub use tool_outside::{adapters, memory, read_all, sink, source, write_whole};
pub use tool_words as words;
