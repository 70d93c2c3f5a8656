//! The words of a command line, and what they ask for.
#![tactic(auto)]

mod command;
mod made_number;
mod options;
mod words;

pub use command::{Command, Layout, WordError};
pub use options::read_options;
pub use words::read_words;
