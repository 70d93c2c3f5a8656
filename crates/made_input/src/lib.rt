//! A large valid input for the mangler, made on demand: a module of functions, each of which takes a
//! parameter and calls itself with it.
#![tactic(auto)]

mod input;
mod laws;

pub use input::{MOST_FUNCTIONS, make_input};
pub use laws::made_texts_are_read;
