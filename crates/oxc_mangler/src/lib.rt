//! The mangler: short names for the bindings and private names of a program, as few as are ever in use at once.
#![tactic(auto)]

mod asked;
mod class_names;
mod collect;
mod error;
mod mangler;
mod naming;
mod returned;
mod set;

pub use collect::collect_name_symbols;
pub use error::BuildError;
pub use free_names::{Guard, base54, free_name_from};
pub use mangle_options::{MangleOptions, MangleOptionsKeepNames};
pub use mangler::Mangler;
pub use returned::{ManglerReturn, NameResult};
