//! The new names of a tree's symbols: of each which name it gets, if it gets one, and names set for symbols.
#![tactic(auto)]

mod busiest;
mod by_symbol;
mod found;
mod inline;
mod set;

pub use found::{SymbolNames, symbol_names};
pub use set::set_names;
