//! The symbols, the references and the scopes of a tree, by ids.
#![tactic(auto)]

mod calls;
mod flags;
mod found;
mod ids;
mod iterators;
mod known;
mod known_places;
mod reference_table;
mod rows;
mod scoping;
mod symbol_flags;
mod symbol_table;
mod unresolved;

pub use iterators::{Bindings, ScopeAncestors};
pub use known::KnownPlace;
pub use reference_table::ReferenceTable;
pub use scoping::Scoping;
pub use symbol_table::SymbolTable;
