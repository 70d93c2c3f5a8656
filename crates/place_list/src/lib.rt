//! The places of any tree in tables, found by one walk. Scopes, class bodies and heads have numbers there, and
//! the tables say what lies next outwards of each.
#![tactic(auto)]

mod directives;
mod fields;
mod laws;
mod list;
mod names;
mod outwards;
mod scope_kinds;
mod setting;
mod tables;
mod walk;

pub use laws::{nodes_are_numbered, openers_open_scopes, sites_are_nodes};
pub use list::{list_places, list_places_and_nodes};
pub use outwards::same_number;
pub use setting::{ScopeKind, Setting, Value};
pub use tables::{ClassEntry, HeadEntry, NodeEntry, PlaceEntry, PlaceList, ScopeEntry};
