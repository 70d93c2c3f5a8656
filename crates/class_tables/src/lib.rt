//! The private names of a tree by class body, by look-ups alone, over its places: what each class body
//! declares, what each private name is bound to, and which classes are open.
#![tactic(auto)]

mod bindings;
mod class_table;
mod counts;
mod declared;
mod nearest;
mod open;
mod private_table;
mod roles;

pub use private_table::PrivateTable;
