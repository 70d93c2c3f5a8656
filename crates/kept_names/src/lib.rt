//! Which bindings keep their names, and which group each place belongs to, by look-ups alone over the tables of
//! a tree's scopes.
#![tactic(auto)]

mod assigned;
mod bound;
mod exported;
mod groups;
mod kept;
mod name_kept;
mod roles;
mod scope_flags;
mod symbols;
mod values;

pub use groups::groups_of_places;
pub use name_kept::names_kept;
pub use symbols::collect_name_symbols;
