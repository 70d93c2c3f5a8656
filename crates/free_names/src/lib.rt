//! The names that mangling gives, in code: short names by their number, names that must not be given, the
//! free names, and which slot gets which.
#![tactic(auto)]

mod first_free;
mod guard;
mod names_by_weight;
mod next_name;
mod short_names;

pub use first_free::free_names;
pub use guard::Guard;
pub use names_by_weight::slot_names;
pub use next_name::free_name_from;
pub use short_names::base54;
