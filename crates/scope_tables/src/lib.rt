//! What each place of any tree is bound to, and which faults its scopes have, by look-ups alone.
#![tactic(auto)]

mod bound;
mod crossing;
mod declarations;
mod faults;
mod firsts;
mod key;
mod node_index;
mod place_faults;
mod private_names;
mod reach;
mod reach_sets;
mod redeclared;
mod resolve;
mod resolved;
pub mod roles;
pub mod sets;
pub mod sites;
mod sloppy;
mod tables;
mod undeclared;

pub use bound::{BoundPlace, bound_place};
pub use declarations::Declarations;
pub use faults::Faults;
pub use resolved::Resolved;
pub use tables::ScopeTables;
