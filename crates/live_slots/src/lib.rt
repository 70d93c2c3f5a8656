//! The slots of groups: groups that are never in use in one scope may share one. They are found with a set of
//! scopes for each slot, over the places of a tree and the groups that these are in.
#![tactic(auto)]

mod buckets;
mod busiest;
mod give;
mod given;
mod keys;
mod leaders;
mod place_slots;
mod slots;
mod weights;

pub use slots::{Slots, slots_of_groups};
