//! The names that mangling gives: definitions that contracts cite, and the laws on them.
//!
//! The definitions stand in `specs/`: kept bindings, groups and their slots, free names, given names, private
//! numbers, mangled trees, rivals and costs. The functions here do nothing: each has a law as its contract.
#![tactic(auto)]

mod bound_laws;
mod choice_laws;
mod laws;
mod rival_laws;
mod shortest_laws;

pub use bound_laws::names_are_bounded;
pub use choice_laws::chosen_names_are_new;
pub use laws::{
    given_names_keep_bindings, lengths_never_fall, live_together, live_up_to_home,
    new_names_mangle, private_names_keep_bindings, private_numbers_differ, short_is_one_to_one,
    short_names_are_identifiers, short_names_are_numbers, slot_names_keep_bindings,
    slots_are_fewest, slots_never_clash,
};
pub use rival_laws::no_rival_uses_fewer;
pub use shortest_laws::no_choice_is_shorter;
