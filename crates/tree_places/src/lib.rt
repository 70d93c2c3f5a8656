//! The places of names in a tree, and their scopes: definitions that contracts cite.
//!
//! The definitions stand in `specs/`: scopes, places, what a renamed tree is, and the lineages and
//! enclosing nodes of places. The functions here do nothing: each has a law as its contract.
#![tactic(auto)]

mod laws;

pub use laws::{
    enclosing_nodes_tell, numbers_rise, placed_trees_are_rooted, renaming_moves_no_place,
    scopes_are_nearest, var_scopes_lie_outside,
};
