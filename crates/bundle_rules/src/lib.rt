//! What it is to put modules into one scope: definitions that contracts cite.
//!
//! The functions here do nothing: each has a law as its contract.
#![tactic(auto)]

mod laws;

pub use laws::{
    bundles_have_no_fault, bundles_keep_bindings, bundles_keep_private_names, joining_moves_places,
    modules_share_no_binding,
};
