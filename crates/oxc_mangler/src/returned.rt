//! What the mangler answers.

use syntax_sem::scope::ScopeId;
use tree_semantic::{PrivateNames, Scoping};

/// The symbols of a program under their new names, and the new private names.
#[derive(Drop)]
pub struct ManglerReturn<'t> {
    /// The symbols, each that gets a new name under it.
    pub scoping: Scoping<'t>,
    /// The new names of private names, by class.
    pub class_private_mappings: PrivateNames<'t>,
    /// A scope in which as many bindings are in use as names are given: the root where none is.
    pub busiest: ScopeId,
    /// How many different names are given to bindings.
    pub names: u32,
}

/// The new private names, where the names of symbols are set in the analysis itself.
#[derive(Drop)]
pub struct NameResult<'t> {
    /// The new names of private names, by class.
    pub class_private_mappings: PrivateNames<'t>,
    /// A scope in which as many bindings are in use as names are given: the root where none is.
    pub busiest: ScopeId,
    /// How many different names are given to bindings.
    pub names: u32,
}
