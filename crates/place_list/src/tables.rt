//! The tables of a tree's scopes, class bodies, heads and places. The number of an entry is its index.

use crate::setting::{ScopeKind, Setting};
use tree_nodes::Node;

/// A scope.
#[derive(Clone, Copy)]
pub struct ScopeEntry {
    /// The scope around it.
    pub parent: Option<u32>,
    /// The nearest scope, from this one outwards, that a `var` may declare in.
    pub var_scope: Option<u32>,
    /// The number of the node that opens it.
    pub node: u32,
    pub kind: ScopeKind,
    /// Whether the code in it is strict.
    pub strict: bool,
}

/// A class body.
#[derive(Clone, Copy)]
pub struct ClassEntry {
    /// The class body around it.
    pub parent: Option<u32>,
}

/// A head: a node of the parameters of a function, or of the pattern of a catch clause.
#[derive(Clone, Copy)]
pub struct HeadEntry {
    /// The scope of the function or of the catch clause.
    pub scope: u32,
    /// The head around it.
    pub parent: Option<u32>,
}

/// A place: an Identifier or a PrivateIdentifier of the tree, with all that holds where it stands.
#[derive(Clone, Copy)]
pub struct PlaceEntry<'t> {
    /// The number of its node in printing order.
    pub node: u32,
    /// Where its node starts in the source text.
    pub start: u32,
    /// Whether it is a PrivateIdentifier.
    pub private: bool,
    pub setting: Setting,
    pub name: &'t str,
    /// The number of its name, which the places of other names don't have.
    pub name_number: u32,
}

/// A node. Its own number is its index.
#[derive(Clone, Copy)]
pub struct NodeEntry<'t> {
    pub node: &'t Node,
    /// The number of the node around it: its own at the root.
    pub parent: u32,
    /// The scope in which it stands, which is not the one that it opens itself.
    pub scope: Option<u32>,
}

/// The tables of a tree, each in printing order.
#[derive(Drop)]
pub struct PlaceList<'t> {
    /// How many nodes the tree has.
    pub nodes: u32,
    pub scopes: Vec<ScopeEntry>,
    pub class_bodies: Vec<ClassEntry>,
    pub heads: Vec<HeadEntry>,
    pub places: Vec<PlaceEntry<'t>>,
    /// The scopes around the WithStatements.
    pub withs: Vec<Option<u32>>,
    /// How many different names the places have.
    pub names: u32,
    /// Whether the nodes are listed too.
    pub lists_nodes: bool,
    pub node_entries: Vec<NodeEntry<'t>>,
}
