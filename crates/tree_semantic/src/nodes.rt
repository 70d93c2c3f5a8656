//! The nodes of a tree, by ids.

ghost use Rattle.std.specs.Prelude.{◌≡◌, ◌<◌, ◌≤◌, ◌-◌, ◌^◌, IfOk, IfSome, Some, length, map, slice_get};
ghost use Rattle.place_list.specs.TableViews.{nested_node_in, nested_nodes_in, scope_at};
ghost use Rattle.scope_rules.specs.Symbols.{own_number};
ghost use Rattle.syntax_sem.specs.NodeId.{number_of};
ghost use Rattle.syntax_sem.specs.ScopeId as scope_id;
ghost use Rattle.tree_semantic.specs.Nodes as spec;
ghost use Rattle.tree_semantic.specs.Nodes.{node_told, nodes_in};
ghost use Rattle.tree_symbols.specs.ReferenceTables.{or_root};

use place_list::{NodeEntry, PlaceList};
use std::alloc::{AllocError, Global};
use syntax_sem::node::NodeId;
use syntax_sem::scope::ScopeId;
use tree_nodes::{Kind, Node};

/// A node with the node around it and the scope in which it lies.
#[derive(Clone, Copy)]
pub struct AstNode<'t> {
    node: &'t Node,
    parent: NodeId,
    scope: ScopeId,
}

/// The nodes of a tree, in printing order.
#[derive(Drop)]
pub struct AstNodes<'t> {
    nodes: Vec<AstNode<'t>>,
}

impl<'t> AstNodes<'t> {
    /// The nodes that a list has. Err is want of memory, or of numbers: there are at most 2^32 - 1 nodes, and a
    /// parent and a scope have numbers below that.
    pub(crate) fn build(alloc: Global, list: &PlaceList<'t>) -> Result<Self, AllocError>
        ensures nodes { IfOk result (λ a. nodes_in a ≡ map spec.told (nested_nodes_in list.now)) }
        ensures few { IfOk result (λ a. length (nodes_in a) ≤ 2 ^ 32 - 1) }
    {
        let entries = list.node_entries.as_slice();
        if entries.len() > 4_294_967_295 {
            return Err(AllocError);
        }
        let nodes = list_nodes(alloc, list, entries)?;
        Ok(AstNodes { nodes })
    }

    /// How many there are.
    pub fn len(&self) -> usize
        ensures { result ≡ length (nodes_in self.now) }
    {
        self.nodes.len()
    }

    /// A node.
    pub fn node(&self, id: NodeId) -> &'t Node
        requires { number_of id < length (nodes_in self.now) }
        ensures { IfSome (slice_get (nodes_in self.now) (number_of id)) (λ n. result.now ≡ n.tree) }
    {
        let k = id.index();
        self.nodes[k].node
    }

    /// Its kind.
    pub fn kind(&self, id: NodeId) -> Kind
        requires { number_of id < length (nodes_in self.now) }
        ensures { IfSome (slice_get (nodes_in self.now) (number_of id)) (λ n. result ≡ n.tree.kind) }
    {
        let k = id.index();
        let node = self.nodes[k].node;
        node.kind
    }

    /// The node around it; the root's is itself.
    pub fn parent_id(&self, id: NodeId) -> NodeId
        requires { number_of id < length (nodes_in self.now) }
        ensures { IfSome (slice_get (nodes_in self.now) (number_of id)) (λ n. number_of result ≡ n.parent) }
    {
        let k = id.index();
        self.nodes[k].parent
    }

    /// The scope in which it lies, never the one that it opens itself; the root's is the root scope.
    pub fn scope_id(&self, id: NodeId) -> ScopeId
        requires { number_of id < length (nodes_in self.now) }
        ensures { IfSome (slice_get (nodes_in self.now) (number_of id)) (λ n. scope_id.number_of result ≡ n.scope) }
    {
        let k = id.index();
        self.nodes[k].scope
    }
}

// The nodes of these entries of a list. Err is want of memory or of numbers.
fn list_nodes<'t>(
    alloc: Global,
    list: &PlaceList<'t>,
    entries: &[NodeEntry<'t>],
) -> Result<Vec<AstNode<'t>>, AllocError>
    ensures { IfOk result (λ v. map node_told v.items ≡ map (λ e. spec.told (nested_node_in list.now e)) entries.now) }
{
    let mut nodes = Vec::new(alloc);
    for entry in entries {
        nodes.push(node_at(list, entry)?)?;
    }
    Ok(nodes)
}

// A node by ids, as a list has it. Err is want of numbers.
fn node_at<'t>(list: &PlaceList<'t>, entry: &NodeEntry<'t>) -> Result<AstNode<'t>, AllocError>
    ensures { IfOk result (λ n. node_told n ≡ spec.told (nested_node_in list.now entry.now)) }
{
    let scope = scope_of(list, entry.scope)?;
    let parent = parent_of(entry.parent)?;
    Ok(AstNode {
        node: entry.node,
        parent,
        scope,
    })
}

// The node of this number. Err is want of numbers.
fn parent_of(parent: u32) -> Result<NodeId, AllocError>
    ensures { IfOk result (λ n. number_of n ≡ parent) }
{
    if parent < 4_294_967_295 {
        Ok(NodeId::from_usize(parent as usize))
    } else {
        Err(AllocError)
    }
}

// The scope of this number, and the root where there is none. Err is want of numbers.
fn scope_of(list: &PlaceList<'_>, scope: Option<u32>) -> Result<ScopeId, AllocError>
    ensures { IfOk result (λ s. scope_id.number_of s ≡ or_root (own_number (scope_at list.now scope))) }
{
    match scope {
        Some(scope) => numbered_scope(list, scope),
        None => Ok(ScopeId::from_usize(0)),
    }
}

// The scope of this number, which is one of the list's. Err is want of numbers.
fn numbered_scope(list: &PlaceList<'_>, scope: u32) -> Result<ScopeId, AllocError>
    ensures { IfOk result (λ s. scope_id.number_of s ≡ or_root (own_number (scope_at list.now (Some scope)))) }
{
    if scope as usize >= list.scopes.len() {
        return Err(AllocError);
    }
    let id = scope_id_of(scope)?;
    Ok(id)
}

// The id of this number. Err is want of numbers.
fn scope_id_of(scope: u32) -> Result<ScopeId, AllocError>
    ensures { IfOk result (λ s. scope_id.number_of s ≡ scope) }
{
    if scope < 4_294_967_295 {
        Ok(ScopeId::from_usize(scope as usize))
    } else {
        Err(AllocError)
    }
}
