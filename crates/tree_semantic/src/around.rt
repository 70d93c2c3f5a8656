//! The class body around each class body, found by a pass over the nodes.

ghost use Rattle.std.specs.Prelude.{◌≡◌, ◌<◌, ◌≤◌, ◌-◌, ◌^◌, None, IfOk, IfSome, get_or, length, slice_get};
ghost use Rattle.syntax_sem.specs.NodeId.{number_of};
ghost use Rattle.tree_nodes.specs.Table as table;
ghost use Rattle.tree_places.specs.Enclosing.{is_class_body};
ghost use Rattle.tree_semantic.specs.ClassesAround as spec;
ghost use Rattle.tree_semantic.specs.ClassesAround.{found_of};
ghost use Rattle.tree_semantic.specs.Nodes.{nodes_in};

use crate::nodes::AstNodes;
use std::alloc::{AllocError, Global};
use syntax_sem::node::NodeId;
use tree_nodes::{Kind, Opens, row};

// What is found of the class bodies among the nodes so far.
#[derive(Drop)]
pub struct BodiesAround {
    // By the number of a node: the class body in which that lies which lies in the node.
    inside: Vec<Option<u32>>,
    // By the number of a class body: the one around it.
    parents: Vec<Option<u32>>,
}

impl BodiesAround {
    // Takes in the next node, which is a class body or isn't, in the node of this number.
    #[tactic(auto, unfolding(crate::specs::ClassesAround::with_node))]
    fn put(&mut self, is_body: bool, parent: usize) -> Result<(), AllocError>
        ensures { IfOk result (λ _. found_of self.new ≡ spec.with_node (found_of self.old) is_body parent) }
    {
        let around = number_or_none(self.inside.as_slice(), parent);
        if is_body {
            let own = number(self.parents.len())?;
            self.parents.push(around)?;
            self.inside.push(Some(own))?;
        } else {
            self.inside.push(around)?;
        }
        Ok(())
    }

    // Takes in a node.
    fn put_node(&mut self, nodes: &AstNodes<'_>, id: NodeId) -> Result<(), AllocError>
        requires { number_of id < length (nodes_in nodes.now) }
        ensures { IfOk result (λ _. IfSome (slice_get (nodes_in nodes.now) (number_of id))
            (λ n. found_of self.new ≡ spec.with_told (found_of self.old) n)) }
    {
        let kind = nodes.kind(id);
        let parent = nodes.parent_id(id);
        self.put(is_body(kind), parent.index())?;
        Ok(())
    }
}

// Whether nodes of a kind are class bodies.
fn is_body(kind: Kind) -> bool
    ensures { result ≡ is_class_body (table.row kind).opens }
{
    matches!(row(kind).opens, Opens::ClassMembers)
}

// A count as a number.
fn number(count: usize) -> Result<u32, AllocError>
    ensures { IfOk result (λ n. n ≡ count) }
{
    if count > 4_294_967_295 {
        return Err(AllocError);
    }
    Ok(count as u32)
}

// What a row has there, and none past its end.
pub(crate) fn number_or_none(row: &[Option<u32>], n: usize) -> Option<u32>
    ensures { result ≡ get_or row.now n None }
{
    if n < row.len() { row[n] } else { None }
}

// By the number of a class body: the one around it. Err is want of memory, or of numbers.
pub(crate) fn class_parents(
    alloc: Global,
    nodes: &AstNodes<'_>,
) -> Result<Vec<Option<u32>>, AllocError>
    requires few { length (nodes_in nodes.now) ≤ 2 ^ 32 - 1 }
    ensures { IfOk result (λ v. v.items ≡ spec.parents_told (nodes_in nodes.now)) }
{
    let mut found = BodiesAround {
        inside: Vec::new(alloc),
        parents: Vec::new(alloc),
    };
    for i in 0..nodes.len() {
        found.put_node(nodes, NodeId::from_usize(i))?;
    }
    Ok(found.parents)
}
