//! The Identifiers that a pattern or a declaration itself declares.

ghost use Rattle.std.specs.Prelude.{◌≡◌, ◌++◌, drop, length, option_copied, slice_get, IfOk, OnOk};
ghost use Rattle.tree_nodes.specs.Along.{each, first_column};
ghost use Rattle.tree_nodes.specs.Rows.{column_of};
ghost use Rattle.tree_nodes.specs.Table as table;
ghost use Rattle.tree_nodes.specs.Tree.{alone};
ghost use Rattle.tree_nodes.specs.Views.{part_of, item_of};
ghost use Rattle.tree_patterns.specs.BoundNames as spec;
ghost use Rattle.tree_patterns.specs.BoundNames.{bound, bound_in, trees_of};

use std::alloc::{AllocError, Global};
use std::marker::Model;
use tree_nodes::roles::role_at;
use tree_nodes::{Column, Declared, Field, FieldList, Kind, Node, NodeList, Role, get_column, row};

/// Nodes of a tree, by reference. Contracts see it as the list of them.
#[derive(Drop)]
pub struct NodeRefs<'t> {
    nodes: Vec<&'t Node>,
}

impl<'t> Model for NodeRefs<'t> {
    ghost use Rattle.std.specs.Prelude.{List};
    ghost use Rattle.std.specs.Coded.{coded_list};
    ghost use Rattle.tree_nodes.specs.Tree.{Tree};
    ghost use Rattle.tree_nodes.specs.TreeCode.{coded_tree};
    ghost use Rattle.tree_patterns.specs.BoundNames.{trees_of};

    ghost Value = { List Tree };

    ghost coded = { coded_list coded_tree };

    ghost view = { λ r. trees_of r.nodes.items };
}

impl<'t> NodeRefs<'t> {
    /// How many nodes there are.
    pub fn len(&self) -> usize
        ensures { result ≡ length self.now }
    {
        self.nodes.as_slice().len()
    }

    /// The i-th node. `None` past the end.
    pub fn get(&self, i: usize) -> Option<&'t Node>
        ensures { option_copied result ≡ slice_get self.now i }
    {
        self.nodes.as_slice().get(i).copied()
    }
}

/// The Identifiers that a pattern or a declaration itself declares, in printing order: of a
/// VariableDeclaration those of its declarators' `id`s, of a FunctionDeclaration or ClassDeclaration
/// its `id`; never one inside a default, a computed key, parameters or a body. An Identifier is a
/// pattern, and its own name. Of another node it is what the node would declare as a pattern: of an
/// ImportDeclaration its `local` names, of most nothing. Err is want of memory.
pub fn bound_names<'t>(alloc: Global, pattern: &'t Node) -> Result<NodeRefs<'t>, AllocError>
    ensures { IfOk result (λ names. names ≡ spec.bound_names pattern.now) }
{
    let mut nodes = Vec::new(alloc);
    bind_node(pattern, &mut nodes)?;
    Ok(NodeRefs { nodes })
}

// Whether a field declares, in a node with these fields that stands where it declares.
#[tactic(auto, unfolding(crate::specs::BoundNames::declares, tree_nodes::specs::Standing::declares_role))]
fn declares(column: &Column, fields: &FieldList) -> bool
    ensures { result ≡ spec.declares spec.declaring (column_of column.now) fields.now }
{
    !column.inside
        && matches!(
            role_at(column.mode, Role::Declares(Declared::Let), fields),
            Role::Declares(_)
        )
}

// Whether the i-th field of a node of this kind does so.
fn field_declares(kind: Kind, fields: &FieldList, i: usize) -> bool
    ensures { result ≡ spec.declares spec.declaring
        (first_column (each (drop i (table.row kind).columns))) fields.now }
{
    match get_column(row(kind).columns, i) {
        Some(column) => declares(column, fields),
        None => false,
    }
}

// Appends what a node binds. The functions below do the same for a node's fields, one field, and
// items of a list.
#[cycle(bind)]
fn bind_node<'t>(node: &'t Node, names: &mut Vec<&'t Node>) -> Result<(), AllocError>
    ensures { OnOk result (trees_of names.new.items
        ≡ trees_of names.old.items ++ bound_in (alone node.now)) }
{
    if !node.kind.is(Kind::Identifier) {
        return bind_fields(node.kind, &node.fields, names);
    }
    names.push(node)?;
    Ok(())
}

#[cycle(bind)]
fn bind_fields<'t>(
    kind: Kind,
    fields: &'t FieldList,
    names: &mut Vec<&'t Node>,
) -> Result<(), AllocError>
    ensures { OnOk result (trees_of names.new.items
        ≡ trees_of names.old.items ++ bound fields.now (each (table.row kind).columns) fields.now) }
{
    for i in 0..fields.len() {
        let Some(field) = fields.get(i) else { break };
        if field_declares(kind, fields, i) {
            bind_field(field, names)?;
        }
    }
    Ok(())
}

#[cycle(bind)]
fn bind_field<'t>(field: &'t Field, names: &mut Vec<&'t Node>) -> Result<(), AllocError>
    ensures { OnOk result (trees_of names.new.items
        ≡ trees_of names.old.items ++ bound_in (part_of field.now)) }
{
    match field {
        Field::Child(node) => bind_node(node, names),
        Field::List(nodes) => bind_items(nodes, names),
        _ => Ok(()),
    }
}

#[cycle(bind)]
fn bind_items<'t>(nodes: &'t NodeList, names: &mut Vec<&'t Node>) -> Result<(), AllocError>
    ensures { OnOk result (trees_of names.new.items
        ≡ trees_of names.old.items ++ bound_in nodes.now) }
{
    for i in 0..nodes.len() {
        let Some(item) = nodes.get(i) else { break };
        bind_item(item, names)?;
    }
    Ok(())
}

#[cycle(bind)]
fn bind_item<'t>(item: &'t Option<Node>, names: &mut Vec<&'t Node>) -> Result<(), AllocError>
    ensures { OnOk result (trees_of names.new.items
        ≡ trees_of names.old.items ++ bound_in (item_of item.now)) }
{
    match item {
        Some(node) => bind_node(node, names),
        None => Ok(()),
    }
}
