//! What a tree has at its places and at its Properties, in printing order.

ghost use Rattle.std.specs.Prelude.{◌≡◌, ◌++◌, ◌∷◌, [], IfOk, map, if◌then◌else◌};
ghost use Rattle.name_map.specs.Fits as fits;
ghost use Rattle.name_map.specs.Spots as spec;
ghost use Rattle.name_map.specs.Spots.{pairs};
ghost use Rattle.tree_nodes.specs.Tree.{alone};
ghost use Rattle.tree_nodes.specs.Views.{item_of, part_of};
ghost use Rattle.tree_places.specs.Places.{names as names_of};
ghost use Rattle.tree_places.specs.Renaming.{is_property, marks};

use crate::fill::is_property;
use place_list::{PlaceEntry, list_places};
use std::alloc::{AllocError, Global};
use tree_nodes::roles::flag_at;
use tree_nodes::{Field, FieldList, Kind, Node, NodeList, Role, own_name_at};

// Whether a place names no variable and no private member.
#[tactic(auto, unfolding(crate::specs::Spots::is_plain_entry))]
fn is_plain(place: &PlaceEntry<'_>) -> bool
    ensures { result ≡ spec.is_plain_entry place.now }
{
    !place.private && matches!(place.setting.role, Role::Plain | Role::MemberKey)
}

// Of each place, whether it is plain.
fn plain_places(alloc: Global, places: &[PlaceEntry<'_>]) -> Result<Vec<bool>, AllocError>
    ensures { IfOk result (λ bs. bs.items ≡ map spec.is_plain_entry places.now) }
{
    let mut plain = Vec::with_capacity(alloc, places.len())?;
    for place in places {
        plain.push(is_plain(place))?;
    }
    Ok(plain)
}

// The names of the places.
fn place_names<'t>(alloc: Global, places: &[PlaceEntry<'t>]) -> Result<Vec<&'t str>, AllocError>
    ensures { IfOk result (λ xs. map (λ x. x.now) xs.items ≡ map (λ e. e.name.now) places.now) }
{
    let mut names = Vec::with_capacity(alloc, places.len())?;
    for place in places {
        names.push(place.name)?;
    }
    Ok(names)
}

/// Of each place of a tree, its name and whether it is plain.
#[derive(Drop)]
pub(crate) struct Spots<'t> {
    pub(crate) names: Vec<&'t str>,
    pub(crate) plain: Vec<bool>,
}

/// The places of a tree. Err is want of memory.
pub(crate) fn list_spots<'t>(alloc: Global, root: &'t Node) -> Result<Spots<'t>, AllocError>
    ensures names { IfOk result (λ s. map (λ x. x.now) s.names.items ≡ names_of (alone root.now)) }
    ensures plain { IfOk result (λ s. s.plain.items ≡ fits.plain_places root.now) }
{
    let list = list_places(alloc, root)?;
    let names = place_names(alloc, list.places.as_slice())?;
    let plain = plain_places(alloc, list.places.as_slice())?;
    Ok(Spots { names, plain })
}

/// A Property: whether its shorthand mark is on, and whether its key and its value have one name.
#[derive(Clone, Copy)]
pub(crate) struct Pair {
    pub(crate) marked: bool,
    pub(crate) agrees: bool,
}

fn pair_at(fields: &FieldList) -> Pair
    ensures { result ≡ spec.pair fields.now }
{
    Pair {
        marked: flag_at(fields, 4),
        agrees: own_name_at(fields, 1) == own_name_at(fields, 2),
    }
}

/// The Properties of a tree. Err is want of memory.
pub(crate) fn list_pairs(alloc: Global, root: &Node) -> Result<Vec<Pair>, AllocError>
    ensures { IfOk result (λ ps. ps.items ≡ pairs (alone root.now)) }
{
    let mut list = Vec::new(alloc);
    list_node(root, &mut list)?;
    Ok(list)
}

// Their marks.
fn marks_in(alloc: Global, pairs: &[Pair]) -> Result<Vec<bool>, AllocError>
    ensures { IfOk result (λ bs. bs.items ≡ map (λ p. p.marked) pairs.now) }
{
    let mut marks = Vec::with_capacity(alloc, pairs.len())?;
    for pair in pairs {
        marks.push(pair.marked)?;
    }
    Ok(marks)
}

/// The shorthand marks of a tree. Err is want of memory.
pub(crate) fn list_marks(alloc: Global, root: &Node) -> Result<Vec<bool>, AllocError>
    ensures { IfOk result (λ bs. bs.items ≡ marks (alone root.now)) }
{
    let pairs = list_pairs(alloc, root)?;
    marks_in(alloc, pairs.as_slice())
}

// The pair that a node is itself.
fn list_own(kind: Kind, fields: &FieldList, list: &mut Vec<Pair>) -> Result<(), AllocError>
    ensures { IfOk result (λ _. list.new.items ≡ list.old.items ++ (if is_property kind then spec.pair fields.now ∷ [] else [])) }
{
    if is_property(kind) {
        list.push(pair_at(fields))?;
    }
    Ok(())
}

#[cycle(list)]
fn list_node(node: &Node, list: &mut Vec<Pair>) -> Result<(), AllocError>
    ensures { IfOk result (λ _. list.new.items ≡ list.old.items ++ pairs (alone node.now)) }
{
    list_own(node.kind, &node.fields, list)?;
    list_fields(&node.fields, list)
}

#[cycle(list)]
fn list_fields(fields: &FieldList, list: &mut Vec<Pair>) -> Result<(), AllocError>
    ensures { IfOk result (λ _. list.new.items ≡ list.old.items ++ pairs fields.now) }
{
    for i in 0..fields.len() {
        let Some(field) = fields.get(i) else { break };
        list_field(field, list)?;
    }
    Ok(())
}

#[cycle(list)]
fn list_field(field: &Field, list: &mut Vec<Pair>) -> Result<(), AllocError>
    ensures { IfOk result (λ _. list.new.items ≡ list.old.items ++ pairs (part_of field.now)) }
{
    match field {
        Field::Child(node) => list_node(node, list),
        Field::List(nodes) => list_nodes(nodes, list),
        _ => Ok(()),
    }
}

#[cycle(list)]
fn list_nodes(nodes: &NodeList, list: &mut Vec<Pair>) -> Result<(), AllocError>
    ensures { IfOk result (λ _. list.new.items ≡ list.old.items ++ pairs nodes.now) }
{
    for i in 0..nodes.len() {
        let Some(item) = nodes.get(i) else { break };
        list_item(item, list)?;
    }
    Ok(())
}

#[cycle(list)]
fn list_item(item: &Option<Node>, list: &mut Vec<Pair>) -> Result<(), AllocError>
    ensures { IfOk result (λ _. list.new.items ≡ list.old.items ++ pairs (item_of item.now)) }
{
    match item {
        Some(node) => list_node(node, list),
        None => Ok(()),
    }
}
