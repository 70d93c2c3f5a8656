//! The walk that gives a tree its names and shorthand marks, over the nodes in printing order. Each step takes
//! what is given from there on, and answers what it leaves.

ghost use Rattle.std.specs.Prelude.{◌≡◌, IfOk, drop, map};
ghost use Rattle.name_map.specs.Filled as spec;
ghost use Rattle.name_map.specs.Filled.{after, filled};
ghost use Rattle.name_map.specs.Views.{given_view};
ghost use Rattle.tree_nodes.specs.Tree.{alone};
ghost use Rattle.tree_nodes.specs.Views.{part_of, parts_of, item_of, items_of};
ghost use Rattle.tree_places.specs.Renaming.{is_property};
ghost use Rattle.tree_rename.specs.Renamed.{has_name};

use std::alloc::{AllocError, Global};
use std::mem;
use tree_nodes::{Field, FieldList, Kind, Node, NodeList, TreeText};

/// Names for places and marks for Properties, the first first.
#[derive(Clone, Copy)]
pub(crate) struct Given<'g> {
    pub(crate) names: &'g [&'g str],
    pub(crate) marks: &'g [bool],
}

#[tactic(auto, unfolding(tree_rename::specs::Renamed::has_name))]
fn has_name(kind: Kind) -> bool
    ensures { result ≡ has_name kind }
{
    match kind {
        Kind::Identifier | Kind::PrivateIdentifier => true,
        _ => false,
    }
}

#[tactic(auto, unfolding(tree_places::specs::Renaming::is_property))]
pub(crate) fn is_property(kind: Kind) -> bool
    ensures { result ≡ is_property kind }
{
    match kind {
        Kind::Property => true,
        _ => false,
    }
}

// All but the first.
fn rest<T>(items: &[T]) -> &[T]
    ensures { result.now ≡ drop 1 items.now }
{
    if items.is_empty() { items } else { &items[1..] }
}

// What a node of this kind leaves to its fields.
fn inside<'g>(kind: Kind, given: Given<'g>) -> Given<'g>
    ensures { given_view result ≡ spec.inside kind (given_view given.entry) }
{
    Given {
        names: if has_name(kind) {
            rest(given.names)
        } else {
            given.names
        },
        marks: if is_property(kind) {
            rest(given.marks)
        } else {
            given.marks
        },
    }
}

fn first_name<'g>(names: &[&'g str]) -> &'g str
    ensures { result.now ≡ spec.first_name (map (λ x. x.now) names.now) }
{
    match names.first() {
        Some(name) => *name,
        None => "",
    }
}

fn first_mark(marks: &[bool]) -> bool
    ensures { result ≡ spec.first_mark marks.now }
{
    match marks.first() {
        Some(mark) => *mark,
        None => false,
    }
}

// Gives a place its name.
#[tactic(auto, unfolding(crate::specs::Filled::called))]
fn give_name(alloc: Global, fields: &mut [Field], name: &str) -> Result<(), AllocError>
    ensures { IfOk result (λ u. parts_of fields.new ≡ spec.called name.now (parts_of fields.old)) }
{
    if let Some(Field::Text(_)) = fields.first() {
        fields[0] = Field::Text(TreeText::from_string(String::from_str(alloc, name)?));
    }
    Ok(())
}

#[tactic(auto, unfolding(crate::specs::Filled::flag_put))]
fn turn(field: &mut Field, mark: bool)
    ensures { part_of field.new ≡ spec.flag_put 0 mark (part_of field.old) }
{
    if let Field::Flag(flag) = field {
        *flag = mark;
    }
}

// Gives the i-th field this flag.
fn put_flag(fields: FieldList, i: usize, mark: bool) -> FieldList
    ensures { result ≡ spec.flag_put i mark fields }
{
    let mut items = fields.into_vec();
    if i < items.len() {
        turn(&mut items[i], mark);
    }
    FieldList::from_vec(items)
}

// The fields of a node with its own name or mark.
#[tactic(auto, unfolding(crate::specs::Filled::own_filled))]
fn fill_own(
    alloc: Global,
    kind: Kind,
    mut fields: Vec<Field>,
    given: Given<'_>,
) -> Result<FieldList, AllocError>
    ensures { IfOk result (λ l. l ≡ spec.own_filled kind (given_view given.entry) (parts_of fields.items)) }
{
    match kind {
        Kind::Identifier | Kind::PrivateIdentifier => {
            give_name(alloc, &mut fields, first_name(given.names))?;
            Ok(FieldList::from_vec(fields))
        }
        Kind::Property => Ok(put_flag(FieldList::from_vec(fields), 4, first_mark(given.marks))),
        _ => Ok(FieldList::from_vec(fields)),
    }
}

#[cycle(fill)]
pub(crate) fn fill_node<'g>(
    alloc: Global,
    node: &mut Node,
    given: Given<'g>,
) -> Result<Given<'g>, AllocError>
    ensures tree { IfOk result (λ left. alone node.new ≡ filled (given_view given.entry) (alone node.old)) }
    ensures left { IfOk result (λ left. given_view left ≡ after (alone node.old) (given_view given.entry)) }
{
    let nothing = FieldList::from_vec(Vec::new(alloc));
    let mut fields = mem::replace(&mut node.fields, nothing).into_vec();
    let left = fill_fields(alloc, &mut fields, inside(node.kind, given))?;
    node.fields = fill_own(alloc, node.kind, fields, given)?;
    Ok(left)
}

#[cycle(fill)]
fn fill_fields<'g>(
    alloc: Global,
    fields: &mut [Field],
    given: Given<'g>,
) -> Result<Given<'g>, AllocError>
    ensures tree { IfOk result (λ left. parts_of fields.new ≡ filled (given_view given.entry) (parts_of fields.old)) }
    ensures left { IfOk result (λ left. given_view left ≡ after (parts_of fields.old) (given_view given.entry)) }
{
    let mut left = given;
    for field in fields.iter_mut() {
        left = fill_field(alloc, field, left)?;
    }
    Ok(left)
}

#[cycle(fill)]
fn fill_field<'g>(
    alloc: Global,
    field: &mut Field,
    given: Given<'g>,
) -> Result<Given<'g>, AllocError>
    ensures tree { IfOk result (λ left. part_of field.new ≡ filled (given_view given.entry) (part_of field.old)) }
    ensures left { IfOk result (λ left. given_view left ≡ after (part_of field.old) (given_view given.entry)) }
{
    match field {
        Field::Child(node) => fill_node(alloc, node, given),
        Field::List(list) => fill_list(alloc, list, given),
        _ => Ok(given),
    }
}

#[cycle(fill)]
fn fill_list<'g>(
    alloc: Global,
    list: &mut NodeList,
    given: Given<'g>,
) -> Result<Given<'g>, AllocError>
    ensures tree { IfOk result (λ left. list.new ≡ filled (given_view given.entry) list.old) }
    ensures left { IfOk result (λ left. given_view left ≡ after list.old (given_view given.entry)) }
{
    let mut items = mem::replace(list, NodeList::from_vec(Vec::new(alloc))).into_vec();
    let left = fill_items(alloc, &mut items, given)?;
    *list = NodeList::from_vec(items);
    Ok(left)
}

#[cycle(fill)]
fn fill_items<'g>(
    alloc: Global,
    items: &mut [Option<Node>],
    given: Given<'g>,
) -> Result<Given<'g>, AllocError>
    ensures tree { IfOk result (λ left. items_of items.new ≡ filled (given_view given.entry) (items_of items.old)) }
    ensures left { IfOk result (λ left. given_view left ≡ after (items_of items.old) (given_view given.entry)) }
{
    let mut left = given;
    for item in items.iter_mut() {
        left = fill_item(alloc, item, left)?;
    }
    Ok(left)
}

#[cycle(fill)]
fn fill_item<'g>(
    alloc: Global,
    item: &mut Option<Node>,
    given: Given<'g>,
) -> Result<Given<'g>, AllocError>
    ensures tree { IfOk result (λ left. item_of item.new ≡ filled (given_view given.entry) (item_of item.old)) }
    ensures left { IfOk result (λ left. given_view left ≡ after (item_of item.old) (given_view given.entry)) }
{
    match item {
        Some(node) => fill_node(alloc, node, given),
        None => Ok(given),
    }
}
