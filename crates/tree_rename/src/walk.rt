//! The walk that renames, over the nodes in printing order. Each step takes the choices for what it
//! renames and for all that follows, and answers those that it leaves.

ghost use Rattle.std.specs.Prelude.{◌≡◌, IfOk, drop, map, string_bytes, option_map};
ghost use Rattle.tree_nodes.specs.Tree.{alone};
ghost use Rattle.tree_nodes.specs.Views.{part_of, parts_of, item_of, items_of};
ghost use Rattle.tree_places.specs.Chosen as chosen;
ghost use Rattle.tree_rename.specs.Renamed as spec;
ghost use Rattle.tree_rename.specs.Renamed.{count, renamed};

use std::alloc::{AllocError, Global};
use std::mem;
use tree_nodes::{Field, FieldList, Kind, Node, NodeList, TreeText, own_name_at};

#[tactic(auto, unfolding(crate::specs::Renamed::has_name))]
fn has_name(kind: Kind) -> bool
    ensures { result ≡ spec.has_name kind }
{
    match kind {
        Kind::Identifier | Kind::PrivateIdentifier => true,
        _ => false,
    }
}

// The choices for what lies inside a node.
#[tactic(auto, unfolding(crate::specs::Renamed::inner))]
fn inner(kind: Kind, choices: &[Option<u32>]) -> &[Option<u32>]
    ensures { result.now ≡ spec.inner kind choices.now }
{
    if has_name(kind) && !choices.is_empty() {
        &choices[1..]
    } else {
        choices
    }
}

// The name that the first choice gives.
#[tactic(auto, unfolding(tree_places::specs::Chosen::given_name))]
fn given_name<'n>(names: &'n [String], choices: &[Option<u32>]) -> Option<&'n String>
    ensures { option_map (λ s. string_bytes s.now) result
        ≡ chosen.given_name (map string_bytes names.now) choices.now }
{
    match choices.first() {
        Some(Some(i)) => names.get(*i as usize),
        _ => None,
    }
}

// Gives a place its name, where it gets one.
#[tactic(auto, unfolding(crate::specs::Renamed::named, tree_places::specs::Chosen::or_own))]
fn give_name(alloc: Global, fields: &mut [Field], name: Option<&String>) -> Result<(), AllocError>
    ensures { IfOk result (λ u. parts_of fields.new
        ≡ spec.named (option_map (λ s. string_bytes s.now) name.entry) (parts_of fields.old)) }
{
    let Some(name) = name else { return Ok(()) };
    if let Some(Field::Text(_)) = fields.first() {
        fields[0] = Field::Text(TreeText::from_string(String::from_str(alloc, name.as_str())?));
    }
    Ok(())
}

#[tactic(auto, unfolding(crate::specs::Renamed::off_at))]
fn turn_off(field: &mut Field)
    ensures { part_of field.new ≡ spec.off_at 0 (part_of field.old) }
{
    if let Field::Flag(flag) = field {
        *flag = false;
    }
}

// Takes the mark off that the i-th field is.
fn take_off(fields: FieldList, i: usize) -> FieldList
    ensures { result ≡ spec.off_at i fields }
{
    let mut items = fields.into_vec();
    if i < items.len() {
        turn_off(&mut items[i]);
    }
    FieldList::from_vec(items)
}

// The fields of a Property, with its shorthand mark off where its key and its value differ in name.
#[tactic(auto, unfolding(crate::specs::Renamed::settled))]
fn settle(fields: FieldList) -> FieldList
    ensures { result ≡ spec.settled fields }
{
    if own_name_at(&fields, 1) == own_name_at(&fields, 2) {
        fields
    } else {
        take_off(fields, 4)
    }
}

// The fields of a node, once those below are renamed.
#[tactic(auto, unfolding(crate::specs::Renamed::finished))]
fn finish(
    alloc: Global,
    kind: Kind,
    mut fields: Vec<Field>,
    names: &[String],
    choices: &[Option<u32>],
) -> Result<FieldList, AllocError>
    ensures { IfOk result (λ l. l ≡ spec.finished kind (map string_bytes names.now) choices.now
        (parts_of fields.items)) }
{
    match kind {
        Kind::Identifier | Kind::PrivateIdentifier => {
            give_name(alloc, &mut fields, given_name(names, choices))?;
            Ok(FieldList::from_vec(fields))
        }
        Kind::Property => Ok(settle(FieldList::from_vec(fields))),
        _ => Ok(FieldList::from_vec(fields)),
    }
}

#[cycle(rename)]
pub(crate) fn rename_node<'c>(
    alloc: Global,
    node: &mut Node,
    names: &[String],
    choices: &'c [Option<u32>],
) -> Result<&'c [Option<u32>], AllocError>
    ensures tree { IfOk result (λ left. alone node.new
        ≡ renamed (map string_bytes names.now) choices.now (alone node.old)) }
    ensures left { IfOk result (λ left. left.now ≡ drop (count (alone node.old)) choices.now) }
{
    let nothing = FieldList::from_vec(Vec::new(alloc));
    let mut fields = mem::replace(&mut node.fields, nothing).into_vec();
    let left = rename_fields(alloc, &mut fields, names, inner(node.kind, choices))?;
    node.fields = finish(alloc, node.kind, fields, names, choices)?;
    Ok(left)
}

#[cycle(rename)]
fn rename_fields<'c>(
    alloc: Global,
    fields: &mut [Field],
    names: &[String],
    choices: &'c [Option<u32>],
) -> Result<&'c [Option<u32>], AllocError>
    ensures tree { IfOk result (λ left. parts_of fields.new
        ≡ renamed (map string_bytes names.now) choices.now (parts_of fields.old)) }
    ensures left { IfOk result (λ left. left.now ≡ drop (count (parts_of fields.old)) choices.now) }
{
    let mut left = choices;
    for field in fields.iter_mut() {
        left = rename_field(alloc, field, names, left)?;
    }
    Ok(left)
}

#[cycle(rename)]
fn rename_field<'c>(
    alloc: Global,
    field: &mut Field,
    names: &[String],
    choices: &'c [Option<u32>],
) -> Result<&'c [Option<u32>], AllocError>
    ensures tree { IfOk result (λ left. part_of field.new
        ≡ renamed (map string_bytes names.now) choices.now (part_of field.old)) }
    ensures left { IfOk result (λ left. left.now ≡ drop (count (part_of field.old)) choices.now) }
{
    match field {
        Field::Child(node) => rename_node(alloc, node, names, choices),
        Field::List(list) => rename_list(alloc, list, names, choices),
        _ => Ok(choices),
    }
}

#[cycle(rename)]
fn rename_list<'c>(
    alloc: Global,
    list: &mut NodeList,
    names: &[String],
    choices: &'c [Option<u32>],
) -> Result<&'c [Option<u32>], AllocError>
    ensures tree { IfOk result (λ left. list.new
        ≡ renamed (map string_bytes names.now) choices.now list.old) }
    ensures left { IfOk result (λ left. left.now ≡ drop (count list.old) choices.now) }
{
    let mut items = mem::replace(list, NodeList::from_vec(Vec::new(alloc))).into_vec();
    let left = rename_items(alloc, &mut items, names, choices)?;
    *list = NodeList::from_vec(items);
    Ok(left)
}

#[cycle(rename)]
fn rename_items<'c>(
    alloc: Global,
    items: &mut [Option<Node>],
    names: &[String],
    choices: &'c [Option<u32>],
) -> Result<&'c [Option<u32>], AllocError>
    ensures tree { IfOk result (λ left. items_of items.new
        ≡ renamed (map string_bytes names.now) choices.now (items_of items.old)) }
    ensures left { IfOk result (λ left. left.now ≡ drop (count (items_of items.old)) choices.now) }
{
    let mut left = choices;
    for item in items.iter_mut() {
        left = rename_item(alloc, item, names, left)?;
    }
    Ok(left)
}

#[cycle(rename)]
fn rename_item<'c>(
    alloc: Global,
    item: &mut Option<Node>,
    names: &[String],
    choices: &'c [Option<u32>],
) -> Result<&'c [Option<u32>], AllocError>
    ensures tree { IfOk result (λ left. item_of item.new
        ≡ renamed (map string_bytes names.now) choices.now (item_of item.old)) }
    ensures left { IfOk result (λ left. left.now ≡ drop (count (item_of item.old)) choices.now) }
{
    match item {
        Some(node) => rename_node(alloc, node, names, choices),
        None => Ok(choices),
    }
}
