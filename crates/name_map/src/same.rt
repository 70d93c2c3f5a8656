//! Whether two trees are the same.

ghost use Rattle.std.specs.Prelude.{◌≡◌, ◌↔◌, IsTrue};
ghost use Rattle.name_map.specs.Heads.{same_heads};
ghost use Rattle.tree_nodes.specs.Tree as tree;
ghost use Rattle.tree_nodes.specs.Tree.{alone, atom, done, many};
ghost use Rattle.tree_nodes.specs.Views.{part_of};

use oxc_str::JSText;
use tree_nodes::{Field, FieldList, Node, NodeList};

fn is_empty(field: &Field) -> bool
    ensures { IsTrue result ↔ (atom tree.empty done ≡ part_of field.now) }
{
    matches!(field, Field::Empty)
}

fn is_flag(field: &Field, flag: bool) -> bool
    ensures { IsTrue result ↔ (atom (tree.flag flag) done ≡ part_of field.now) }
{
    match field {
        Field::Flag(own) => *own == flag,
        _ => false,
    }
}

fn is_word(field: &Field, word: u8) -> bool
    ensures { IsTrue result ↔ (atom (tree.word word) done ≡ part_of field.now) }
{
    match field {
        Field::Word(own) => *own == word,
        _ => false,
    }
}

fn is_text(field: &Field, text: &str) -> bool
    ensures { IsTrue result ↔ (atom (tree.text text.now) done ≡ part_of field.now) }
{
    match field {
        Field::Text(own) => own.as_str() == text,
        _ => false,
    }
}

fn is_string(field: &Field, units: &JSText) -> bool
    ensures { IsTrue result ↔ (atom (tree.units units.now) done ≡ part_of field.now) }
{
    match field {
        Field::Str(own) => own == units,
        _ => false,
    }
}

fn is_whole(field: &Field, number: u64) -> bool
    ensures { IsTrue result ↔ (atom (tree.whole number) done ≡ part_of field.now) }
{
    match field {
        Field::Whole(own) => *own == number,
        _ => false,
    }
}

#[cycle(same)]
fn is_child(field: &Field, node: &Node) -> bool
    ensures { IsTrue result ↔ (alone node.now ≡ part_of field.now) }
{
    match field {
        Field::Child(own) => same_node(node, own),
        _ => false,
    }
}

#[cycle(same)]
fn is_list(field: &Field, nodes: &NodeList) -> bool
    ensures { IsTrue result ↔ (many nodes.now done ≡ part_of field.now) }
{
    match field {
        Field::List(own) => same_list(nodes, own),
        _ => false,
    }
}

// Whether two nodes are of one kind and stand at one place.
fn same_heads(a: &Node, b: &Node) -> bool
    ensures { result ≡ same_heads a.now b.now }
{
    a.kind.number() == b.kind.number() && a.start == b.start && a.end == b.end
}

/// Whether two nodes, with all below them, are the same.
#[cycle(same)]
pub(crate) fn same_node(a: &Node, b: &Node) -> bool
    ensures { IsTrue result ↔ (a.now ≡ b.now) }
{
    if !same_heads(a, b) {
        return false;
    }
    same_fields(&a.fields, &b.fields)
}

#[cycle(same)]
fn same_fields(a: &FieldList, b: &FieldList) -> bool
    ensures { IsTrue result ↔ (a.now ≡ b.now) }
{
    if a.len() != b.len() {
        return false;
    }
    for i in 0..a.len() {
        let Some(x) = a.get(i) else { break };
        let Some(y) = b.get(i) else { break };
        if !same_field(x, y) {
            return false;
        }
    }
    true
}

#[cycle(same)]
fn same_field(a: &Field, b: &Field) -> bool
    ensures { IsTrue result ↔ (part_of a.now ≡ part_of b.now) }
{
    match a {
        Field::Empty => is_empty(b),
        Field::Flag(flag) => is_flag(b, *flag),
        Field::Word(word) => is_word(b, *word),
        Field::Text(text) => is_text(b, text.as_str()),
        Field::Str(units) => is_string(b, units),
        Field::Whole(number) => is_whole(b, *number),
        Field::Child(node) => is_child(b, node),
        Field::List(nodes) => is_list(b, nodes),
    }
}

#[cycle(same)]
fn same_list(a: &NodeList, b: &NodeList) -> bool
    ensures { IsTrue result ↔ (a.now ≡ b.now) }
{
    if a.len() != b.len() {
        return false;
    }
    for i in 0..a.len() {
        let Some(x) = a.get(i) else { break };
        let Some(y) = b.get(i) else { break };
        if !same_item(x, y) {
            return false;
        }
    }
    true
}

#[cycle(same)]
fn same_item(a: &Option<Node>, b: &Option<Node>) -> bool
    ensures { IsTrue result ↔ (a.now ≡ b.now) }
{
    match a {
        Some(node) => is_node(b, node),
        None => b.is_none(),
    }
}

#[cycle(same)]
fn is_node(item: &Option<Node>, node: &Node) -> bool
    ensures { IsTrue result ↔ (Some node.now ≡ item.now) }
{
    match item {
        Some(own) => same_node(node, own),
        None => false,
    }
}
