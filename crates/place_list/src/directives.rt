//! Whether code is strict (ECMA-262, Directive Prologues and Strict Mode Code).

ghost use Rattle.std.specs.Prelude.{◌≡◌};
ghost use Rattle.place_list.specs.Directives as spec;
ghost use Rattle.tree_nodes.specs.Tree.{alone, part};
ghost use Rattle.tree_nodes.specs.Views.{item_of, part_of};
ghost use Rattle.tree_places.specs.Places as places;

use tree_nodes::roles::word_at;
use tree_nodes::{Field, FieldList, Kind, Node, NodeList, Strict};

#[tactic(auto, unfolding(crate::specs::Directives::is_use_strict))]
fn use_strict_in(field: &Field) -> Option<bool>
    ensures { result ≡ spec.is_use_strict (part_of field.now) }
{
    match field {
        Field::Text(text) => Some(text.as_str() == "use strict"),
        _ => None,
    }
}

// Whether the second field is `use strict`; nothing where it is no text.
fn second_use_strict(fields: &FieldList) -> Option<bool>
    ensures { result ≡ spec.is_use_strict (part fields.now 1) }
{
    match fields.get(1) {
        Some(field) => use_strict_in(field),
        None => None,
    }
}

#[tactic(auto, unfolding(crate::specs::Directives::directive))]
fn directive(node: &Node) -> Option<bool>
    ensures { result ≡ spec.directive (alone node.now) }
{
    match node.kind {
        Kind::ExpressionStatement => second_use_strict(&node.fields),
        _ => None,
    }
}

#[tactic(auto, unfolding(crate::specs::Directives::directive))]
fn directive_in(item: &Option<Node>) -> Option<bool>
    ensures { result ≡ spec.directive (item_of item.now) }
{
    match item {
        Some(node) => directive(node),
        None => None,
    }
}

// Whether the directives that lead these statements include `use strict`.
fn directs(items: &NodeList) -> bool
    ensures { result ≡ places.directs items.now }
{
    for i in 0..items.len() {
        let Some(item) = items.get(i) else { break };
        match directive_in(item) {
            Some(true) => return true,
            Some(false) => {}
            None => return false,
        }
    }
    false
}

#[tactic(auto, unfolding(tree_places::specs::Places::list_items, tree_places::specs::Places::directs))]
fn directs_list(field: &Field) -> bool
    ensures { result ≡ places.directs (places.list_items (part_of field.now)) }
{
    match field {
        Field::List(items) => directs(items),
        _ => false,
    }
}

// Whether the i-th field is a list of statements that directs so.
fn directs_list_at(fields: &FieldList, i: u8) -> bool
    ensures { result ≡ places.directs (places.list_items (part fields.now i)) }
{
    match fields.get(i as usize) {
        Some(field) => directs_list(field),
        None => false,
    }
}

#[tactic(auto, unfolding(tree_places::specs::Places::block_items, tree_places::specs::Places::directs))]
fn directs_block(node: &Node) -> bool
    ensures { result ≡ places.directs (places.block_items (alone node.now)) }
{
    match node.kind {
        Kind::BlockStatement => directs_list_at(&node.fields, 0),
        _ => false,
    }
}

#[tactic(auto, unfolding(tree_places::specs::Places::block_items, tree_places::specs::Places::directs))]
fn directs_block_in(field: &Field) -> bool
    ensures { result ≡ places.directs (places.block_items (part_of field.now)) }
{
    match field {
        Field::Child(node) => directs_block(node),
        _ => false,
    }
}

// Whether the i-th field is a block that directs so.
fn directs_block_at(fields: &FieldList, i: u8) -> bool
    ensures { result ≡ places.directs (places.block_items (part fields.now i)) }
{
    match fields.get(i as usize) {
        Some(field) => directs_block_in(field),
        None => false,
    }
}

// Whether the code in a node with these fields is strict.
#[tactic(auto, unfolding(tree_places::specs::Places::strict_in))]
pub(crate) fn strict_in(strict: Strict, outside: bool, fields: &FieldList) -> bool
    ensures { result ≡ places.strict_in strict outside fields.now }
{
    match strict {
        Strict::AsOutside => outside,
        Strict::Always => true,
        Strict::ByList(i, j) => word_at(fields, i) == 1 || directs_list_at(fields, j),
        Strict::ByBlock(i) => outside || directs_block_at(fields, i),
    }
}
