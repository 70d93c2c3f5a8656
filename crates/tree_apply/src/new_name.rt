//! The new name of a place.

ghost use Rattle.std.specs.Prelude.{◌≡◌, IfOk, IfSome, Some, option_map, string_bytes, true};
ghost use Rattle.place_list.specs.TableViews.{place_in};
ghost use Rattle.place_list.specs.declared.tables.PlaceList.{PlaceList};
ghost use Rattle.std.specs.List.{Contains};
ghost use Rattle.syntax_sem.specs.ClassId as class_id;
ghost use Rattle.syntax_sem.specs.NodeId as node_id;
ghost use Rattle.tree_apply.specs.Applied.{HasFewBytes, differing, new_of, private_new, symbol_new};
ghost use Rattle.tree_nodes.specs.Tree.{Parts};
ghost use Rattle.tree_places.specs.Places.{Place, places};
ghost use Rattle.tree_semantic.specs.Renamed as renamed;
ghost use Rattle.tree_semantic.specs.Semantics.{IsSemantic, IsSemanticOf, scoping_of};
ghost use Rattle.tree_symbols.specs.Scopings.{name_set};

use place_list::PlaceEntry;
use std::alloc::{AllocError, Global};
use syntax_sem::class::ClassId;
use syntax_sem::node::NodeId;
use tree_semantic::{PrivateNames, Semantic};

// The new name of a place, if it gets one that differs from its own. Err is want of memory, or of numbers.
pub(crate) fn new_name(
    alloc: Global,
    semantic: &Semantic<'_>,
    mappings: &PrivateNames<'_>,
    place: &PlaceEntry<'_>,
) -> Result<Option<String>, AllocError>
    requires { IsSemantic semantic.now }
    ensures name { IfOk result (λ o. (l : PlaceList) (t : Parts) → IsSemanticOf t semantic.now → Contains (places t) (place_in l place.now) → option_map string_bytes o ≡ new_of (places t) (name_set (scoping_of semantic.now)) (renamed.new_name mappings.now) (place_in l place.now)) }
    ensures short { IfOk result (λ o. IfSome o (λ s. HasFewBytes (string_bytes s))) }
{
    let node = node_id(place.node)?;
    if place.private {
        private_name(alloc, semantic, mappings, node, place.name)
    } else {
        symbol_name(alloc, semantic, node, place.name)
    }
}

// The node of this number. Err is want of numbers.
fn node_id(node: u32) -> Result<NodeId, AllocError>
    ensures { IfOk result (λ n. node_id.number_of n ≡ node) }
{
    if node < 4_294_967_295 {
        Ok(NodeId::from_usize(node as usize))
    } else {
        Err(AllocError)
    }
}

// The new name that its class has for the private name at a node.
fn private_name(
    alloc: Global,
    semantic: &Semantic<'_>,
    mappings: &PrivateNames<'_>,
    node: NodeId,
    name: &str,
) -> Result<Option<String>, AllocError>
    requires { IsSemantic semantic.now }
    ensures name { IfOk result (λ o. (t : Parts) (p : Place) → IsSemanticOf t semantic.now → Contains (places t) p → p.site.private ≡ true → p.site.node ≡ node_id.number_of node → p.name ≡ name.now → option_map string_bytes o ≡ private_new (places t) (renamed.new_name mappings.now) p) }
    ensures short { IfOk result (λ o. IfSome o (λ s. HasFewBytes (string_bytes s))) }
{
    match semantic.classes().node_class(node) {
        Some(class) => class_name(alloc, mappings, class, name),
        None => Ok(None),
    }
}

// The new name that a class has for a private name.
fn class_name(
    alloc: Global,
    mappings: &PrivateNames<'_>,
    class: ClassId,
    name: &str,
) -> Result<Option<String>, AllocError>
    ensures name { IfOk result (λ o. option_map string_bytes o ≡ renamed.new_name mappings.now (class_id.number_of class) name.now) }
    ensures short { IfOk result (λ o. IfSome o (λ s. HasFewBytes (string_bytes s))) }
{
    if class.index() >= mappings.len() {
        return Ok(None);
    }
    match mappings.get(class, name) {
        Some(new) => short_copy(alloc, new.as_str()),
        None => Ok(None),
    }
}

// The name of the symbol at a node, if it differs from the name there.
fn symbol_name(
    alloc: Global,
    semantic: &Semantic<'_>,
    node: NodeId,
    name: &str,
) -> Result<Option<String>, AllocError>
    requires { IsSemantic semantic.now }
    ensures name { IfOk result (λ o. (t : Parts) (p : Place) → IsSemanticOf t semantic.now → Contains (places t) p → p.site.node ≡ node_id.number_of node → p.name ≡ name.now → option_map string_bytes o ≡ symbol_new (places t) (name_set (scoping_of semantic.now)) p) }
    ensures short { IfOk result (λ o. IfSome o (λ s. HasFewBytes (string_bytes s))) }
{
    let scoping = semantic.scoping();
    match scoping.node_symbol(node) {
        Some(symbol) => differing_name(alloc, scoping.symbol_name(symbol), name),
        None => Ok(None),
    }
}

// A name that differs from an old one. Err is want of memory.
#[tactic(auto, unfolding(crate::specs::Applied::differing, scope_rules::specs::Bindings::same_name))]
fn differing_name(alloc: Global, new: &str, old: &str) -> Result<Option<String>, AllocError>
    ensures name { IfOk result (λ o. option_map string_bytes o ≡ differing new.now old.now) }
    ensures short { IfOk result (λ o. IfSome o (λ s. HasFewBytes (string_bytes s))) }
{
    if new == old {
        return Ok(None);
    }
    short_copy(alloc, new)
}

// A copy of a text. Err is want of memory, or of numbers: texts have at most 4,294,967,295 bytes.
fn short_copy(alloc: Global, text: &str) -> Result<Option<String>, AllocError>
    ensures name { IfOk result (λ o. option_map string_bytes o ≡ Some text.now) }
    ensures short { IfOk result (λ o. IfSome o (λ s. HasFewBytes (string_bytes s))) }
{
    if text.len() > 4_294_967_295 {
        return Err(AllocError);
    }
    let copy = String::from_str(alloc, text)?;
    Ok(Some(copy))
}
