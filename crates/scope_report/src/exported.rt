//! The bindings that an export exports by a declaration.

ghost use Rattle.std.specs.Prelude.{◌≡◌, ◌||◌, ℕ, IfOk, Some, option_and_then, option_copied, slice_get};
ghost use Rattle.place_list.specs.TableViews.{nested_nodes_in, places_in};
ghost use Rattle.place_list.specs.declared.tables.PlaceList.{PlaceList};
ghost use Rattle.scope_report.specs.Exports as spec;
ghost use Rattle.scope_report.specs.Exports.{exports};
ghost use Rattle.scope_tables.specs.Sets.{HasMarked};
ghost use Rattle.scope_tables.specs.Views.{bound_of, site_in};
ghost use Rattle.scope_rules.specs.Bindings.{bound, is_node, same_name};
ghost use Rattle.scope_tables.specs.WholeTree.{AreTables};

use crate::roles::names_declaration;
use place_list::{NodeEntry, PlaceEntry, PlaceList};
use scope_tables::sets::put;
use scope_tables::sites::declares;
use scope_tables::{BoundPlace, ScopeTables, bound_place};
use std::alloc::{AllocError, Global};
use std::collections::BTreeSet;
use tree_nodes::{Kind, Node};

/// Those of a tree whose nodes are listed. Err is want of memory.
pub fn exported_bindings(
    alloc: Global,
    nodes: &PlaceList<'_>,
    tables: &ScopeTables<'_>,
) -> Result<BTreeSet<u32>, AllocError>
    requires { AreTables tables.now }
    ensures { IfOk result (λ s. HasMarked (exports (nested_nodes_in nodes.now)) (bound same_name (places_in tables.now.list)) s) }
{
    let mut exported = BTreeSet::new(alloc);
    for i in 0..tables.list.places.len() {
        let place = bound_place(tables, i);
        put(&mut exported, exported_binding(nodes, &place))?;
    }
    Ok(exported)
}

// The binding of a place that declares in an export.
fn exported_binding(nodes: &PlaceList<'_>, place: &BoundPlace<'_>) -> Option<u32>
    ensures { (l : PlaceList) (n : ℕ) → is_node result n ≡ exports (nested_nodes_in nodes.now) n (bound_of l place.now) }
{
    if !declares(&place.place) {
        return None;
    }
    if lies_in_export(nodes, &place.place) {
        place.binding
    } else {
        None
    }
}

// Whether what it declares is exported.
#[tactic(auto, unfolding(place_list::specs::Tables::site_of, place_list::specs::Tables::setting_of))]
fn lies_in_export(nodes: &PlaceList<'_>, place: &PlaceEntry<'_>) -> bool
    ensures { (l : PlaceList) → result ≡ ((site_in l place.now).setting.exported || spec.names_default (nested_nodes_in nodes.now) (site_in l place.now)) }
{
    place.setting.exported || names_default(nodes, place)
}

// Whether it names the declaration of a default export.
#[tactic(auto, unfolding(crate::specs::Exports::names_default, place_list::specs::Tables::site_of, place_list::specs::Tables::setting_of))]
fn names_default(nodes: &PlaceList<'_>, place: &PlaceEntry<'_>) -> bool
    ensures { (l : PlaceList) → result ≡ spec.names_default (nested_nodes_in nodes.now) (site_in l place.now) }
{
    names_declaration(place.setting.role)
        && exports_by_default(nodes, second_around(nodes, place.node))
}

// The node around the node around this one.
fn second_around(nodes: &PlaceList<'_>, node: u32) -> Option<u32>
    ensures { result ≡ option_and_then (spec.node_around (nested_nodes_in nodes.now)) (spec.node_around (nested_nodes_in nodes.now) node) }
{
    match node_around(nodes, node) {
        Some(around) => node_around(nodes, around),
        None => None,
    }
}

// The node around this one.
fn node_around(nodes: &PlaceList<'_>, node: u32) -> Option<u32>
    ensures { result ≡ spec.node_around (nested_nodes_in nodes.now) node }
{
    match entry_at(nodes.node_entries.as_slice(), node) {
        Some(entry) => Some(entry.parent),
        None => None,
    }
}

// The entry of this number.
fn entry_at<'l, 't>(entries: &'l [NodeEntry<'t>], node: u32) -> Option<&'l NodeEntry<'t>>
    ensures { option_copied result ≡ slice_get entries.now node }
{
    entries.get(node as usize)
}

// Whether it is a default export.
#[tactic(auto, unfolding(crate::specs::Exports::exports_by_default))]
fn exports_by_default(nodes: &PlaceList<'_>, node: Option<u32>) -> bool
    ensures { result ≡ spec.exports_by_default (nested_nodes_in nodes.now) node }
{
    match node {
        Some(node) => is_default_export_at(nodes, node),
        None => false,
    }
}

fn is_default_export_at(nodes: &PlaceList<'_>, node: u32) -> bool
    ensures { result ≡ spec.exports_by_default (nested_nodes_in nodes.now) (Some node) }
{
    match entry_at(nodes.node_entries.as_slice(), node) {
        Some(entry) => is_default_export(entry.node),
        None => false,
    }
}

fn is_default_export(node: &Node) -> bool
    ensures { result ≡ spec.is_default_export node.now.kind }
{
    is_default_export_kind(node.kind)
}

#[tactic(auto, unfolding(crate::specs::Exports::is_default_export))]
fn is_default_export_kind(kind: Kind) -> bool
    ensures { result ≡ spec.is_default_export kind }
{
    matches!(kind, Kind::ExportDefaultDeclaration)
}
