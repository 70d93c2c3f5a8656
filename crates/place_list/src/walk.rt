//! The walk that finds the tables of a tree, in printing order.

ghost use Rattle.std.specs.Prelude.{◌≡◌, IfOk, map, drop, length, option_copied, slice_get};
ghost use Rattle.place_list.specs.TableViews.{around_view, list_view};
ghost use Rattle.place_list.specs.TableWalk as spec;
ghost use Rattle.tree_nodes.specs.Along.{all, each, first_column};
ghost use Rattle.tree_nodes.specs.Rows.{column_of};
ghost use Rattle.tree_nodes.specs.Tree.{alone, text_of};
ghost use Rattle.tree_nodes.specs.Views.{item_of, part_of};

use crate::directives::strict_in;
use crate::fields::{Around, at_field, opened, side};
use crate::scope_kinds::{scope_kind, value_scope};
use crate::setting::{ScopeKind, Setting};
use crate::tables::{ClassEntry, HeadEntry, NodeEntry, PlaceEntry, PlaceList, ScopeEntry};
use std::alloc::AllocError;
use tree_nodes::{
    Class, Column, Field, FieldList, Mark, Mode, Node, NodeList, Opens, Role, Strict, row,
};

// A count as a number. More than these have no room in the tables.
pub(crate) fn number(count: usize) -> Result<u32, AllocError>
    ensures { IfOk result (λ n. n ≡ count) }
{
    if count > 0xFFFF_FFFF {
        return Err(AllocError);
    }
    Ok(count as u32)
}

fn text_in(field: &Field) -> &str
    ensures { result.now ≡ text_of (part_of field.now) }
{
    match field {
        Field::Text(text) => text.as_str(),
        _ => "",
    }
}

// The text that the first field is.
fn first_text(fields: &FieldList) -> &str
    ensures { result.now ≡ text_of fields.now }
{
    match fields.get(0) {
        Some(field) => text_in(field),
        None => "",
    }
}

#[tactic(auto, unfolding(crate::specs::TableWalk::put_entry))]
fn put_entry(
    opened: Option<u32>,
    outer: Option<u32>,
    list: &mut PlaceList<'_>,
) -> Result<(), AllocError>
    ensures { IfOk result (λ _. list_view list.new ≡ spec.put_entry opened outer (list_view list.old)) }
{
    if let Some(scope) = opened {
        list.heads.push(HeadEntry {
            scope,
            parent: outer,
        })?;
    }
    Ok(())
}

#[tactic(auto, unfolding(crate::specs::TableWalk::put_head))]
fn put_head(
    mark: Mark,
    opened: Option<u32>,
    outer: Option<u32>,
    list: &mut PlaceList<'_>,
) -> Result<(), AllocError>
    ensures { IfOk result (λ _. list_view list.new ≡ spec.put_head mark opened outer (list_view list.old)) }
{
    match mark {
        Mark::Head => put_entry(opened, outer, list),
        _ => Ok(()),
    }
}

// What holds in a field, and its head put into the table where it is one.
#[tactic(auto, unfolding(crate::specs::TableWalk::after_field))]
fn stand_in(
    column: &Column,
    around: &Around<'_>,
    list: &mut PlaceList<'_>,
) -> Result<Setting, AllocError>
    ensures here { IfOk result (λ here. here
        ≡ spec.at_field (column_of column.now) (around_view around.now) (length (list_view list.old).heads)) }
    ensures put { IfOk result (λ _. list_view list.new
        ≡ spec.after_field (column_of column.now) (around_view around.now) (list_view list.old)) }
{
    let next = number(list.heads.len())?;
    let here = at_field(column, around, next);
    let outer = side(column.inside, around).head;
    put_head(column.mark, around.inside.scope, outer, list)?;
    Ok(here)
}

// What holds inside a node that opens this.
#[tactic(auto, unfolding(crate::specs::TableWalk::inside_of))]
fn inside_of(
    opens: Opens,
    strict: Strict,
    fields: &FieldList,
    here: Setting,
    list: &PlaceList<'_>,
) -> Result<Setting, AllocError>
    ensures { IfOk result (λ inside. inside ≡ spec.inside_of opens strict fields.now here (list_view list.now)) }
{
    let scopes = number(list.scopes.len())?;
    let class_bodies = number(list.class_bodies.len())?;
    let strict = strict_in(strict, here.strict, fields);
    Ok(opened(opens, scopes, class_bodies, Setting { strict, ..here }))
}

// Takes down a node in this field, where nodes are listed.
#[tactic(auto, unfolding(crate::specs::TableWalk::listed_node))]
fn list_node<'t>(
    node: &'t Node,
    around: &Around<'_>,
    here: Setting,
    list: &mut PlaceList<'t>,
) -> Result<(), AllocError>
    ensures { IfOk result (λ _. list_view list.new ≡ spec.listed_node (around_view around.now) here node.now (list_view list.old)) }
{
    if list.lists_nodes {
        list.node_entries.push(NodeEntry {
            node,
            parent: around.number,
            scope: here.scope,
        })?;
    }
    Ok(())
}

// Counts a node, and takes down the scope of this kind or the class body that it opens, or the place that it is.
#[tactic(auto, unfolding(crate::specs::TableWalk::met, crate::specs::TableWalk::put_scope, tree_places::specs::Lineage::opens_scope))]
fn meet<'t>(
    opens: Opens,
    kind: ScopeKind,
    start: u32,
    here: Setting,
    inside: Setting,
    fields: &'t FieldList,
    list: &mut PlaceList<'t>,
) -> Result<(), AllocError>
    ensures { IfOk result (λ _. list_view list.new
        ≡ spec.met opens start here inside.var_scope (text_of fields.now) (spec.put_scope opens kind here inside (list_view list.old))) }
{
    let node = list.nodes;
    list.nodes = node.checked_add(1).ok_or(AllocError)?;
    let scope = ScopeEntry {
        parent: here.scope,
        var_scope: inside.var_scope,
        node,
        kind,
        strict: inside.strict,
    };
    match opens {
        Opens::Nothing => {}
        Opens::Block | Opens::Hoisting => {
            list.scopes.push(scope)?;
        }
        Opens::BareBlock => {
            if !here.bare {
                list.scopes.push(scope)?;
            }
        }
        Opens::WithBody => {
            list.scopes.push(scope)?;
            list.withs.push(here.scope)?;
        }
        Opens::ClassMembers => {
            list.class_bodies.push(ClassEntry {
                parent: here.class_body,
            })?;
        }
        Opens::NameHere => {
            list.places.push(PlaceEntry {
                node,
                start,
                private: false,
                setting: here,
                name: first_text(fields),
                name_number: 0,
            })?;
        }
        Opens::PrivateNameHere => {
            list.places.push(PlaceEntry {
                node,
                start,
                private: true,
                setting: here,
                name: first_text(fields),
                name_number: 0,
            })?;
        }
    }
    Ok(())
}

// For what stands past the last column.
pub(crate) const UNLISTED: Column = Column {
    key: "",
    class: Class::Flag,
    mode: Mode::Gives(Role::Plain),
    inside: false,
    mark: Mark::Usual,
    omit: false,
};

// `columns.get(i)`, with its answer as one equation.
fn get_column(columns: &[Column], i: usize) -> Option<&Column>
    ensures { option_copied result ≡ slice_get columns.now i }
{
    columns.get(i)
}

fn column_at(columns: &[Column], i: usize) -> Column
    ensures { column_of result ≡ first_column (each (drop i (map column_of columns.now))) }
{
    match get_column(columns, i) {
        Some(column) => *column,
        None => UNLISTED,
    }
}

#[cycle(walk)]
pub(crate) fn walk_node<'t>(
    node: &'t Node,
    column: &Column,
    around: &Around<'_>,
    list: &mut PlaceList<'t>,
) -> Result<(), AllocError>
    ensures { IfOk result (λ _. list_view list.new
        ≡ spec.walk (alone node.now) (all (column_of column.now)) (around_view around.now) (list_view list.old)) }
{
    let here = stand_in(column, around, list)?;
    let row = row(node.kind);
    let inside = inside_of(row.opens, row.strict, &node.fields, here, list)?;
    let within = Around {
        outside: here,
        inside,
        fields: &node.fields,
        number: list.nodes,
        value_scope: value_scope(node.kind, &node.fields),
    };
    let kind = scope_kind(node.kind, column, around.value_scope);
    list_node(node, around, here, list)?;
    meet(
        row.opens,
        kind,
        node.start,
        here,
        inside,
        &node.fields,
        list,
    )?;
    walk_fields(&node.fields, row.columns, &within, list)
}

#[cycle(walk)]
fn walk_fields<'t>(
    fields: &'t FieldList,
    columns: &[Column],
    around: &Around<'_>,
    list: &mut PlaceList<'t>,
) -> Result<(), AllocError>
    ensures { IfOk result (λ _. list_view list.new
        ≡ spec.walk fields.now (each (map column_of columns.now)) (around_view around.now) (list_view list.old)) }
{
    for i in 0..fields.len() {
        let Some(field) = fields.get(i) else { break };
        let column = column_at(columns, i);
        walk_field(field, &column, around, list)?;
    }
    Ok(())
}

#[cycle(walk)]
fn walk_field<'t>(
    field: &'t Field,
    column: &Column,
    around: &Around<'_>,
    list: &mut PlaceList<'t>,
) -> Result<(), AllocError>
    ensures { IfOk result (λ _. list_view list.new
        ≡ spec.walk (part_of field.now) (all (column_of column.now)) (around_view around.now) (list_view list.old)) }
{
    match field {
        Field::Child(node) => walk_node(node, column, around, list),
        Field::List(nodes) => walk_nodes(nodes, column, around, list),
        _ => Ok(()),
    }
}

#[cycle(walk)]
pub(crate) fn walk_nodes<'t>(
    nodes: &'t NodeList,
    column: &Column,
    around: &Around<'_>,
    list: &mut PlaceList<'t>,
) -> Result<(), AllocError>
    ensures { IfOk result (λ _. list_view list.new
        ≡ spec.walk nodes.now (all (column_of column.now)) (around_view around.now) (list_view list.old)) }
{
    for i in 0..nodes.len() {
        let Some(item) = nodes.get(i) else { break };
        walk_item(item, column, around, list)?;
    }
    Ok(())
}

#[cycle(walk)]
fn walk_item<'t>(
    item: &'t Option<Node>,
    column: &Column,
    around: &Around<'_>,
    list: &mut PlaceList<'t>,
) -> Result<(), AllocError>
    ensures { IfOk result (λ _. list_view list.new
        ≡ spec.walk (item_of item.now) (all (column_of column.now)) (around_view around.now) (list_view list.old)) }
{
    match item {
        Some(node) => walk_node(node, column, around, list),
        None => Ok(()),
    }
}
