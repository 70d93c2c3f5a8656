//! What is found in a tree.

ghost use Rattle.std.specs.Prelude.{◌≡◌, IfOk};
ghost use Rattle.place_list.specs.TableViews.{nested_nodes_in, places_in};
ghost use Rattle.scope_report.specs.Found as spec;
ghost use Rattle.scope_report.specs.Found.{found_in};
ghost use Rattle.scope_report.specs.Views.{found_views};
ghost use Rattle.scope_tables.specs.WholeTree.{AreTables};

use crate::found::{FoundAt, push_verdict};
use crate::marks::Marks;
use crate::verdict::verdict_at;
use place_list::{PlaceList, list_places_and_nodes};
use scope_tables::ScopeTables;
use std::alloc::{AllocError, Global};
use tree_nodes::Node;

/// What is found in a tree. Err is want of memory, or of numbers.
pub fn find<'t>(alloc: Global, root: &'t Node) -> Result<Vec<FoundAt<'t>>, AllocError>
    ensures { IfOk result (λ v. found_views v.items ≡ found_in root.now) }
{
    let tables = ScopeTables::build(alloc, root)?;
    let nodes = list_places_and_nodes(alloc, root)?;
    find_by(alloc, &tables, &nodes)
}

// By the tables of the tree and the list of its nodes.
fn find_by<'t>(
    alloc: Global,
    tables: &ScopeTables<'t>,
    nodes: &PlaceList<'_>,
) -> Result<Vec<FoundAt<'t>>, AllocError>
    requires { AreTables tables.now }
    ensures { IfOk result (λ v. found_views v.items ≡ spec.found (nested_nodes_in nodes.now) (places_in tables.now.list)) }
{
    let marks = Marks::new(alloc, nodes, tables)?;
    let mut found = Vec::new(alloc);
    for i in 0..tables.list.places.len() {
        let place = tables.list.place(i);
        let verdict = verdict_at(tables, &marks, i);
        push_verdict(&mut found, &place, &verdict)?;
    }
    Ok(found)
}
