//! What other places say of a binding.

ghost use Rattle.std.specs.Prelude.{◌≡◌, ◌&&◌, IfOk, List, not};
ghost use Rattle.place_list.specs.Nodes.{NestedNode};
ghost use Rattle.place_list.specs.TableViews.{nested_nodes_in, places_in};
ghost use Rattle.scope_report.specs.Exports.{is_exported};
ghost use Rattle.scope_report.specs.Rules.{is_unused};
ghost use Rattle.scope_report.specs.Views.{AreMarks};
ghost use Rattle.scope_tables.specs.Views.{Stands, bound_of};
ghost use Rattle.scope_rules.specs.Bindings.{Bound, bound, same_name};
ghost use Rattle.scope_tables.specs.WholeTree.{AreTables};
ghost use Rattle.tree_nodes.specs.Tree.{Text};

use crate::exported::exported_bindings;
use crate::outer::is_root;
use crate::used::used_bindings;
use place_list::PlaceList;
use scope_tables::sets::has;
use scope_tables::sites::{home, is_binding};
use scope_tables::{BoundPlace, ScopeTables};
use std::alloc::{AllocError, Global};
use std::collections::BTreeSet;

/// The bindings that a reference has, and those of which a place declares in an export.
#[derive(Drop)]
pub struct Marks {
    pub used: BTreeSet<u32>,
    pub exported: BTreeSet<u32>,
}

impl Marks {
    /// Those of a tree whose nodes are listed. Err is want of memory.
    pub fn new(
        alloc: Global,
        nodes: &PlaceList<'_>,
        tables: &ScopeTables<'_>,
    ) -> Result<Self, AllocError>
        requires { AreTables tables.now }
        ensures { IfOk result (λ m. AreMarks (nested_nodes_in nodes.now) (bound same_name (places_in tables.now.list)) m) }
    {
        Ok(Marks {
            used: used_bindings(alloc, tables)?,
            exported: exported_bindings(alloc, nodes, tables)?,
        })
    }

    /// Whether the place is a binding that is neither used nor exported.
    pub fn is_unused(&self, list: &PlaceList<'_>, place: &BoundPlace<'_>) -> bool
        requires { Stands list.now place.now.place }
        ensures { (ns : List NestedNode) (bs : List (Bound Text)) → AreMarks ns bs self.now → result ≡ is_unused ns bs (bound_of list.now place.now) }
    {
        let own = is_binding(place);
        let used = has(&self.used, place.place.node);
        let exported = self.is_exported(list, place);
        is_left(own, used, exported)
    }

    // Whether it is exported from the root.
    fn is_exported(&self, list: &PlaceList<'_>, place: &BoundPlace<'_>) -> bool
        requires { Stands list.now place.now.place }
        ensures { (ns : List NestedNode) (bs : List (Bound Text)) → AreMarks ns bs self.now → result ≡ is_exported ns bs (bound_of list.now place.now) }
    {
        let declared = has(&self.exported, place.place.node);
        is_root(list, home(&place.place)) && declared
    }
}

// Whether it is a binding for which nothing speaks.
fn is_left(own: bool, used: bool, exported: bool) -> bool
    ensures { result ≡ (own && not used && not exported) }
{
    own && !used && !exported
}
