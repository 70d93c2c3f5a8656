//! Which rules a place goes against.

ghost use Rattle.std.specs.Prelude.{◌≡◌, ◌<◌, List, Some, length, slice_get, take};
ghost use Rattle.place_list.specs.Nodes.{NestedNode};
ghost use Rattle.place_list.specs.TableViews.{places_in};
ghost use Rattle.place_list.specs.declared.tables.PlaceList.{PlaceList};
ghost use Rattle.scope_report.specs.Rules.{is_unresolved, verdict_on};
ghost use Rattle.scope_report.specs.Views.{AreMarks};
ghost use Rattle.scope_tables.specs.Views.{bound_of};
ghost use Rattle.scope_rules.specs.Bindings.{bound, same_name};
ghost use Rattle.scope_tables.specs.WholeTree.{AreTables};
ghost use Rattle.tree_places.specs.Places.{Place};

use crate::marks::Marks;
use crate::shadow::is_shadowing;
use scope_tables::sites::refers;
use scope_tables::{BoundPlace, Faults, ScopeTables, bound_place};

/// Which rules a place goes against.
#[derive(Clone, Copy)]
pub struct Verdict {
    pub faults: Faults,
    /// It is a binding that no reference has, and that no export exports.
    pub unused: bool,
    /// It is a reference without binding.
    pub unresolved: bool,
    /// It is a binding whose name a scope further out declares too.
    pub shadow: bool,
}

/// Which ones the i-th place does, from 0.
pub fn verdict_at(tables: &ScopeTables<'_>, marks: &Marks, i: usize) -> Verdict
    requires tables { AreTables tables.now }
    requires index { i < length tables.now.list.places.items }
    ensures { (ns : List NestedNode) (p : Place) → AreMarks ns (bound same_name (places_in tables.now.list)) marks.now → slice_get (places_in tables.now.list) i ≡ Some p → result ≡ verdict_on ns (places_in tables.now.list) (take i (places_in tables.now.list)) p }
{
    let place = bound_place(tables, i);
    Verdict {
        faults: tables.faults_at(i),
        unused: marks.is_unused(&tables.list, &place),
        unresolved: is_unresolved(&place),
        shadow: is_shadowing(tables, &place),
    }
}

// Whether it is a reference without binding.
#[tactic(auto, unfolding(crate::specs::Rules::is_unresolved, scope_tables::specs::Views::bound_of, place_list::specs::Tables::place_of))]
fn is_unresolved(place: &BoundPlace<'_>) -> bool
    ensures { (l : PlaceList) → result ≡ is_unresolved (bound_of l place.now) }
{
    refers(&place.place) && place.binding.is_none()
}
