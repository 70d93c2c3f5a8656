//! What undoes a renaming.

ghost use Rattle.std.specs.Prelude.{◌≡◌};
ghost use Rattle.name_map.specs.Undoing.{undoing};

use crate::list::PlaceNames;
use std::marker::Model;

/// What undoes a renaming: the names that places had, and the numbers of the Properties whose shorthand mark
/// was on. Places, and Properties, are numbered from 0 in printing order.
#[derive(Drop)]
pub struct NameMap {
    names: PlaceNames,
    marks: Vec<u32>,
}

impl Model for NameMap {
    ghost use Rattle.name_map.specs.Undoing.{Undoing, coded_undoing, undoing};

    ghost Value = { Undoing };

    ghost coded = { coded_undoing };

    ghost view = { λ m. undoing m.names m.marks.items };
}

impl NameMap {
    // The map of these.
    pub(crate) fn new(names: PlaceNames, marks: Vec<u32>) -> Self
        ensures { result ≡ undoing names marks.items }
    {
        NameMap { names, marks }
    }

    /// The names that places had.
    pub fn names(&self) -> &PlaceNames
        ensures { result.now ≡ self.now.names }
    {
        &self.names
    }

    /// The numbers of the Properties whose shorthand mark was on.
    pub fn marks(&self) -> &[u32]
        ensures { result.now ≡ self.now.marks }
    {
        self.marks.as_slice()
    }
}
