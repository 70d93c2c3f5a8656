//! Names for places.

ghost use Rattle.std.specs.Prelude.{◌≡◌, ◌++◌, ◌∷◌, [], length, slice_get, option_map, IsUtf8, OnErr, OnOk};
ghost use Rattle.std.specs.List.{AllByRecursion};
ghost use Rattle.name_map.specs.Undoing.{old_name};

use std::alloc::{AllocError, Global};
use std::marker::Model;

// A name for the place with this number.
#[derive(Drop)]
struct PlaceName {
    place: u32,
    name: String,
}

/// Names for places, each with the number of its place. Places are numbered from 0 in printing order.
#[derive(Drop)]
pub struct PlaceNames {
    items: Vec<PlaceName>,
    alloc: Global,
}

impl Model for PlaceNames {
    ghost use Rattle.std.specs.Prelude.{List, map, string_bytes};
    ghost use Rattle.name_map.specs.Undoing.{OldName, coded_names, old_name};

    ghost Value = { List OldName };

    ghost coded = { coded_names };

    ghost view = { λ l. map (λ e. old_name e.place (string_bytes e.name)) l.items.items };
}

impl PlaceNames {
    /// No names yet.
    pub fn new(alloc: Global) -> Self
        ensures { result ≡ [] }
    {
        PlaceNames {
            items: Vec::new(alloc),
            alloc,
        }
    }

    /// Appends a name for a place. Err is want of memory, and the list is as before.
    pub fn push(&mut self, place: u32, name: &str) -> Result<(), AllocError>
        ensures ok { OnOk result (self.new ≡ self.old ++ old_name place name.now ∷ []) }
        ensures err { OnErr result (self.new ≡ self.old) }
    {
        let name = String::from_str(self.alloc, name)?;
        match self.items.push(PlaceName { place, name }) {
            Ok(()) => Ok(()),
            Err(_) => Err(AllocError),
        }
    }

    /// How many names there are.
    pub fn len(&self) -> usize
        ensures len { result ≡ length self.now }
        ensures texts { AllByRecursion (λ o. IsUtf8 o.name) self.now }
    {
        self.items.as_slice().len()
    }

    /// The i-th place and its name, in the order in which they were pushed. None past the end.
    pub fn get(&self, i: usize) -> Option<(u32, &str)>
        ensures { option_map (λ p. old_name p.0 p.1.now) result ≡ slice_get self.now i }
    {
        match self.items.as_slice().get(i) {
            Some(entry) => Some((entry.place, entry.name.as_str())),
            None => None,
        }
    }
}
