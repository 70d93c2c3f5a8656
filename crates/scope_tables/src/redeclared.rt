//! Whether a place declares a name again where it may not.

ghost use Rattle.std.specs.Prelude.{◌≡◌, ◌∷◌, ◌++◌, [], List, OnOk};
ghost use Rattle.std.specs.List.{Contains};
ghost use Rattle.place_list.specs.TableViews.{place_in};
ghost use Rattle.place_list.specs.declared.tables.PlaceEntry.{PlaceEntry};
ghost use Rattle.place_list.specs.declared.tables.PlaceList.{PlaceList};
ghost use Rattle.scope_rules.specs.Bindings.{same_name};
ghost use Rattle.scope_rules.specs.Faults.{is_redeclaration};
ghost use Rattle.scope_tables.specs.EarlierPlaces.{HoldsEarlier};
ghost use Rattle.scope_tables.specs.Views.{AllStand, Stands, places_of};

use crate::firsts::put_place;
use crate::key::Key;
use crate::sites::{Declaring, declares_plainly, is_joinable, key_of};
use place_list::{PlaceEntry, PlaceList};
use std::alloc::{AllocError, Global};
use std::collections::BTreeMap;

/// What the places so far declare: by names in scopes the first place that declares the name there,
/// function-names aside, and the first one beside which no other may.
#[derive(Drop)]
pub struct Earlier {
    plain: BTreeMap<Key, u32>,
    singles: BTreeMap<Key, u32>,
}

impl Earlier {
    /// That of no place.
    pub fn new(alloc: Global) -> Earlier
        ensures { (l : PlaceList) (all : List PlaceEntry) → HoldsEarlier l all [] result }
    {
        let plain = BTreeMap::new(alloc);
        let singles = BTreeMap::new(alloc);
        Earlier { plain, singles }
    }

    /// Takes in one place more. Err is want of memory.
    pub fn put(&mut self, list: &PlaceList<'_>, place: &PlaceEntry<'_>) -> Result<(), AllocError>
        requires { Stands list.now place.now }
        ensures { OnOk result ((all some : List PlaceEntry) → AllStand list.now all → Contains all place.now → HoldsEarlier list.now all some self.old → HoldsEarlier list.now all (some ++ place.now ∷ []) self.new) }
    {
        put_place(&mut self.plain, list, place, Declaring::Plainly)?;
        put_place(&mut self.singles, list, place, Declaring::Singly)?;
        Ok(())
    }

    /// Whether a place may not declare its name beside those so far.
    pub fn is_redeclaration(&self, list: &PlaceList<'_>, place: &PlaceEntry<'_>) -> bool
        requires { Stands list.now place.now }
        ensures { (all some : List PlaceEntry) → Contains all place.now → HoldsEarlier list.now all some self.now → result ≡ is_redeclaration same_name (places_of list.now some) (place_in list.now place.now) }
    {
        if !declares_plainly(place) {
            return false;
        }
        let key = key_of(place);
        self.plain.contains_key(&key)
            && (self.singles.contains_key(&key) || !is_joinable(list, place))
    }
}
