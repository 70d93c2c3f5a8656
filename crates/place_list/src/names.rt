//! Each different name gets a number. By an ordered map, since names come from strangers, who could
//! choose them to collide in a hash map whose seed is fixed.

ghost use Rattle.std.specs.Prelude.{◌≡◌, ◌<◌, IfOk, OnOk, Some, map};
ghost use Rattle.std.specs.List.{AllByRecursion};
ghost use Rattle.place_list.specs.Names.{AreNumbered, IsNumbering, KeepsNumbers, at_name};
ghost use Rattle.place_list.specs.TableViews.{entry_view};

use crate::tables::PlaceEntry;
use crate::walk::number;
use std::alloc::{AllocError, Global};
use std::collections::BTreeMap;

// Gives the places the numbers of their names, and answers how many names there are.
pub(crate) fn number_names<'t>(
    alloc: Global,
    places: &mut Vec<PlaceEntry<'t>>,
) -> Result<u32, AllocError>
    ensures same { OnOk result (map entry_view places.new.items ≡ map entry_view places.old.items) }
    ensures numbered { OnOk result (AreNumbered places.new.items) }
    ensures below { IfOk result (λ n. AllByRecursion (λ e. e.name_number < n) places.new.items) }
{
    let mut numbers = BTreeMap::new(alloc);
    for i in 0..places.len() {
        let place = places[i];
        let name_number = number_of(&mut numbers, place.name)?;
        places[i] = PlaceEntry {
            name_number,
            ..place
        };
    }
    number(numbers.len())
}

// The number of the name: the next one, if it has none yet.
fn number_of<'t>(numbers: &mut BTreeMap<&'t str, u32>, name: &'t str) -> Result<u32, AllocError>
    requires numbering { IsNumbering numbers.old }
    ensures number { IfOk result (λ k. at_name numbers.new name.now ≡ Some k) }
    ensures numbering { OnOk result (IsNumbering numbers.new) }
    ensures kept { OnOk result (KeepsNumbers numbers.old numbers.new) }
{
    match numbers.get(name).copied() {
        Some(given) => Ok(given),
        None => {
            let next = number(numbers.len())?;
            numbers.insert(name, next)?;
            Ok(next)
        }
    }
}
