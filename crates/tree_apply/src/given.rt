//! The names that are given to places.

ghost use Rattle.std.specs.Prelude.{◌≡◌, ◌++◌, ◌∷◌, [], IfOk, IfSome, None, OnOk, Some, length, map, option_map, string_bytes};
ghost use Rattle.place_list.specs.Bounds.{IsBounded};
ghost use Rattle.place_list.specs.TableViews.{list_view, places_in};
ghost use Rattle.tree_apply.specs.Applied.{HasFewBytes, new_of, numbered, taken};
ghost use Rattle.tree_nodes.specs.Tree.{Parts};
ghost use Rattle.tree_places.specs.Places.{places};
ghost use Rattle.tree_semantic.specs.Renamed.{new_name};
ghost use Rattle.tree_semantic.specs.Semantics.{IsSemantic, IsSemanticOf, scoping_of};
ghost use Rattle.tree_symbols.specs.Scopings.{name_set};
ghost use Rattle.std.specs.List.{AllByRecursion};

use crate::new_name::new_name;
use place_list::PlaceList;
use std::alloc::{AllocError, Global};
use tree_semantic::{PrivateNames, Semantic};

// Of each place the number of its new name, if it gets one, and the names.
#[derive(Drop)]
pub(crate) struct Given {
    pub choices: Vec<Option<u32>>,
    pub names: Vec<String>,
}

// The new names of the places of a tree, of which these are the list and the analysis. Err is want of memory.
pub(crate) fn find_given(
    alloc: Global,
    list: &PlaceList<'_>,
    semantic: &Semantic<'_>,
    mappings: &PrivateNames<'_>,
) -> Result<Given, AllocError>
    requires bounded { IsBounded (list_view list.now) }
    requires semantic { IsSemantic semantic.now }
    ensures choices { IfOk result (λ g. (t : Parts) → places_in list.now ≡ places t → IsSemanticOf t semantic.now → g.choices.items ≡ numbered 0 (map (new_of (places t) (name_set (scoping_of semantic.now)) (new_name mappings.now)) (places t))) }
    ensures names { IfOk result (λ g. (t : Parts) → places_in list.now ≡ places t → IsSemanticOf t semantic.now → map string_bytes g.names.items ≡ taken (map (new_of (places t) (name_set (scoping_of semantic.now)) (new_name mappings.now)) (places t))) }
    ensures short { IfOk result (λ g. AllByRecursion (λ s. HasFewBytes (string_bytes s)) g.names.items) }
{
    let mut given = Given {
        choices: Vec::new(alloc),
        names: Vec::new(alloc),
    };
    for i in 0..list.places.len() {
        let place = list.place(i);
        let name = new_name(alloc, semantic, mappings, &place)?;
        put(&mut given, name)?;
    }
    Ok(given)
}

// Puts the new name of a place, if it gets one. Err is want of memory, or of numbers.
fn put(given: &mut Given, name: Option<String>) -> Result<(), AllocError>
    requires { IfSome name (λ s. HasFewBytes (string_bytes s)) }
    ensures choices { OnOk result (given.new.choices.items ≡ given.old.choices.items ++ numbered (length given.old.names.items) (option_map string_bytes name ∷ [])) }
    ensures names { OnOk result (map string_bytes given.new.names.items ≡ map string_bytes given.old.names.items ++ taken (option_map string_bytes name ∷ [])) }
    ensures short { AllByRecursion (λ s. HasFewBytes (string_bytes s)) given.old.names.items → OnOk result (AllByRecursion (λ s. HasFewBytes (string_bytes s)) given.new.names.items) }
{
    match name {
        Some(name) => put_name(given, name),
        None => put_none(given),
    }
}

fn put_none(given: &mut Given) -> Result<(), AllocError>
    ensures choices { OnOk result (given.new.choices.items ≡ given.old.choices.items ++ None ∷ []) }
    ensures names { OnOk result (given.new.names.items ≡ given.old.names.items) }
{
    given.choices.push(None)?;
    Ok(())
}

fn put_name(given: &mut Given, name: String) -> Result<(), AllocError>
    ensures choices { OnOk result (given.new.choices.items ≡ given.old.choices.items ++ Some (length given.old.names.items) ∷ []) }
    ensures names { OnOk result (given.new.names.items ≡ given.old.names.items ++ name ∷ []) }
{
    let number = given.names.len();
    if number > 4_294_967_295 {
        return Err(AllocError);
    }
    given.choices.push(Some(number as u32))?;
    given.names.push(name)?;
    Ok(())
}
