//! A program under the names of a list.

ghost use Rattle.std.specs.Prelude.{◌≡◌, IfOk, None, length, map, replicate, slice_set, string_bytes, true, Some};
ghost use Rattle.name_map.specs.Choices.{choose};
ghost use Rattle.name_map.specs.Fits as fits;
ghost use Rattle.name_map.specs.Fits.{plain_places};
ghost use Rattle.name_map.specs.Undoing.{put_names};
ghost use Rattle.tree_nodes.specs.Tree.{alone};
ghost use Rattle.tree_places.specs.Places.{names as names_of};
ghost use Rattle.tree_places.specs.Renaming.{IsRenamed};

use crate::fits::names_fit;
use crate::list::PlaceNames;
use crate::spots::list_spots;
use std::alloc::{AllocError, Global};
use tree_core::Program;
use tree_rename::rename;

// No choice for any of so many places.
fn no_choices(alloc: Global, count: usize) -> Result<Vec<Option<u32>>, AllocError>
    ensures { IfOk result (λ cs. cs.items ≡ replicate count None) }
{
    let mut choices = Vec::with_capacity(alloc, count)?;
    for _i in 0..count {
        choices.push(None)?;
    }
    Ok(choices)
}

// Has a place take the name of this number.
fn choose_one(choices: &mut [Option<u32>], place: u32, number: u32)
    ensures { choices.new ≡ slice_set choices.old place (Some number) }
{
    if (place as usize) < choices.len() {
        choices[place as usize] = Some(number);
    }
}

// The choices that give a list's names to its places, of so many.
fn choices_of(
    alloc: Global,
    count: usize,
    names: &PlaceNames,
) -> Result<Vec<Option<u32>>, AllocError>
    ensures { IfOk result (λ cs. cs.items ≡ choose 0 names.now (replicate count None)) }
{
    let mut choices = no_choices(alloc, count)?;
    for i in 0..names.len() {
        let Some((place, _)) = names.get(i) else {
            break;
        };
        if i > 0xFFFF_FFFF {
            return Err(AllocError);
        }
        choose_one(&mut choices, place, i as u32);
    }
    Ok(choices)
}

// The names of a list.
fn texts(alloc: Global, names: &PlaceNames) -> Result<Vec<String>, AllocError>
    ensures { IfOk result (λ xs. map string_bytes xs.items ≡ map (λ o. o.name) names.now) }
{
    let mut texts = Vec::with_capacity(alloc, names.len())?;
    for i in 0..names.len() {
        let Some((_, name)) = names.get(i) else {
            break;
        };
        texts.push(String::from_str(alloc, name)?)?;
    }
    Ok(texts)
}

/// Whether a program's places can take the names of a list: the numbers strictly rise, each is that of a place
/// that isn't plain, and each name is an identifier name of at most 4,294,967,295 bytes. Err is want of memory.
pub fn can_take_names(
    alloc: Global,
    program: &Program,
    names: &PlaceNames,
) -> Result<bool, AllocError>
    ensures { IfOk result (λ b. b ≡ fits.names_fit (plain_places program.now) 0 names.now) }
{
    let spots = list_spots(alloc, program.root())?;
    Ok(names_fit(spots.plain.as_slice(), names))
}

/// A copy of the program in which the listed places have the listed names, and all others the names that they
/// had. A shorthand mark ends where the names of key and value no longer agree. Err is want of memory.
pub fn with_names(
    alloc: Global,
    program: &Program,
    names: &PlaceNames,
) -> Result<Program, AllocError>
    requires { fits.names_fit (plain_places program.now) 0 names.now ≡ true }
    ensures renamed { IfOk result (λ w. IsRenamed (alone program.now) (alone w)) }
    ensures names { IfOk result (λ w. names_of (alone w) ≡ put_names names.now (names_of (alone program.now))) }
{
    let spots = list_spots(alloc, program.root())?;
    let choices = choices_of(alloc, spots.plain.len(), names)?;
    let texts = texts(alloc, names)?;
    let copy = Program::from_root(program.root().try_clone(alloc)?);
    rename(alloc, copy, choices.as_slice(), texts.as_slice())
}
