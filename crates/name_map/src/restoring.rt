//! A program under the names and marks that it had.

ghost use Rattle.std.specs.Prelude.{◌≡◌, IfOk, IsTrue, map};
ghost use Rattle.name_map.specs.Fits.{Fits};
ghost use Rattle.name_map.specs.Filled.{apply_map, filled_tree, given};
ghost use Rattle.name_map.specs.Made.{IsGivenBack};

use crate::fill::{Given, fill_node};
use crate::fits::{marks_fit, names_fit, put_marks, put_names};
use crate::map::NameMap;
use crate::spots::{list_marks, list_spots};
use std::alloc::{AllocError, Global};
use thiserror::Error;
use tree_core::Program;
use tree_nodes::{Node, is_placed};

/// Why a map was not applied.
#[derive(Debug, Drop, Error)]
pub enum RestoreError {
    /// It doesn't fit the program.
    #[error("bad map")]
    BadMap,
    #[error("out of memory")]
    Memory,
}

impl From<AllocError> for RestoreError {
    ghost use Rattle.std.specs.Prelude.{◌≡◌};
    ghost use Rattle.name_map.specs.declared.restoring.RestoreError.TheVariants.{Memory};

    ghost from_gives = { λ _ e. e ≡ Memory };

    fn from(_error: AllocError) -> RestoreError {
        RestoreError::Memory
    }
}

// A copy of a tree with these names and marks.
pub(crate) fn filled(
    alloc: Global,
    root: &Node,
    names: &[&str],
    marks: &[bool],
) -> Result<Node, AllocError>
    ensures { IfOk result (λ w. w ≡ filled_tree (given (map (λ x. x.now) names.now) marks.now) root.now) }
{
    let mut copy = root.try_clone(alloc)?;
    fill_node(alloc, &mut copy, Given { names, marks })?;
    Ok(copy)
}

/// The program with the names of a map at their places and its marks on: where the map was made of a renaming,
/// the program that was renamed. `BadMap` comes exactly where the map
/// doesn't fit: its numbers don't strictly rise, a place isn't there or is plain, a name is no identifier
/// name or too long, a mark isn't there or is on, or what would come is no program.
pub fn restore(alloc: Global, program: &Program, map: &NameMap) -> Result<Program, RestoreError>
    ensures fits { IfOk result (λ p. Fits program.now map.now) }
    ensures restored { IfOk result (λ p. p ≡ apply_map program.now map.now) }
    ensures given_back { IfOk result (λ p. IsGivenBack program.now map.now p) }
    ensures bad_map { result ≡ Err RestoreError.BadMap → ¬ Fits program.now map.now }
{
    let root = program.root();
    let spots = list_spots(alloc, root)?;
    let marks = list_marks(alloc, root)?;
    if !names_fit(spots.plain.as_slice(), map.names()) {
        return Err(RestoreError::BadMap);
    }
    if !marks_fit(marks.as_slice(), map.marks()) {
        return Err(RestoreError::BadMap);
    }
    let names = put_names(spots.names, map.names());
    let marks = put_marks(marks, map.marks());
    let restored = filled(alloc, root, names.as_slice(), marks.as_slice())?;
    if !is_placed(alloc, &restored) {
        return Err(RestoreError::BadMap);
    }
    Ok(Program::from_root(restored))
}
