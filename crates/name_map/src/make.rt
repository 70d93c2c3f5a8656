//! The map that undoes a renaming.

ghost use Rattle.std.specs.List.{AllByRecursion};
ghost use Rattle.std.specs.Prelude.{◌≡◌, ◌++◌, ◌∷◌, [], ◌&&◌, ◌||◌, not, IfOk, bytes_eq, map, ◌↔◌, IsTrue, if◌then◌else◌};
ghost use Rattle.name_map.specs.Fits.{Fits, plain_places};
ghost use Rattle.name_map.specs.Filled.{apply_map};
ghost use Rattle.name_map.specs.Kept as spec;
ghost use Rattle.name_map.specs.Made.{IsMapOf};
ghost use Rattle.name_map.specs.Sides.{AreSides};
ghost use Rattle.name_map.specs.Undoing.{IsOldName, IsSized, differing, old_name, taken_off};
ghost use Rattle.name_map.specs.Written.{IsMap};
ghost use Rattle.tree_core.specs.Program.{IsProgram};
ghost use Rattle.tree_nodes.specs.Tree.{alone};
ghost use Rattle.tree_places.specs.Renaming.{IsRenamed};

use crate::list::PlaceNames;
use crate::map::NameMap;
use crate::restoring::filled;
use crate::same::same_node;
use crate::spots::{Pair, Spots, list_marks, list_pairs, list_spots};
use std::alloc::{AllocError, Global};
use thiserror::Error;
use tree_core::Program;

/// Why no map was made.
#[derive(Debug, Drop, Error)]
pub enum MapError {
    /// The one program is not the other renamed.
    #[error("not renamed")]
    NotRenamed,
    #[error("out of memory")]
    Memory,
}

impl From<AllocError> for MapError {
    ghost use Rattle.std.specs.Prelude.{◌≡◌};
    ghost use Rattle.name_map.specs.declared.make.MapError.TheVariants.{Memory};

    ghost from_gives = { λ _ e. e ≡ Memory };

    fn from(_error: AllocError) -> MapError {
        MapError::Memory
    }
}

// Whether a name that may not change is the same.
fn is_kept(plain: bool, before: &str, after: &str) -> bool
    ensures { result ≡ (not plain || bytes_eq before.now after.now) }
{
    !plain || before == after
}

// Whether the names of plain places are the same.
fn keeps_plain(plain: &[bool], before: &[&str], after: &[&str]) -> bool
    ensures { result ≡ spec.keeps_plain plain.now (map (λ x. x.now) before.now) (map (λ x. x.now) after.now) }
{
    for i in 0..plain.len() {
        let Some(x) = before.get(i) else { break };
        let Some(y) = after.get(i) else { break };
        if !is_kept(plain[i], x, y) {
            return false;
        }
    }
    true
}

// Whether a mark is on where it was on and the names of key and value agree.
fn is_mark(before: bool, after: Pair) -> bool
    ensures { result ≡ (if before && after.agrees then after.marked else not after.marked) }
{
    if before && after.agrees {
        after.marked
    } else {
        !after.marked
    }
}

// Whether each mark is as it is to be.
fn keeps_marks(before: &[bool], after: &[Pair]) -> bool
    ensures { result ≡ spec.keeps_marks before.now after.now }
{
    for i in 0..before.len() {
        let Some(pair) = after.get(i) else { break };
        if !is_mark(before[i], *pair) {
            return false;
        }
    }
    true
}

// Appends the name that the i-th place had, where it has another. Err is want of memory, which a number too
// large for a map counts as.
fn list_name(names: &mut PlaceNames, i: usize, before: &str, after: &str) -> Result<(), AllocError>
    ensures names { IfOk result (λ _. names.new
        ≡ names.old ++ (if bytes_eq before.now after.now then [] else old_name i before.now ∷ [])) }
    ensures sized { IfOk result (λ _. AllByRecursion IsOldName names.old → AllByRecursion IsOldName names.new) }
{
    if before == after {
        return Ok(());
    }
    if i > 0xFFFF_FFFF {
        return Err(AllocError);
    }
    names.push(i as u32, before)
}

// The names that differ, as they were.
fn differing_names(alloc: Global, before: &[&str], after: &[&str]) -> Result<PlaceNames, AllocError>
    ensures names { IfOk result (λ ns. ns ≡ differing 0 (map (λ x. x.now) before.now) (map (λ x. x.now) after.now)) }
    ensures sized { IfOk result (λ ns. AllByRecursion IsOldName ns) }
{
    let mut names = PlaceNames::new(alloc);
    for i in 0..before.len() {
        let Some(x) = before.get(i) else { break };
        let Some(y) = after.get(i) else { break };
        list_name(&mut names, i, x, y)?;
    }
    Ok(names)
}

// Appends the number of a mark that was on and no longer is. Err is want of memory, which a number too large for
// a map counts as.
#[tactic(auto, using(crate::proofs::KeptSteps::sized_more))]
fn list_mark(marks: &mut Vec<u32>, i: usize, before: bool, after: bool) -> Result<(), AllocError>
    ensures taken { IfOk result (λ _. marks.new.items
        ≡ marks.old.items ++ (if before && not after then i ∷ [] else [])) }
    ensures sized { IfOk result (λ _. AllByRecursion IsSized marks.old.items → AllByRecursion IsSized marks.new.items) }
{
    if before && !after {
        if i > 0xFFFF_FFFF {
            return Err(AllocError);
        }
        marks.push(i as u32)?;
    }
    Ok(())
}

// The marks that were on and no longer are.
fn marks_taken(alloc: Global, before: &[bool], after: &[Pair]) -> Result<Vec<u32>, AllocError>
    ensures taken { IfOk result (λ ns. ns.items ≡ taken_off 0 before.now (map (λ p. p.marked) after.now)) }
    ensures sized { IfOk result (λ ns. AllByRecursion IsSized ns.items) }
{
    let mut marks = Vec::new(alloc);
    for i in 0..before.len() {
        let Some(pair) = after.get(i) else { break };
        list_mark(&mut marks, i, before[i], pair.marked)?;
    }
    Ok(marks)
}

// What tells a renaming: the places of two programs, the marks of the first, and the Properties of the second.
#[derive(Drop)]
struct Sides<'t> {
    before: Spots<'t>,
    after: Spots<'t>,
    marks: Vec<bool>,
    pairs: Vec<Pair>,
}

fn list_sides<'t>(
    alloc: Global,
    before: &'t Program,
    after: &'t Program,
) -> Result<Sides<'t>, AllocError>
    ensures { IfOk result (λ s. AreSides before.now after.now s) }
{
    Ok(Sides {
        before: list_spots(alloc, before.root())?,
        after: list_spots(alloc, after.root())?,
        marks: list_marks(alloc, before.root())?,
        pairs: list_pairs(alloc, after.root())?,
    })
}

fn all_three(a: bool, b: bool, c: bool) -> bool
    ensures { result ≡ (a && b && c) }
{
    a && b && c
}

// Whether the second program is the first renamed: it is, under the first's names and marks, the first; it has
// the first's plain names; and its marks are on where they were and the names of key and value agree.
fn is_renamed(
    alloc: Global,
    before: &Program,
    after: &Program,
    sides: &Sides<'_>,
) -> Result<bool, AllocError>
    requires { AreSides before.now after.now sides.now }
    ensures told { IfOk result (λ b. IsTrue b ↔ IsRenamed (alone before.now) (alone after.now)) }
    ensures program { IfOk result (λ _. IsProgram before.now) }
{
    let names = sides.before.names.as_slice();
    let marks = sides.marks.as_slice();
    let back = filled(alloc, after.root(), names, marks)?;
    let same = same_node(&back, before.root());
    let plain = keeps_plain(
        sides.before.plain.as_slice(),
        names,
        sides.after.names.as_slice(),
    );
    let marked = keeps_marks(marks, sides.pairs.as_slice());
    Ok(all_three(same, plain, marked))
}

/// The map that undoes a renaming: the old names of the places whose names differ, and the Properties whose
/// shorthand mark was taken off. It fits the second program, and `restore` gives back the first by it.
/// `NotRenamed` comes exactly where the second program is not the first renamed.
pub fn make_map(alloc: Global, before: &Program, after: &Program) -> Result<NameMap, MapError>
    ensures made { IfOk result (λ m. IsMapOf before.now after.now m) }
    ensures sized { IfOk result (λ m. IsMap m) }
    ensures fits { IfOk result (λ m. Fits after.now m) }
    ensures restores { IfOk result (λ m. apply_map after.now m ≡ before.now) }
    ensures not_renamed { result ≡ Err MapError.NotRenamed → ¬ IsRenamed (alone before.now) (alone after.now) }
{
    let sides = list_sides(alloc, before, after)?;
    if !is_renamed(alloc, before, after, &sides)? {
        return Err(MapError::NotRenamed);
    }
    let names = differing_names(
        alloc,
        sides.before.names.as_slice(),
        sides.after.names.as_slice(),
    )?;
    let taken = marks_taken(alloc, sides.marks.as_slice(), sides.pairs.as_slice())?;
    Ok(NameMap::new(names, taken))
}
