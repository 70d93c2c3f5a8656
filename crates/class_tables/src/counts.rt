//! How many private names lie around a class body, those of open classes aside.

ghost use Rattle.std.specs.Prelude.{◌≡◌, ◌<◌, ◌≤◌, ◌^◌, ◌+◌, ◌*◌, ℕ, List, IfOk, IfSome, get_or, length};
ghost use Rattle.name_rules.specs.PrivateNumbers.{closed_count};
ghost use Rattle.tree_places.specs.Places.{Place};
ghost use Rattle.class_tables.specs.Counts.{AreFlagsOf, AreShort, count_around, count_at};
ghost use Rattle.class_tables.specs.Outwards.{Falls, chain, outer};
ghost use Rattle.class_tables.specs.Tables.{AreTablesOf};

use crate::class_table::ClassTable;
use crate::nearest::outer;
use place_list::ClassEntry;
use std::alloc::{AllocError, Global};

// Of each class body how many private names it and those around it declare, those of open classes aside.
// Each count is taken from the one of the class body outwards. Err is want of memory.
pub(crate) fn closed_counts(
    alloc: Global,
    tables: &[ClassTable<'_>],
    bodies: &[ClassEntry],
    flags: &[bool],
) -> Result<Vec<usize>, AllocError>
    requires fall { Falls (outer bodies.now) }
    requires tables { length tables.now ≡ length bodies.now }
    requires flags { length flags.now ≡ length bodies.now }
    requires few { length bodies.now < 2 ^ 31 }
    requires short { AreShort tables.now }
    ensures counts { IfOk result (λ v. (ps : List Place) → AreTablesOf tables.now ps → AreFlagsOf flags.now ps → (k : ℕ) → k < length bodies.now → get_or v.items k 0 ≡ closed_count ps (chain (outer bodies.now) k)) }
    ensures len { IfOk result (λ v. length v.items ≡ length bodies.now) }
{
    let mut counts = Vec::new(alloc);
    for class in 0..bodies.len() {
        counts.push(count_at(tables, bodies, flags, counts.as_slice(), class))?;
    }
    Ok(counts)
}

// The count of a class body, by those before it.
fn count_at(
    tables: &[ClassTable<'_>],
    bodies: &[ClassEntry],
    flags: &[bool],
    counts: &[usize],
    class: usize,
) -> usize
    requires fall { Falls (outer bodies.now) }
    requires tables { class < length tables.now }
    requires flags { class < length flags.now }
    requires few { class < 2 ^ 31 }
    requires short { AreShort tables.now }
    requires before { length counts.now ≡ class }
    requires bounded { (k : ℕ) → k < class → get_or counts.now k 0 ≤ 4294967296 * (k + 1) }
    ensures count { result ≡ count_at tables.now flags.now (outer bodies.now) counts.now class }
    ensures bounded { result ≤ 4294967296 * (class + 1) }
{
    let around = count_around(counts, outer(bodies, class as u32));
    if flags[class] {
        around
    } else {
        around + tables[class].names.as_slice().len()
    }
}

// The count of a class body outwards, or of none.
#[tactic(auto, unfolding(crate::specs::Counts::count_around))]
pub(crate) fn count_around(counts: &[usize], outwards: Option<u32>) -> usize
    requires { IfSome outwards (λ p. p < length counts.now) }
    ensures { result ≡ count_around counts.now outwards }
{
    match outwards {
        Some(class) => counts[class as usize],
        None => 0,
    }
}
