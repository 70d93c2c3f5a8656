//! The flags of symbols: of each what its declaring places have together.

ghost use Rattle.std.specs.Prelude.{◌≡◌, IfOk, map};
ghost use Rattle.std.specs.List.{range_with_len};
ghost use Rattle.number_tables.specs.GroupsOf.{group_at, group_count, items_of};
ghost use Rattle.syntax_sem.specs.Bits as bits;
ghost use Rattle.syntax_sem.specs.SymbolFlags.{bits_of};
ghost use Rattle.tree_symbols.specs.Flags.{flags_of};
ghost use Rattle.tree_symbols.specs.Known.{IsRowBelow, declared_by};

use crate::flags::role_flags;
use crate::known::KnownPlace;
use crate::rows::declared_symbols;
use bitflags::Flags;
use number_tables::Groups;
use std::alloc::{AllocError, Global};
use syntax_sem::symbol::SymbolFlags;

// The flags of so many symbols, by a row of their numbers and what each place declares. Err is want of memory.
pub(crate) fn symbol_flags(
    alloc: Global,
    count: usize,
    row: &[Option<u32>],
    places: &[KnownPlace<'_>],
) -> Result<Vec<SymbolFlags>, AllocError>
    requires { IsRowBelow count row.now }
    ensures { IfOk result (λ v. map bits_of v.items ≡ map (λ k. bits.union_of (items_of k (map (declared_by row.now) places.now) (flags_of places.now))) (range_with_len 0 count)) }
{
    let declared = declared_symbols(alloc, row, places)?;
    let by_place = list_flags(alloc, places)?;
    let groups = Groups::new(alloc, count, declared.as_slice(), by_place.as_slice())?;
    let flags = unions(alloc, &groups)?;
    Ok(flags)
}

// What each place declares, as flags.
fn list_flags(alloc: Global, places: &[KnownPlace<'_>]) -> Result<Vec<SymbolFlags>, AllocError>
    ensures { IfOk result (λ v. map bits_of v.items ≡ flags_of places.now) }
{
    let mut flags = Vec::new(alloc);
    for known in places {
        flags.push(role_flags(known.place.setting.role))?;
    }
    Ok(flags)
}

// Of each group what its sets have together.
fn unions(alloc: Global, groups: &Groups<SymbolFlags>) -> Result<Vec<SymbolFlags>, AllocError>
    ensures { IfOk result (λ v. map bits_of v.items ≡ map (λ k. bits.union_of (map bits_of (group_at groups.now k))) (range_with_len 0 (group_count groups.now))) }
{
    let mut flags = Vec::new(alloc);
    for k in 0..groups.len() {
        flags.push(union(groups.get(k)))?;
    }
    Ok(flags)
}

// All of these together, from the last to the first.
fn union(sets: &[SymbolFlags]) -> SymbolFlags
    ensures { bits_of result ≡ bits.union_of (map bits_of sets.now) }
{
    let mut all = SymbolFlags::NONE;
    let mut left = sets.len();
    while left > 0 {
        left -= 1;
        all = sets[left].union(all);
    }
    all
}
