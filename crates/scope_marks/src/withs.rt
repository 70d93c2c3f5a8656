//! The scopes that hold a WithStatement.

ghost use Rattle.std.specs.Prelude.{◌≡◌, IfOk, map};
ghost use Rattle.name_rules.specs.Kept.{holds_with};
ghost use Rattle.place_list.specs.Bounds.{IsBounded};
ghost use Rattle.place_list.specs.TableViews.{list_view, scopes_in, withs_in};

use crate::marks::mark_each;
use arena_core::BitSet;
use place_list::PlaceList;
use std::alloc::{AllocError, Allocator};

/// The scopes around a WithStatement, and those around these. Err is want of memory.
pub fn scopes_with_withs<A: Allocator>(
    alloc: A,
    list: &PlaceList<'_>,
) -> Result<BitSet<A>, AllocError>
    requires { IsBounded (list_view list.now) }
    ensures { IfOk result (λ bits. bits ≡ map (holds_with (withs_in list.now)) (scopes_in list.now)) }
{
    let mut bits = BitSet::new_in(alloc, list.scopes.len())?;
    mark_each(&mut bits, list, list.withs.as_slice());
    Ok(bits)
}
