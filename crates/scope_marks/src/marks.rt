//! Marks from scopes outwards.

ghost use Rattle.std.specs.Prelude.{◌≡◌, length, map};
ghost use Rattle.std.specs.List.{AllByRecursion};
ghost use Rattle.place_list.specs.Bounds.{IsBelow, IsBounded};
ghost use Rattle.place_list.specs.TableViews.{list_view, scope_at};
ghost use Rattle.scope_marks.specs.Marks as spec;

use arena_core::BitSet;
use place_list::PlaceList;
use std::alloc::Allocator;

/// Marks a scope and those outwards of it, up to the first that is marked. None lies outside all of them.
pub fn mark_outwards<A: Allocator>(bits: &mut BitSet<A>, list: &PlaceList<'_>, scope: Option<u32>)
    requires bounded { IsBounded (list_view list.now) }
    requires room { length bits.old ≡ length list.now.scopes.items }
    requires scope { IsBelow (length list.now.scopes.items) scope }
    ensures { bits.new ≡ spec.mark_up bits.old (scope_at list.now scope) }
{
    let mut next = scope;
    while let Some(number) = next {
        if bits.has_bit(number as usize) {
            break;
        }
        bits.set_bit(number as usize);
        next = list.parent(number);
    }
}

/// Marks each of these scopes and those outwards of it, each time up to the first that is marked.
pub fn mark_each<A: Allocator>(bits: &mut BitSet<A>, list: &PlaceList<'_>, scopes: &[Option<u32>])
    requires bounded { IsBounded (list_view list.now) }
    requires room { length bits.old ≡ length list.now.scopes.items }
    requires scopes { AllByRecursion (IsBelow (length list.now.scopes.items)) scopes.now }
    ensures { bits.new ≡ spec.mark_each bits.old (map (scope_at list.now) scopes.now) }
{
    for scope in scopes {
        mark_outwards(bits, list, *scope);
    }
}
