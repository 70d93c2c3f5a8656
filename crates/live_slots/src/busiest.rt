//! A scope in which as many groups are in use as there are slots.

ghost use Rattle.std.specs.Prelude.{◌≡◌, nat_eq, suc, length};
ghost use Rattle.live_slots.specs.Slots.{busiest_home};

use crate::leaders::Leader;

// The home of the first group with the last of so many slots, and the root where there is none.
pub(crate) fn busiest(leaders: &[Leader], slots: &[usize], count: usize) -> u32
    requires { length slots.now ≡ length leaders.now }
    ensures { result ≡ busiest_home leaders.now slots.now count }
{
    for group in 0..slots.len() {
        if is_last(slots[group], count) {
            return leaders[group].home;
        }
    }
    0
}

// Whether the slot is the last of so many.
fn is_last(slot: usize, count: usize) -> bool
    ensures { result ≡ nat_eq (suc slot) count }
{
    slot < count && count - slot == 1
}
