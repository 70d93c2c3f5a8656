//! Places with what each is bound to.

ghost use Rattle.std.specs.Prelude.{◌≡◌, None, get_or};
ghost use Rattle.scope_rules.specs.Bindings as bindings;
ghost use Rattle.scope_rules.specs.Homes as homes;
ghost use Rattle.tree_symbols.specs.Known as spec;

use place_list::PlaceEntry;
use tree_nodes::{Declared, Role};

/// A place with its binding, by the number of its node, and whether it is a function-name that is shadowed.
#[derive(Clone, Copy)]
pub struct KnownPlace<'t> {
    pub place: PlaceEntry<'t>,
    pub binding: Option<u32>,
    pub shadowed: bool,
}

#[tactic(auto, unfolding(scope_rules::specs::Homes::is_declaring))]
fn is_declaring(role: Role) -> bool
    ensures { result ≡ homes.is_declaring role }
{
    matches!(role, Role::Declares(_))
}

#[tactic(auto, unfolding(scope_rules::specs::Homes::is_reference))]
fn is_reference(role: Role) -> bool
    ensures { result ≡ homes.is_reference role }
{
    matches!(
        role,
        Role::Read | Role::Write | Role::ReadWrite | Role::Called
    )
}

#[tactic(auto, unfolding(scope_rules::specs::Homes::is_var))]
fn is_var(role: Role) -> bool
    ensures { result ≡ homes.is_var role }
{
    matches!(role, Role::Declares(Declared::Var))
}

#[tactic(auto, unfolding(scope_rules::specs::Bindings::is_node))]
fn is_node(binding: Option<u32>, node: u32) -> bool
    ensures { result ≡ bindings.is_node binding node }
{
    match binding {
        Some(bound) => bound == node,
        None => false,
    }
}

// Whether it declares a variable.
#[tactic(auto, unfolding(crate::specs::Known::declares))]
pub(crate) fn declares(known: &KnownPlace<'_>) -> bool
    ensures { result ≡ spec.declares known.now }
{
    !known.place.private && is_declaring(known.place.setting.role)
}

// Whether it refers to a variable.
#[tactic(auto, unfolding(crate::specs::Known::refers))]
pub(crate) fn refers(known: &KnownPlace<'_>) -> bool
    ensures { result ≡ spec.refers known.now }
{
    !known.place.private && is_reference(known.place.setting.role)
}

// Whether it is its own binding.
#[tactic(auto, unfolding(crate::specs::Known::is_symbol))]
pub(crate) fn is_symbol(known: &KnownPlace<'_>) -> bool
    ensures { result ≡ spec.is_symbol known.now }
{
    declares(known) && is_node(known.binding, known.place.node)
}

// The number of the scope in which it declares.
#[tactic(auto, unfolding(crate::specs::Known::home_number))]
pub(crate) fn home(known: &KnownPlace<'_>) -> Option<u32>
    ensures { result ≡ spec.home_number known.now }
{
    if is_var(known.place.setting.role) {
        known.place.setting.var_scope
    } else {
        known.place.setting.scope
    }
}

// The same, unless it is a function-name that is shadowed there.
#[tactic(auto, unfolding(crate::specs::Known::listing_scope))]
pub(crate) fn listing_scope(known: &KnownPlace<'_>) -> Option<u32>
    ensures { result ≡ spec.listing_scope known.now }
{
    if known.shadowed { None } else { home(known) }
}

// What a row has at a number.
#[tactic(auto, unfolding(crate::specs::Known::entry_at))]
pub(crate) fn entry_at(row: &[Option<u32>], at: Option<u32>) -> Option<u32>
    ensures { result ≡ spec.entry_at row.now at }
{
    match at {
        Some(n) => number_or_none(row, n as usize),
        None => None,
    }
}

// What a row has there, and none past its end.
pub(crate) fn number_or_none(row: &[Option<u32>], n: usize) -> Option<u32>
    ensures { result ≡ get_or row.now n None }
{
    if n < row.len() { row[n] } else { None }
}
