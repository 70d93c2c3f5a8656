//! What a place does to names, and the scope in which it declares.

ghost use Rattle.std.specs.Prelude.{◌≡◌, ◌&&◌};
ghost use Rattle.place_list.specs.TableViews.{scope_at};
ghost use Rattle.place_list.specs.declared.tables.PlaceList.{PlaceList};
ghost use Rattle.scope_rules.specs.Bindings.{is_binding, is_node};
ghost use Rattle.scope_rules.specs.Homes.{declares, declares_plainly, home, is_joinable, is_single, is_var, lies_in_var_scope, names_function, refers};
ghost use Rattle.scope_tables.specs.Firsts.{passes};
ghost use Rattle.scope_tables.specs.Keys.{number_from};
ghost use Rattle.scope_tables.specs.Views.{Stands, bound_of, home_number, site_in};

use crate::bound::BoundPlace;
use crate::key::Key;
use crate::roles::{is_declaring, is_function_name, is_reference, is_var, joins};
use place_list::{PlaceEntry, PlaceList};

/// How a place declares its name: as all do but function-names, as a function-name, or so that no other
/// may declare it beside.
#[derive(Clone, Copy)]
pub enum Declaring {
    Plainly,
    AsFunctionName,
    Singly,
}

/// Whether the place declares its name in this way.
#[tactic(auto, unfolding(crate::specs::Firsts::passes))]
pub fn passes(declaring: Declaring, list: &PlaceList<'_>, place: &PlaceEntry<'_>) -> bool
    requires { Stands list.now place.now }
    ensures { result ≡ passes declaring (site_in list.now place.now) }
{
    match declaring {
        Declaring::Plainly => declares_plainly(place),
        Declaring::AsFunctionName => names_function(place),
        Declaring::Singly => is_single(list, place),
    }
}

/// Whether it declares a variable.
#[tactic(auto, unfolding(scope_rules::specs::Homes::declares, place_list::specs::Tables::site_of, place_list::specs::Tables::setting_of))]
pub fn declares(place: &PlaceEntry<'_>) -> bool
    ensures { (l : PlaceList) → result ≡ declares (site_in l place.now) }
{
    !place.private && is_declaring(place.setting.role)
}

/// Whether it refers to a variable.
#[tactic(auto, unfolding(scope_rules::specs::Homes::refers, place_list::specs::Tables::site_of, place_list::specs::Tables::setting_of))]
pub fn refers(place: &PlaceEntry<'_>) -> bool
    ensures { (l : PlaceList) → result ≡ refers (site_in l place.now) }
{
    !place.private && is_reference(place.setting.role)
}

/// Whether it is a function-name.
#[tactic(auto, unfolding(scope_rules::specs::Homes::names_function, place_list::specs::Tables::site_of, place_list::specs::Tables::setting_of))]
pub fn names_function(place: &PlaceEntry<'_>) -> bool
    ensures { (l : PlaceList) → result ≡ names_function (site_in l place.now) }
{
    declares(place) && is_function_name(place.setting.role)
}

/// Whether it declares a variable, and is no function-name.
#[tactic(auto, unfolding(scope_rules::specs::Homes::declares_plainly, place_list::specs::Tables::site_of, place_list::specs::Tables::setting_of))]
pub fn declares_plainly(place: &PlaceEntry<'_>) -> bool
    ensures { (l : PlaceList) → result ≡ declares_plainly (site_in l place.now) }
{
    declares(place) && !is_function_name(place.setting.role)
}

/// Whether it declares a variable by `var`.
#[tactic(auto, unfolding(place_list::specs::Tables::site_of, place_list::specs::Tables::setting_of))]
pub fn declares_var(place: &PlaceEntry<'_>) -> bool
    ensures { (l : PlaceList) → result ≡ (declares (site_in l place.now) && is_var (site_in l place.now).setting.role) }
{
    declares(place) && is_var(place.setting.role)
}

/// Whether its scope is a var scope.
pub fn lies_in_var_scope(list: &PlaceList<'_>, place: &PlaceEntry<'_>) -> bool
    requires { Stands list.now place.now }
    ensures { result ≡ lies_in_var_scope (site_in list.now place.now) }
{
    list.is_same_scope(place.setting.scope, place.setting.var_scope)
}

/// Whether it may declare its name beside others that may.
#[tactic(auto, unfolding(scope_rules::specs::Homes::is_joinable, place_list::specs::Tables::site_of, place_list::specs::Tables::setting_of))]
pub fn is_joinable(list: &PlaceList<'_>, place: &PlaceEntry<'_>) -> bool
    requires { Stands list.now place.now }
    ensures { result ≡ is_joinable (site_in list.now place.now) }
{
    joins(place.setting.role, lies_in_var_scope(list, place))
}

/// Whether it declares a name beside which no other may declare it.
#[tactic(auto, unfolding(scope_rules::specs::Homes::is_single))]
pub fn is_single(list: &PlaceList<'_>, place: &PlaceEntry<'_>) -> bool
    requires { Stands list.now place.now }
    ensures { result ≡ is_single (site_in list.now place.now) }
{
    declares_plainly(place) && !is_joinable(list, place)
}

/// The number of the scope in which it declares.
#[tactic(auto, unfolding(scope_rules::specs::Homes::home, crate::specs::Views::home_number, place_list::specs::Tables::site_of, place_list::specs::Tables::setting_of))]
pub fn home(place: &PlaceEntry<'_>) -> Option<u32>
    ensures scope { (l : PlaceList) → scope_at l result ≡ home (site_in l place.now) }
    ensures number { result ≡ home_number place.now }
{
    if is_var(place.setting.role) {
        place.setting.var_scope
    } else {
        place.setting.scope
    }
}

/// Its name in its home.
pub fn key_of(place: &PlaceEntry<'_>) -> Key
    ensures within { result.within ≡ number_from (home_number place.now) }
    ensures name { result.name ≡ place.now.name_number }
{
    Key::new(home(place), place.name_number)
}

/// Whether it is its own binding.
#[tactic(auto, unfolding(scope_rules::specs::Bindings::is_binding, scope_rules::specs::Bindings::is_node, scope_rules::specs::Bindings::node, crate::specs::Views::bound_of, place_list::specs::Tables::place_of, place_list::specs::Tables::site_of))]
pub fn is_binding(place: &BoundPlace<'_>) -> bool
    ensures { (l : PlaceList) → result ≡ is_binding (bound_of l place.now) }
{
    declares(&place.place) && is_node(place.binding, place.place.node)
}

/// Whether it is this number.
#[tactic(auto, unfolding(scope_rules::specs::Bindings::is_node))]
pub fn is_node(binding: Option<u32>, node: u32) -> bool
    ensures { result ≡ is_node binding node }
{
    match binding {
        Some(number) => number == node,
        None => false,
    }
}
