//! Whether a plain function is declared in a block of sloppy code.

ghost use Rattle.std.specs.Prelude.{◌≡◌};
ghost use Rattle.scope_rules.specs.Faults.{is_sloppy_function};
ghost use Rattle.scope_tables.specs.Views.{Stands, site_in};

use crate::roles::is_plain_function;
use crate::sites::{declares, lies_in_var_scope};
use place_list::{PlaceEntry, PlaceList};

/// Whether the place declares one there.
#[tactic(auto, unfolding(scope_rules::specs::Faults::is_sloppy_function, place_list::specs::Tables::site_of, place_list::specs::Tables::setting_of))]
pub fn is_sloppy_function(list: &PlaceList<'_>, place: &PlaceEntry<'_>) -> bool
    requires { Stands list.now place.now }
    ensures { result ≡ is_sloppy_function (site_in list.now place.now) }
{
    declares(place)
        && is_plain_function(place.setting.role)
        && !place.setting.strict
        && !lies_in_var_scope(list, place)
}
