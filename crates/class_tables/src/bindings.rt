//! What private names are bound to, over the tables of all class bodies.

ghost use Rattle.std.specs.Prelude.{◌≡◌, ◌<◌, List, length, map, option_map};
ghost use Rattle.tree_places.specs.Places.{Place};
ghost use Rattle.scope_rules.specs.Bindings.{same_name};
ghost use Rattle.scope_rules.specs.Faults as faults;
ghost use Rattle.scope_rules.specs.PrivateNames as names_spec;
ghost use Rattle.class_tables.specs.Answers.{binding_at, class_at, declaration_of, index_at, undeclared_at};
ghost use Rattle.class_tables.specs.Outwards.{Falls, outer};
ghost use Rattle.class_tables.specs.Sights.{AreOf};
ghost use Rattle.class_tables.specs.Tables.{AreTablesOf};

use crate::class_table::ClassTable;
use crate::nearest::{Found, declaration, declared_in};
use place_list::{ClassEntry, PlaceEntry};

// The distinct private names that a class body declares, in the order of their first places.
pub(crate) fn private_names<'a, 't>(tables: &'a [ClassTable<'t>], class: u32) -> &'a [&'t str]
    requires { class < length tables.now }
    ensures { (ps : List Place) → AreTablesOf tables.now ps → map (λ n. n.now) result.now ≡ names_spec.private_names ps class }
{
    tables[class as usize].names.as_slice()
}

// Whether a class body declares this private name.
pub(crate) fn declares(tables: &[ClassTable<'_>], class: u32, name: &str) -> bool
    ensures { (ps : List Place) → AreTablesOf tables.now ps → result ≡ names_spec.is_among (names_spec.private_names ps class) name.now }
{
    declared_in(tables, class, name).is_some()
}

// Whether a private name is used that no class body around it declares.
pub(crate) fn has_undeclared(
    tables: &[ClassTable<'_>],
    bodies: &[ClassEntry],
    places: &[PlaceEntry<'_>],
) -> bool
    requires { Falls (outer bodies.now) }
    ensures { (ps : List Place) → AreOf bodies.now places.now ps → AreTablesOf tables.now ps → result ≡ faults.has_undeclared same_name ps }
{
    for place in places {
        if is_undeclared(tables, bodies, place) {
            return true;
        }
    }
    false
}

// The binding of a place's private name, if it has one.
#[tactic(auto, unfolding(crate::specs::Answers::binding_at))]
pub(crate) fn private_binding(
    tables: &[ClassTable<'_>],
    bodies: &[ClassEntry],
    place: &PlaceEntry<'_>,
) -> Option<u32>
    requires { Falls (outer bodies.now) }
    ensures { result ≡ binding_at tables.now bodies.now place.now }
{
    if place.private {
        node_of(declaration_of(tables, bodies, place))
    } else {
        None
    }
}

// The nearest class body that declares a place's name, if one does.
#[tactic(auto, unfolding(crate::specs::Answers::class_at))]
pub(crate) fn declaring_class(
    tables: &[ClassTable<'_>],
    bodies: &[ClassEntry],
    place: &PlaceEntry<'_>,
) -> Option<u32>
    requires { Falls (outer bodies.now) }
    ensures { result ≡ class_at tables.now bodies.now place.now }
{
    match declaration_of(tables, bodies, place) {
        Some(found) => Some(found.class),
        None => None,
    }
}

// Which of that class body's names it is.
#[tactic(auto, unfolding(crate::specs::Answers::index_at))]
pub(crate) fn name_index(
    tables: &[ClassTable<'_>],
    bodies: &[ClassEntry],
    place: &PlaceEntry<'_>,
) -> Option<u32>
    requires { Falls (outer bodies.now) }
    ensures { result ≡ index_at tables.now bodies.now place.now }
{
    match declaration_of(tables, bodies, place) {
        Some(found) => Some(found.index),
        None => None,
    }
}

#[tactic(auto, unfolding(crate::specs::Answers::declaration_of))]
fn declaration_of(
    tables: &[ClassTable<'_>],
    bodies: &[ClassEntry],
    place: &PlaceEntry<'_>,
) -> Option<Found>
    requires { Falls (outer bodies.now) }
    ensures { result ≡ declaration_of tables.now bodies.now place.now }
{
    declaration(tables, bodies, place.setting.class_body, place.name)
}

fn node_of(found: Option<Found>) -> Option<u32>
    ensures { result ≡ option_map (λ f. f.node) found }
{
    match found {
        Some(found) => Some(found.node),
        None => None,
    }
}

// Whether the place uses a private name that no class body around it declares.
#[tactic(auto, unfolding(crate::specs::Answers::undeclared_at))]
pub(crate) fn is_undeclared(
    tables: &[ClassTable<'_>],
    bodies: &[ClassEntry],
    place: &PlaceEntry<'_>,
) -> bool
    requires { Falls (outer bodies.now) }
    ensures { result ≡ undeclared_at tables.now bodies.now place.now }
{
    place.private && private_binding(tables, bodies, place).is_none()
}
