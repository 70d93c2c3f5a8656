//! The names that the new private names of a class avoid: those of the open classes around.

ghost use Rattle.std.specs.Prelude.{◌≡◌, ◌<◌, ◌∷◌, ◌&&◌, Some, length};
ghost use Rattle.std.specs.List.{list_any};
ghost use Rattle.class_tables.specs.PrivateTables.{IsWhole, list_in};
ghost use Rattle.name_rules.specs.PrivateNumbers.{open_names};
ghost use Rattle.place_list.specs.Bounds.{IsBelow};
ghost use Rattle.place_list.specs.TableViews.{classes_at, places_in};
ghost use Rattle.scope_rules.specs.Evals as evals;
ghost use Rattle.scope_rules.specs.PrivateNames.{is_among, private_names};

use class_tables::PrivateTable;

// The class body around a class body.
pub(crate) fn class_around(table: &PrivateTable<'_, '_>, class_body: u32) -> Option<u32>
    requires whole { IsWhole table.now }
    requires class_body { class_body < length (list_in table.now).class_bodies.items }
    ensures outwards { classes_at (list_in table.now) (Some class_body) ≡ class_body ∷ classes_at (list_in table.now) result }
    ensures below { IsBelow class_body result }
{
    table.list().outer_class(class_body)
}

// Whether a class body, from this one outwards, is open.
pub(crate) fn lies_in_open(table: &PrivateTable<'_, '_>, class_body: Option<u32>) -> bool
    requires whole { IsWhole table.now }
    requires class_body { IsBelow (length (list_in table.now).class_bodies.items) class_body }
    ensures { result ≡ list_any (evals.is_open (places_in (list_in table.now))) (classes_at (list_in table.now) class_body) }
{
    let mut at = class_body;
    while let Some(class) = at {
        let around = class_around(table, class);
        if table.is_open(class) {
            return true;
        }
        at = around;
    }
    false
}

// Whether an open class body, from this one outwards, declares the name.
pub(crate) fn is_avoided(table: &PrivateTable<'_, '_>, class_body: Option<u32>, name: &str) -> bool
    requires whole { IsWhole table.now }
    requires class_body { IsBelow (length (list_in table.now).class_bodies.items) class_body }
    ensures { result ≡ is_among (open_names (places_in (list_in table.now)) (classes_at (list_in table.now) class_body)) name.now }
{
    let mut at = class_body;
    while let Some(class) = at {
        let around = class_around(table, class);
        if is_kept_by(table, class, name) {
            return true;
        }
        at = around;
    }
    false
}

// Whether the class body is open and declares the name.
fn is_kept_by(table: &PrivateTable<'_, '_>, class_body: u32, name: &str) -> bool
    requires whole { IsWhole table.now }
    requires class_body { class_body < length (list_in table.now).class_bodies.items }
    ensures { result ≡ (evals.is_open (places_in (list_in table.now)) class_body && is_among (private_names (places_in (list_in table.now)) class_body) name.now) }
{
    table.is_open(class_body) && table.declares(class_body, name)
}
