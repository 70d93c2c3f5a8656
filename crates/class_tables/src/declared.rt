//! What each class body declares.

ghost use Rattle.std.specs.Prelude.{◌≡◌, ◌<◌, ◌^◌, ◌∷◌, ◌++◌, ◌&&◌, [], ℕ, List, Option, length, IfOk, OnOk, IfSome};
ghost use Rattle.tree_places.specs.Places.{Place};
ghost use Rattle.place_list.specs.declared.tables.ClassEntry.{ClassEntry};
ghost use Rattle.scope_rules.specs.Bindings.{is_node};
ghost use Rattle.scope_rules.specs.PrivateNames.{is_member_key};
ghost use Rattle.class_tables.specs.Counts.{AreShort};
ghost use Rattle.class_tables.specs.Sights.{AreKnown, AreOf, Sight, declares_in, sight_of};
ghost use Rattle.class_tables.specs.Tables.{AreTablesOf, DeclaresIn, Hold, names_at};

use crate::class_table::ClassTable;
use crate::roles::is_member_key;
use place_list::{ClassEntry, PlaceEntry};
use std::alloc::{AllocError, Global};

// The private names of each class body. Err is want of memory.
pub(crate) fn declared_names<'t>(
    alloc: Global,
    bodies: &[ClassEntry],
    places: &[PlaceEntry<'t>],
) -> Result<Vec<ClassTable<'t>>, AllocError>
    requires known { AreKnown bodies.now places.now }
    requires few { length places.now < 2 ^ 32 }
    ensures tables { IfOk result (λ v. (ps : List Place) → AreOf bodies.now places.now ps → AreTablesOf v.items ps) }
    ensures len { IfOk result (λ v. length v.items ≡ length bodies.now) }
    ensures short { IfOk result (λ v. AreShort v.items) }
{
    let mut tables = empty_tables(alloc, bodies)?;
    for place in places {
        take_in(tables.as_mut_slice(), place)?;
    }
    Ok(tables)
}

// A table without names for each class body.
fn empty_tables<'t>(alloc: Global, bodies: &[ClassEntry]) -> Result<Vec<ClassTable<'t>>, AllocError>
    ensures none { IfOk result (λ v. Hold [] v.items) }
    ensures len { IfOk result (λ v. length v.items ≡ length bodies.now) }
{
    let mut tables = Vec::new(alloc);
    for _ in bodies {
        tables.push(ClassTable::new(alloc))?;
    }
    Ok(tables)
}

// Takes in a place that declares this name in a class body.
fn declare_in<'t>(
    tables: &mut [ClassTable<'t>],
    class: u32,
    name: &'t str,
    node: u32,
) -> Result<(), AllocError>
    requires known { class < length tables.old }
    requires few { (c : ℕ) → length (names_at tables.old c) < 2 ^ 32 }
    ensures { OnOk result (DeclaresIn tables.old tables.new class name.now node) }
{
    tables[class as usize].declare(name, node)?;
    Ok(())
}

// Takes in what the place declares.
fn take_in<'t>(tables: &mut [ClassTable<'t>], place: &PlaceEntry<'t>) -> Result<(), AllocError>
    requires known { IfSome place.now.setting.class_body (λ c. c < length tables.old) }
    requires few { (c : ℕ) → length (names_at tables.old c) < 2 ^ 32 }
    ensures { OnOk result ((bodies : List ClassEntry) (ss : List Sight) → Hold ss tables.old → Hold (ss ++ sight_of bodies place.now ∷ []) tables.new) }
{
    if let Some(class) = declared_class(place) {
        declare_in(tables, class, place.name, place.node)?;
    }
    Ok(())
}

// The class body in which a place declares a private name.
fn declared_class(place: &PlaceEntry<'_>) -> Option<u32>
    ensures declares { (bodies : List ClassEntry) (k : ℕ) → declares_in k (sight_of bodies place.now) ≡ is_node result k }
    ensures known { IfSome result (λ c. place.now.setting.class_body ≡ Some c) }
{
    if is_private_key(place) {
        place.setting.class_body
    } else {
        None
    }
}

// Whether the place is a member's own key, and private.
fn is_private_key(place: &PlaceEntry<'_>) -> bool
    ensures { result ≡ (place.now.private && is_member_key place.now.setting.role) }
{
    place.private && is_member_key(place.setting.role)
}
