//! Where a private name is declared, from a class body outwards.

ghost use Rattle.std.specs.Prelude.{◌≡◌, ◌<◌, length, slice_get};
ghost use Rattle.class_tables.specs.Outwards.{Falls, chain_from, nearest, outer};
ghost use Rattle.class_tables.specs.Tables.{at, found_in};

use crate::class_table::{ClassTable, Declared};
use place_list::ClassEntry;

// The class body that declares a private name: its number, which of its names it is, from 0, and the node of
// the first place that declares it.
#[derive(Clone, Copy, Drop)]
pub(crate) struct Found {
    pub class: u32,
    pub index: u32,
    pub node: u32,
}

// The nearest declaration of the name, from a class body outwards.
pub(crate) fn declaration(
    tables: &[ClassTable<'_>],
    bodies: &[ClassEntry],
    class: Option<u32>,
    name: &str,
) -> Option<Found>
    requires { Falls (outer bodies.now) }
    ensures { result ≡ nearest (found_in tables.now name.now) (chain_from (outer bodies.now) class) }
{
    let mut at = class;
    while let Some(c) = at {
        let found = found_in(tables, c, name);
        if found.is_some() {
            return found;
        }
        at = outer(bodies, c);
    }
    None
}

// The next class body outwards.
#[tactic(auto, unfolding(crate::specs::Outwards::outer))]
pub(crate) fn outer(bodies: &[ClassEntry], class: u32) -> Option<u32>
    ensures { result ≡ outer bodies.now class }
{
    match bodies.get(class as usize) {
        Some(entry) => entry.parent,
        None => None,
    }
}

// What a class body declares under a name.
#[tactic(auto, unfolding(crate::specs::Tables::found_in))]
fn found_in(tables: &[ClassTable<'_>], class: u32, name: &str) -> Option<Found>
    ensures { result ≡ found_in tables.now name.now class }
{
    match declared_in(tables, class, name) {
        Some(declared) => Some(Found {
            class,
            index: declared.index,
            node: declared.node,
        }),
        None => None,
    }
}

// Where a class body declares a name, if it does.
#[tactic(auto, unfolding(crate::specs::Tables::at))]
pub(crate) fn declared_in(tables: &[ClassTable<'_>], class: u32, name: &str) -> Option<Declared>
    ensures { result ≡ at tables.now class name.now }
{
    match tables.get(class as usize) {
        Some(table) => table.declared(name),
        None => None,
    }
}
