//! The private names of one class body.

ghost use Rattle.std.specs.Prelude.{◌≡◌, ◌<◌, ◌^◌, [], OnOk, None, length};
ghost use Rattle.tree_nodes.specs.Tree.{Text};
ghost use Rattle.class_tables.specs.Tables.{Declares, declared_at, names_of};

use std::alloc::{AllocError, Global};
use std::collections::BTreeMap;

// Where a class body declares a private name: which of its names it is, from 0, and the node of the first
// place that declares it.
#[derive(Clone, Copy, Drop)]
pub(crate) struct Declared {
    pub index: u32,
    pub node: u32,
}

// The distinct private names that a class body declares, in the order of their first places, and where each
// one is declared.
#[derive(Drop)]
pub(crate) struct ClassTable<'t> {
    pub names: Vec<&'t str>,
    pub firsts: BTreeMap<&'t str, Declared>,
}

impl<'t> ClassTable<'t> {
    /// No names.
    pub(crate) fn new(alloc: Global) -> Self
        ensures names { names_of result ≡ [] }
        ensures firsts { (x : Text) → declared_at result x ≡ None }
    {
        ClassTable {
            names: Vec::new(alloc),
            firsts: BTreeMap::new(alloc),
        }
    }

    /// Where the name is declared, if it is.
    pub(crate) fn declared(&self, name: &str) -> Option<Declared>
        ensures { result ≡ declared_at self.now name.now }
    {
        self.firsts.get(name).copied()
    }

    /// Takes in a place that declares this name. Err is want of memory.
    pub(crate) fn declare(&mut self, name: &'t str, node: u32) -> Result<(), AllocError>
        requires { length self.old.names.items < 2 ^ 32 }
        ensures { OnOk result (Declares self.old self.new name.now node) }
    {
        if self.declared(name).is_none() {
            let first = Declared {
                index: self.names.as_slice().len() as u32,
                node,
            };
            self.names.push(name)?;
            self.firsts.insert(name, first)?;
        }
        Ok(())
    }
}
