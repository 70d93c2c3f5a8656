//! New names for private names, class by class.

ghost use Rattle.std.specs.Prelude.{◌≡◌, ◌+◌, ◌<◌, ◌-◌, ◌&&◌, ℕ, None, OnErr, OnOk, Some, nat_eq, if◌then◌else◌};
ghost use Rattle.oxc_str.specs.Ident.{ident_text};
ghost use Rattle.scope_rules.specs.Bindings.{same_name};
ghost use Rattle.syntax_sem.specs.ClassId.{number_of};
ghost use Rattle.tree_nodes.specs.Tree.{Text};
ghost use Rattle.tree_semantic.specs.Renamed.{class_count, name_in, new_name};

use oxc_data_structures::inline_string::InlineString;
use oxc_str::Ident;
use std::alloc::{AllocError, Global};
use std::collections::BTreeMap;
use syntax_sem::class::ClassId;

/// New names for the private names of each class. By ordered maps, since the old names come from strangers, who
/// could choose them to collide in a hash map whose seed is fixed.
#[derive(Drop)]
pub struct PrivateNames<'t> {
    alloc: Global,
    classes: Vec<BTreeMap<&'t str, InlineString<7, u8>>>,
}

impl<'t> PrivateNames<'t> {
    /// No class.
    pub fn new(alloc: Global) -> Self
        ensures { class_count result ≡ 0 }
    {
        PrivateNames {
            alloc,
            classes: Vec::new(alloc),
        }
    }

    /// One class more, without names. After an Err, which is want of memory, it is as it was.
    pub fn push_class(&mut self) -> Result<(), AllocError>
        ensures count { OnOk result (class_count self.new ≡ class_count self.old + 1) }
        ensures names { (k : ℕ) (x : Text) → new_name self.new k x ≡ new_name self.old k x }
        ensures refused { OnErr result (class_count self.new ≡ class_count self.old) }
    {
        self.classes.push(BTreeMap::new(self.alloc))?;
        Ok(())
    }

    /// A new name for an old one in the last class. After an Err, which is want of memory, it is as it was.
    pub fn push_name(&mut self, old: Ident<'t>, new: InlineString<7, u8>) -> Result<(), AllocError>
        requires class { 0 < class_count self.old }
        requires name { new_name self.old (class_count self.old - 1) (ident_text old) ≡ None }
        ensures count { class_count self.new ≡ class_count self.old }
        ensures names { OnOk result ((k : ℕ) (x : Text) → new_name self.new k x ≡ (if nat_eq (class_count self.old - 1) k && same_name (ident_text old.entry) x then Some new else new_name self.old k x)) }
        ensures refused { OnErr result ((k : ℕ) (x : Text) → new_name self.new k x ≡ new_name self.old k x) }
    {
        let last = self.classes.len() - 1;
        put(&mut self.classes[last], old.as_str(), new)
    }

    /// How many classes there are.
    pub fn len(&self) -> usize
        ensures { result ≡ class_count self.now }
    {
        self.classes.len()
    }

    /// The new name of an old one in a class: none exactly where the class has none for it.
    pub fn get(&self, id: ClassId, name: &str) -> Option<InlineString<7, u8>>
        requires { number_of id < class_count self.now }
        ensures { result ≡ new_name self.now (number_of id) name.now }
    {
        let k = id.index();
        self.classes[k].get(name).copied()
    }
}

// Puts a new name for an old one. After an Err, which is want of memory, the names are as they were.
fn put<'t>(
    names: &mut BTreeMap<&'t str, InlineString<7, u8>>,
    old: &'t str,
    new: InlineString<7, u8>,
) -> Result<(), AllocError>
    ensures put { OnOk result ((x : Text) → name_in names.new x ≡ (if same_name old.now x then Some new else name_in names.old x)) }
    ensures refused { OnErr result ((x : Text) → name_in names.new x ≡ name_in names.old x) }
{
    match names.insert(old, new) {
        Ok(_) => Ok(()),
        Err(_) => Err(AllocError),
    }
}
