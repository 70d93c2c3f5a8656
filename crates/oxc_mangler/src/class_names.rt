//! The new names of private names, by class.

ghost use Rattle.std.specs.Prelude.{◌≡◌, ◌+◌, ◌-◌, ◌<◌, ◌&&◌, ℕ, None, IfOk, OnOk, length, map, nat_eq, option_map, if◌then◌else◌};
ghost use Rattle.class_tables.specs.PrivateTables.{IsWhole, list_in};
ghost use Rattle.name_rules.specs.ShortNames.{short};
ghost use Rattle.oxc_mangler.specs.ClassNames.{AreClassNames, looked_up, new_class_name};
ghost use Rattle.place_list.specs.TableViews.{places_in};
ghost use Rattle.private_numbers.specs.AllNumbers.{IsNumbered, table_in};
ghost use Rattle.scope_rules.specs.Bindings.{same_name};
ghost use Rattle.scope_rules.specs.PrivateNames as rules;
ghost use Rattle.tree_nodes.specs.Tree.{Text};
ghost use Rattle.tree_semantic.specs.Renamed.{class_count, new_name};

use class_tables::PrivateTable;
use oxc_data_structures::inline_string::InlineString;
use oxc_str::new_const_ident;
use private_numbers::PrivateNumbers;
use std::alloc::{AllocError, Global};
use tree_semantic::PrivateNames;

// The new names of all private names in this table, which these are the numbers of. Err is want of memory, or of
// numbers.
pub(crate) fn class_names<'t>(
    alloc: Global,
    table: &PrivateTable<'_, 't>,
    numbers: &PrivateNumbers<'_, '_, 't>,
) -> Result<PrivateNames<'t>, AllocError>
    requires whole { IsWhole table.now }
    requires numbered { IsNumbered numbers.now }
    requires same { table_in numbers.now ≡ table.now }
    ensures { IfOk result (λ m. AreClassNames (places_in (list_in table.now)) (length (list_in table.now).class_bodies.items) m) }
{
    let mut names = PrivateNames::new(alloc);
    let count = table.list().class_bodies.as_slice().len();
    if count > 4_294_967_295 {
        return Err(AllocError);
    }
    for class_body in 0..count as u32 {
        names.push_class()?;
        push_names(
            &mut names,
            table.private_names(class_body),
            numbers,
            class_body,
        )?;
    }
    Ok(names)
}

// Puts the new names of a class body's private names, which are these, into the last class. Err is want of memory,
// or of numbers.
fn push_names<'t>(
    names: &mut PrivateNames<'t>,
    olds: &[&'t str],
    numbers: &PrivateNumbers<'_, '_, '_>,
    class_body: u32,
) -> Result<(), AllocError>
    requires numbered { IsNumbered numbers.now }
    requires class_body { class_body < length (list_in (table_in numbers.now)).class_bodies.items }
    requires olds { map (λ n. n.now) olds.now ≡ rules.private_names (places_in (list_in (table_in numbers.now))) class_body }
    requires last { class_count names.old ≡ class_body + 1 }
    requires none { (x : Text) → new_name names.old class_body x ≡ None }
    ensures count { OnOk result (class_count names.new ≡ class_count names.old) }
    ensures names { OnOk result ((k : ℕ) (x : Text) → new_name names.new k x ≡ (if nat_eq class_body k then looked_up (map (λ n. n.now) olds.now) (new_class_name (list_in (table_in numbers.now)) class_body) 0 x else new_name names.old k x)) }
{
    if olds.len() > 4_294_967_295 {
        return Err(AllocError);
    }
    for i in 0..olds.len() {
        let new = numbers.new_class_name(class_body, i as u32);
        push_name(names, olds[i], new)?;
    }
    Ok(())
}

// Puts a new name for an old one into the last class, if there is one. Err is want of memory.
fn push_name<'t>(
    names: &mut PrivateNames<'t>,
    old: &'t str,
    new: Option<InlineString<7, u8>>,
) -> Result<(), AllocError>
    requires class { 0 < class_count names.old }
    requires none { new_name names.old (class_count names.old - 1) old.now ≡ None }
    ensures count { OnOk result (class_count names.new ≡ class_count names.old) }
    ensures names { OnOk result ((k : ℕ) (x : Text) → new_name names.new k x ≡ (if nat_eq (class_count names.old - 1) k && same_name old.now x then new else new_name names.old k x)) }
{
    if let Some(new) = new {
        names.push_name(new_const_ident(old), new)?;
    }
    Ok(())
}
