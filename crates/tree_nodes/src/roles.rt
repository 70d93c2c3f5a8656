//! What a field says by its number, and the role that it gives to an Identifier in it.

ghost use Rattle.std.specs.Prelude.{◌≡◌};
ghost use Rattle.tree_nodes.specs.Roles as spec;
ghost use Rattle.tree_nodes.specs.Tree.{part, flag_of, word_of, text_of, is_empty};
ghost use Rattle.tree_nodes.specs.Views.{part_of};

use crate::node::{Field, FieldList};
use crate::table::{Declared, Mode, Role};

fn flag_in(field: &Field) -> bool
    ensures { result ≡ flag_of (part_of field.now) }
{
    match field {
        Field::Flag(flag) => *flag,
        _ => false,
    }
}

/// Whether the i-th field is a flag that is set.
pub fn flag_at(fields: &FieldList, i: u8) -> bool
    ensures { result ≡ flag_of (part fields.now i) }
{
    match fields.get(i as usize) {
        Some(field) => flag_in(field),
        None => false,
    }
}

fn word_in(field: &Field) -> u8
    ensures { result ≡ word_of (part_of field.now) }
{
    match field {
        Field::Word(word) => *word,
        _ => 0,
    }
}

/// The number of the word that the i-th field is, 0 where it is none.
pub fn word_at(fields: &FieldList, i: u8) -> u8
    ensures { result ≡ word_of (part fields.now i) }
{
    match fields.get(i as usize) {
        Some(field) => word_in(field),
        None => 0,
    }
}

fn empty_in(field: &Field) -> bool
    ensures { result ≡ is_empty (part_of field.now) }
{
    match field {
        Field::Empty => true,
        _ => false,
    }
}

/// Whether the i-th field is null.
pub fn empty_at(fields: &FieldList, i: u8) -> bool
    ensures { result ≡ is_empty (part fields.now i) }
{
    match fields.get(i as usize) {
        Some(field) => empty_in(field),
        None => false,
    }
}

fn text_in(field: &Field) -> &str
    ensures { result.now ≡ text_of (part_of field.now) }
{
    match field {
        Field::Text(text) => text.as_str(),
        _ => "",
    }
}

/// The text that the first field is, as an Identifier's name. Empty where it is none.
pub fn first_text(fields: &FieldList) -> &str
    ensures { result.now ≡ text_of fields.now }
{
    match fields.get(0) {
        Some(field) => text_in(field),
        None => "",
    }
}

#[tactic(auto, unfolding(crate::specs::Roles::declared_by))]
fn declared_by(word: u8) -> Declared
    ensures { result ≡ spec.declared_by word }
{
    match word {
        0 => Declared::Var,
        1 => Declared::Let,
        _ => Declared::Const,
    }
}

#[tactic(auto, unfolding(crate::specs::Roles::written_by))]
fn written_by(word: u8) -> Role
    ensures { result ≡ spec.written_by word }
{
    if word == 0 {
        Role::Write
    } else {
        Role::ReadWrite
    }
}

#[tactic(auto, unfolding(crate::specs::Roles::is_special))]
fn is_special(i: u8, j: u8, fields: &FieldList) -> bool
    ensures { result ≡ spec.is_special i j fields.now }
{
    flag_at(fields, i) || flag_at(fields, j)
}

/// The role in a field of this mode, in a node of this role with these fields.
#[tactic(auto, unfolding(crate::specs::Roles::role_at))]
pub fn role_at(mode: Mode, own: Role, fields: &FieldList) -> Role
    ensures { result ≡ spec.role_at mode own fields.now }
{
    match mode {
        Mode::Gives(role) => role,
        Mode::Same => own,
        Mode::Leaves => match own {
            Role::ReadWrite => Role::Write,
            role => role,
        },
        Mode::UnlessComputed(i, role) => { if flag_at(fields, i) { Role::Read } else { role } }
        Mode::ByKind(i) => Role::Declares(declared_by(word_at(fields, i))),
        Mode::UnlessOptional(i) => {
            if flag_at(fields, i) {
                Role::Read
            } else {
                Role::Called
            }
        }
        Mode::ByOperator(i) => written_by(word_at(fields, i)),
        Mode::UnlessSource(i) => {
            if empty_at(fields, i) {
                Role::Read
            } else {
                Role::Plain
            }
        }
        Mode::NamesFunction(i, j) => {
            Role::Declares(Declared::Function(is_special(i, j, fields)))
        }
        Mode::NamesExpression(i, j) => {
            Role::Declares(Declared::FunctionName(is_special(i, j, fields)))
        }
    }
}
