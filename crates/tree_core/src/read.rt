//! The reader: the tree that a JSON value is.

ghost use Rattle.std.specs.Prelude.{◌≡◌, ◌||◌, bytes_eq, codes, List, [], ◌∷◌, ◌++◌, Some, None, true, IsTrue, map, option_map, option_and_then, ◌↔◌, length, ◌≤◌, ◌<◌, ◌+◌, ◌^◌, OnOk, IfOk, IfErr, IfSome};
ghost use Rattle.serde_json.specs.Data.{depth, members_depth};
ghost use Rattle.serde_json.specs.View.{view, items_view, members_view};
ghost use Rattle.json_text.specs.Units.{units_of};
ghost use Rattle.tree_core.specs.JsonOf.{json_of};
ghost use Rattle.tree_core.specs.JsonOf as json;
ghost use Rattle.tree_core.specs.Limits.{is_too_large};
ghost use Rattle.tree_core.specs.NodeCount.{node_count};
ghost use Rattle.tree_core.specs.Readable.{is_ascii, is_readable, are_readable, field_from, fields_in, item_from};
ghost use Rattle.tree_core.specs.ReadError.{Says};
ghost use Rattle.tree_core.specs.Reading as reading;
ghost use Rattle.tree_core.specs.Reading.{tree_of};
ghost use Rattle.tree_nodes.specs.Rows.{row_of, column_of};
ghost use Rattle.tree_nodes.specs.Table.{word_list};
ghost use Rattle.json_text.specs.Json.{object};
ghost use Rattle.tree_nodes.specs.Tree.{text, units, many, done, alone};
ghost use Rattle.tree_nodes.specs.Views.{part_of, parts_of, item_of, items_of};

use crate::limits::is_too_large;
use crate::program::Program;
use oxc_str::JSText;
use serde_json::{Map, Value};
use std::alloc::{AllocError, AllocFailed, Global};
use syntax_lex::identifier::is_identifier_name;
use thiserror::Error;
use tree_nodes::{
    Class, Column, Field, FieldList, Kind, Node, NodeList, Row, TreeText, Words, is_placed,
    row_named, word_list,
};

/// Why a value was not read.
#[derive(Debug, Drop, Error)]
pub enum ReadError {
    /// Its objects, an array or a text pass the limits.
    #[error("too large")]
    TooLarge,
    /// It is not the ESTree of a program.
    #[error("bad tree")]
    BadTree,
    #[error("out of memory")]
    Memory,
}

impl From<AllocError> for ReadError {
    ghost use Rattle.std.specs.Prelude.{◌≡◌};
    ghost use Rattle.tree_core.specs.declared.read.ReadError.TheVariants.{Memory};

    ghost from_gives = { λ _ e. e ≡ Memory };

    fn from(_error: AllocError) -> ReadError {
        ReadError::Memory
    }
}

impl<T: Drop> From<AllocFailed<T>> for ReadError {
    ghost use Rattle.std.specs.Prelude.{◌≡◌};
    ghost use Rattle.tree_core.specs.declared.read.ReadError.TheVariants.{Memory};

    ghost from_gives = { λ _ e. e ≡ Memory };

    fn from(_error: AllocFailed<T>) -> ReadError {
        ReadError::Memory
    }
}

/// The program that a JSON value is, as `serde_json` reads it.
///
/// The value is the ESTree of a Program, with each field and each node as the node table has it:
/// the keys of an object may come in any order, and a field that is missing may have a default.
/// A field that no row lists is left out where it holds null, false or an empty list.
///
/// `TooLarge` comes exactly where the objects of the value and `more`, a number of names that are
/// counted with them, reach 2^30, an array has 2^30 items or more, or a string or a key has more
/// than 4,294,967,295 bytes. `BadTree` comes only where, within these limits, the value is no
/// such tree. The nodes of a program that was read and `more` are together fewer than 2^30.
pub fn read_tree(alloc: Global, value: &Value, more: usize) -> Result<Program, ReadError>
    ensures ok { IfOk result (λ p. tree_of (json_of (view value.now)) ≡ Some p) }
    ensures few { IfOk result (λ p. node_count p + more < 2 ^ 30) }
    ensures too_large { (result ≡ Err ReadError.TooLarge)
        ↔ IsTrue (is_too_large (view value.now) more) }
    ensures bad_tree { result ≡ Err ReadError.BadTree → tree_of (json_of (view value.now)) ≡ None }
{
    if is_too_large(value, more) {
        return Err(ReadError::TooLarge);
    }
    let root = read_node(alloc, value)?;
    if !is_placed(alloc, &root) {
        return Err(ReadError::BadTree);
    }
    Ok(Program::from_root(root))
}

// The member with this key.
fn member<'v>(members: &'v Map<String, Value>, key: &str) -> Option<&'v Value>
    requires { IsTrue (is_ascii key.now) }
    ensures found { option_map (λ v. json_of (view v.now)) result
        ≡ reading.find_member key.now (json.members_of (members_view members.now.entries)) }
    ensures smaller { IfSome result
        (λ v. depth (view v.now) ≤ members_depth (members_view members.now.entries)) }
{
    members.get(key)
}

fn text_in(value: &Value) -> Option<&str>
    ensures { option_map (λ s. s.now) result ≡ reading.text_in (json_of (view value.now)) }
{
    match value {
        Value::String(text) => Some(text.as_str()),
        _ => None,
    }
}

// A whole number below a bound.
fn below(bound: u64, value: &Value) -> Option<u64>
    ensures { result ≡ reading.below bound (json_of (view value.now)) }
{
    match value {
        Value::Number(number) => match number.as_u64() {
            Some(n) if n < bound => Some(n),
            _ => None,
        },
        _ => None,
    }
}

// Where a node begins or ends: 0 where nothing is said.
fn offset(value: Option<&Value>) -> Option<u32>
    ensures { result ≡ reading.offset_of (option_map (λ v. json_of (view v.now)) value.entry) }
{
    match value {
        Some(value) => Some(below(4_294_967_296, value)? as u32),
        None => Some(0),
    }
}

fn word_number(words: &[&str], text: &str) -> Option<u8>
    requires { length words.now ≤ 256 }
    ensures { result ≡ reading.word_number (map (λ w. w.now) words.now) text.now }
{
    for (i, word) in words.iter().enumerate() {
        if *word == text {
            return Some(i as u8);
        }
    }
    None
}

// What a field that isn't listed may hold.
fn is_blank(value: &Value) -> bool
    ensures { result ≡ reading.is_blank (json_of (view value.now)) }
{
    match value {
        Value::Null => true,
        Value::Bool(b) => !*b,
        Value::Array(items) => items.as_slice().is_empty(),
        _ => false,
    }
}

fn is_null(value: &Value) -> bool
    ensures { result ≡ reading.is_null_value (json_of (view value.now)) }
{
    matches!(value, Value::Null)
}

fn is_object(value: Option<&Value>) -> bool
    ensures { result
        ≡ reading.is_object (option_map (λ v. json_of (view v.now)) value.entry) }
{
    matches!(value, Some(Value::Object(_)))
}

// The key under which a node's object has the field.
fn outer_key(column: &Column) -> &'static str
    ensures { result.now ≡ reading.outer_key (column_of column.now) }
{
    match column.class {
        Class::Pattern | Class::Flags => "regex",
        Class::Raw | Class::Cooked => "value",
        _ => column.key,
    }
}

// Whether a node with these columns has a field under the key.
fn is_known(key: &str, columns: &[Column]) -> bool
    requires { IsTrue (are_readable (map column_of columns.now)) }
    ensures { result ≡ reading.is_known (units_of key.now) (map column_of columns.now) }
{
    key == "type" || key == "start" || key == "end" || is_listed(key, columns)
}

fn is_listed(key: &str, columns: &[Column]) -> bool
    ensures { result ≡ reading.is_listed key.now (map column_of columns.now) }
{
    for column in columns {
        if outer_key(column) == key {
            return true;
        }
    }
    false
}

// Whether each member is a field of these columns, or blank.
fn only_known(columns: &[Column], members: &Map<String, Value>) -> bool
    requires { IsTrue (are_readable (map column_of columns.now)) }
    ensures known { result ≡ reading.only_known (map column_of columns.now)
        (json.members_of (members_view members.now.entries)) }
    ensures distinct { reading.are_distinct (json.members_of (members_view members.now.entries))
        ≡ true }
{
    for (key, member) in members.iter() {
        if !is_known(key.as_str(), columns) && !is_blank(member) {
            return false;
        }
    }
    true
}

// A Literal has an object as its value only beside `regex`.
fn is_paired(kind: Kind, members: &Map<String, Value>) -> bool
    ensures { result ≡ reading.is_paired kind (json.members_of (members_view members.now.entries)) }
{
    kind.number() != Kind::Literal.number()
        || !is_object(member(members, "value"))
        || is_object(member(members, "regex"))
}

// The row of the kind that an object names.
fn row_for(members: &Map<String, Value>) -> Option<&'static Row>
    ensures row { option_map (λ r. row_of r.now) result
        ≡ reading.row_for (json.members_of (members_view members.now.entries)) }
    ensures readable { IfSome result
        (λ r. IsTrue (are_readable (map column_of r.now.columns.now))) }
{
    row_named(text_in(member(members, "type")?)?)
}

// A field that is missing.
fn absent(alloc: Global, class: Class) -> Result<Field, ReadError>
    ensures ok { IfOk result (λ f. reading.absent class ≡ Some (part_of f)) }
    ensures err { IfErr result (λ e. Says e (reading.absent class ≡ None)) }
{
    match class {
        Class::Flag => Ok(Field::Flag(false)),
        Class::TextOr | Class::Maybe(_) | Class::LiteralValue | Class::Pattern | Class::Flags => Ok(
            Field::Empty,
        ),
        Class::ManyOr(_) => Ok(Field::List(NodeList::from_vec(Vec::new(alloc)))),
        _ => Err(ReadError::BadTree),
    }
}

// The number of the word that a value is.
fn word_in(words: Words, value: &Value) -> Option<u8>
    ensures { result ≡ option_and_then (reading.word_number (word_list words))
        (reading.text_in (json_of (view value.now))) }
{
    word_number(word_list(words), text_in(value)?)
}

// A copy of a text.
fn text_field(alloc: Global, content: &str) -> Result<Field, AllocError>
    ensures { IfOk result (λ f. part_of f ≡ reading.one (text content.now)) }
{
    Ok(Field::Text(TreeText::from_string(String::from_str(alloc, content)?)))
}

fn read_text(alloc: Global, value: &Value) -> Result<Field, ReadError>
    ensures ok { IfOk result (λ f. option_map (λ x. reading.one (text x))
        (reading.text_in (json_of (view value.now))) ≡ Some (part_of f)) }
    ensures err { IfErr result (λ e. Says e (option_map (λ x. reading.one (text x))
        (reading.text_in (json_of (view value.now))) ≡ None)) }
{
    match text_in(value) {
        Some(text) => Ok(text_field(alloc, text)?),
        None => Err(ReadError::BadTree),
    }
}

fn read_name(alloc: Global, value: &Value) -> Result<Field, ReadError>
    ensures ok { IfOk result
        (λ f. reading.name_part (json_of (view value.now)) ≡ Some (part_of f)) }
    ensures err { IfErr result
        (λ e. Says e (reading.name_part (json_of (view value.now)) ≡ None)) }
{
    match text_in(value) {
        Some(name) if is_identifier_name(name) => Ok(text_field(alloc, name)?),
        _ => Err(ReadError::BadTree),
    }
}

// A whole number of 64 bits.
fn whole_number(value: &Value) -> Option<u64>
    ensures { result ≡ reading.below (2 ^ 64) (json_of (view value.now)) }
{
    match value {
        Value::Number(number) => number.as_u64(),
        _ => None,
    }
}

// A code unit.
fn read_unit(value: &Value) -> Result<u16, ReadError>
    ensures ok { IfOk result (λ u. reading.below (2 ^ 16) (json_of (view value.now)) ≡ Some u) }
    ensures err { IfErr result
        (λ e. Says e (reading.below (2 ^ 16) (json_of (view value.now)) ≡ None)) }
{
    match below(65_536, value) {
        Some(unit) => Ok(unit as u16),
        None => Err(ReadError::BadTree),
    }
}

// The code units that a list holds.
fn read_unit_list(alloc: Global, items: &Vec<Value>) -> Result<Vec<u16>, ReadError>
    ensures ok { IfOk result (λ us.
        reading.units_in_list (json.items_of (items_view items.now.items)) ≡ Some us.items) }
    ensures err { IfErr result (λ e. Says e
        (reading.units_in_list (json.items_of (items_view items.now.items)) ≡ None)) }
{
    let mut units = Vec::with_capacity(alloc, items.len())?;
    for item in items {
        units.push(read_unit(item)?)?;
    }
    Ok(units)
}

// A copy of a string.
fn string_field(alloc: Global, content: &str) -> Result<Field, AllocError>
    ensures { IfOk result (λ f. part_of f ≡ reading.one (units (units_of content.now))) }
{
    Ok(Field::Str(JSText::from_str(alloc, content)?))
}

// A copy of code units.
fn units_field(alloc: Global, content: &[u16]) -> Result<Field, AllocError>
    ensures { IfOk result (λ f. part_of f ≡ reading.one (units content.now)) }
{
    Ok(Field::Str(JSText::from_units(alloc, content)?))
}

// A string, or a list of code units.
fn read_units(alloc: Global, value: &Value) -> Result<Field, ReadError>
    ensures ok { IfOk result (λ f. option_map (λ us. reading.one (units us))
        (reading.units_in (json_of (view value.now))) ≡ Some (part_of f)) }
    ensures err { IfErr result (λ e. Says e (option_map (λ us. reading.one (units us))
        (reading.units_in (json_of (view value.now))) ≡ None)) }
{
    match value {
        Value::String(text) => Ok(string_field(alloc, text.as_str())?),
        Value::Array(items) => {
            let units = read_unit_list(alloc, items)?;
            Ok(units_field(alloc, units.as_slice())?)
        }
        _ => Err(ReadError::BadTree),
    }
}

// The field that a Literal's value is.
fn read_literal(alloc: Global, value: &Value) -> Result<Field, ReadError>
    ensures ok { IfOk result
        (λ f. reading.value_part (json_of (view value.now)) ≡ Some (part_of f)) }
    ensures err { IfErr result
        (λ e. Says e (reading.value_part (json_of (view value.now)) ≡ None)) }
{
    match value {
        Value::Null => Ok(Field::Empty),
        Value::Bool(truth) => Ok(Field::Flag(*truth)),
        Value::Number(_) => match whole_number(value) {
            Some(number) => Ok(Field::Whole(number)),
            None => Err(ReadError::BadTree),
        },
        Value::String(_) | Value::Array(_) => read_units(alloc, value),
        Value::Object(members) => {
            if members.is_empty() {
                Ok(Field::Empty)
            } else {
                Err(ReadError::BadTree)
            }
        }
    }
}

// Whether a key is one of these two.
fn is_one_of(key: &str, first: &str, second: &str) -> bool
    requires first { IsTrue (is_ascii first.now) }
    requires second { IsTrue (is_ascii second.now) }
    ensures { result ≡ (bytes_eq (units_of key.now) first.now
        || bytes_eq (units_of key.now) second.now) }
{
    key == first || key == second
}

// Whether an object has these two keys and no others.
fn has_only(first: &str, second: &str, members: &Map<String, Value>) -> bool
    requires first { IsTrue (is_ascii first.now) }
    requires second { IsTrue (is_ascii second.now) }
    ensures keys { result ≡ reading.has_only first.now second.now
        (json.members_of (members_view members.now.entries)) }
    ensures distinct { reading.are_distinct (json.members_of (members_view members.now.entries))
        ≡ true }
{
    for (key, _) in members.iter() {
        if !is_one_of(key.as_str(), first, second) {
            return false;
        }
    }
    true
}

// The text under a key of `regex`, or null where there is no `regex`.
fn read_regex(alloc: Global, value: &Value, key: &str) -> Result<Field, ReadError>
    requires { IsTrue (is_ascii key.now) }
    ensures ok { IfOk result
        (λ f. reading.regex_part key.now (json_of (view value.now)) ≡ Some (part_of f)) }
    ensures err { IfErr result
        (λ e. Says e (reading.regex_part key.now (json_of (view value.now)) ≡ None)) }
{
    match value {
        Value::Null => Ok(Field::Empty),
        Value::Object(members) => read_regex_text(alloc, members, key),
        _ => Err(ReadError::BadTree),
    }
}

fn read_regex_text(
    alloc: Global,
    members: &Map<String, Value>,
    key: &str,
) -> Result<Field, ReadError>
    requires { IsTrue (is_ascii key.now) }
    ensures ok { IfOk result (λ f. reading.regex_part key.now
        (object (json.members_of (members_view members.now.entries))) ≡ Some (part_of f)) }
    ensures err { IfErr result (λ e. Says e (reading.regex_part key.now
        (object (json.members_of (members_view members.now.entries))) ≡ None)) }
{
    if !has_only("pattern", "flags", members) {
        return Err(ReadError::BadTree);
    }
    match member(members, key) {
        Some(value) => read_text(alloc, value),
        None => Err(ReadError::BadTree),
    }
}

// The code units under a key of a template element's `value`, which may be missing or null where
// they are `optional`.
fn read_template(
    alloc: Global,
    value: &Value,
    key: &str,
    optional: bool,
) -> Result<Field, ReadError>
    requires { IsTrue (is_ascii key.now) }
    ensures ok { IfOk result (λ f.
        reading.template_part optional key.now (json_of (view value.now)) ≡ Some (part_of f)) }
    ensures err { IfErr result (λ e. Says e
        (reading.template_part optional key.now (json_of (view value.now)) ≡ None)) }
{
    match value {
        Value::Object(members) => read_template_text(alloc, members, key, optional),
        _ => Err(ReadError::BadTree),
    }
}

fn read_template_text(
    alloc: Global,
    members: &Map<String, Value>,
    key: &str,
    optional: bool,
) -> Result<Field, ReadError>
    requires { IsTrue (is_ascii key.now) }
    ensures ok { IfOk result (λ f. reading.template_part optional key.now
        (object (json.members_of (members_view members.now.entries))) ≡ Some (part_of f)) }
    ensures err { IfErr result (λ e. Says e (reading.template_part optional key.now
        (object (json.members_of (members_view members.now.entries))) ≡ None)) }
{
    if !has_only("raw", "cooked", members) {
        return Err(ReadError::BadTree);
    }
    match member(members, key) {
        Some(value) => {
            if optional && is_null(value) {
                Ok(Field::Empty)
            } else {
                read_units(alloc, value)
            }
        }
        None => {
            if optional {
                Ok(Field::Empty)
            } else {
                Err(ReadError::BadTree)
            }
        }
    }
}

// The node whose shape a value has.
#[cycle(read)]
fn read_node(alloc: Global, value: &Value) -> Result<Node, ReadError>
    ensures ok { IfOk result (λ n. reading.shape_of (json_of (view value.now)) ≡ Some n) }
    ensures err { IfErr result (λ e. Says e (reading.shape_of (json_of (view value.now)) ≡ None)) }
{
    match value {
        Value::Object(members) => read_object(alloc, members),
        _ => Err(ReadError::BadTree),
    }
}

#[cycle(read)]
fn read_object(alloc: Global, members: &Map<String, Value>) -> Result<Node, ReadError>
    ensures ok { IfOk result (λ n.
        reading.shape_of (object (json.members_of (members_view members.now.entries))) ≡ Some n) }
    ensures err { IfErr result (λ e. Says e
        (reading.shape_of (object (json.members_of (members_view members.now.entries))) ≡ None)) }
{
    let Some(row) = row_for(members) else {
        return Err(ReadError::BadTree);
    };
    let Some(start) = offset(member(members, "start")) else {
        return Err(ReadError::BadTree);
    };
    let Some(end) = offset(member(members, "end")) else {
        return Err(ReadError::BadTree);
    };
    if !only_known(row.columns, members) || !is_paired(row.kind, members) {
        return Err(ReadError::BadTree);
    }
    let fields = read_fields(alloc, members, row.columns)?;
    Ok(Node {
        kind: row.kind,
        start,
        end,
        fields: FieldList::from_vec(fields),
    })
}

#[cycle(read)]
fn read_fields(
    alloc: Global,
    members: &Map<String, Value>,
    columns: &[Column],
) -> Result<Vec<Field>, ReadError>
    requires { IsTrue (are_readable (map column_of columns.now)) }
    ensures ok { IfOk result (λ fs. fields_in (json.members_of (members_view members.now.entries))
        (map column_of columns.now) ≡ Some (parts_of fs.items)) }
    ensures err { IfErr result
        (λ e. Says e (fields_in (json.members_of (members_view members.now.entries))
        (map column_of columns.now) ≡ None)) }
{
    let mut fields = Vec::with_capacity(alloc, columns.len())?;
    for column in columns {
        fields.push(read_member(alloc, members, column)?)?;
    }
    Ok(fields)
}

#[cycle(read)]
fn read_member(
    alloc: Global,
    members: &Map<String, Value>,
    column: &Column,
) -> Result<Field, ReadError>
    requires { IsTrue (is_readable (column_of column.now)) }
    ensures ok { IfOk result
        (λ f. reading.part_in (json.members_of (members_view members.now.entries))
        (column_of column.now) ≡ Some (part_of f)) }
    ensures err { IfErr result
        (λ e. Says e (reading.part_in (json.members_of (members_view members.now.entries))
        (column_of column.now) ≡ None)) }
{
    match member(members, outer_key(column)) {
        Some(value) => read_part(alloc, value, column),
        None => absent(alloc, column.class),
    }
}

// The field that a value is in a column.
#[cycle(read)]
fn read_part(alloc: Global, value: &Value, column: &Column) -> Result<Field, ReadError>
    requires { IsTrue (is_readable (column_of column.now)) }
    ensures ok { IfOk result
        (λ f. field_from (column_of column.now) (json_of (view value.now)) ≡ Some (part_of f)) }
    ensures err { IfErr result
        (λ e. Says e (field_from (column_of column.now) (json_of (view value.now)) ≡ None)) }
{
    match column.class {
        Class::Flag => match value {
            Value::Bool(flag) => Ok(Field::Flag(*flag)),
            _ => Err(ReadError::BadTree),
        },
        Class::Word(words) => match word_in(words, value) {
            Some(number) => Ok(Field::Word(number)),
            None => Err(ReadError::BadTree),
        },
        Class::Text => read_text(alloc, value),
        Class::TextOr => {
            if is_null(value) {
                Ok(Field::Empty)
            } else {
                read_text(alloc, value)
            }
        }
        Class::Name => read_name(alloc, value),
        Class::LiteralValue => read_literal(alloc, value),
        Class::Pattern | Class::Flags => read_regex(alloc, value, column.key),
        Class::Raw => read_template(alloc, value, column.key, false),
        Class::Cooked => read_template(alloc, value, column.key, true),
        Class::One(_) => read_child(alloc, value),
        Class::Maybe(_) => {
            if is_null(value) {
                Ok(Field::Empty)
            } else {
                read_child(alloc, value)
            }
        }
        Class::Many(_) | Class::ManyOr(_) => read_list(alloc, value, false),
        Class::Holes(_) => read_list(alloc, value, true),
    }
}

#[cycle(read)]
fn read_child(alloc: Global, value: &Value) -> Result<Field, ReadError>
    ensures ok { IfOk result (λ f.
        option_map alone (reading.shape_of (json_of (view value.now))) ≡ Some (part_of f)) }
    ensures err { IfErr result (λ e. Says e
        (option_map alone (reading.shape_of (json_of (view value.now))) ≡ None)) }
{
    Ok(Field::Child(Box::new(alloc, read_node(alloc, value)?)?))
}

#[cycle(read)]
fn read_list(alloc: Global, value: &Value, holes: bool) -> Result<Field, ReadError>
    ensures ok { IfOk result (λ f. option_map (λ us. many us done)
        (reading.list_of (json_of (view value.now)) holes) ≡ Some (part_of f)) }
    ensures err { IfErr result (λ e. Says e (option_map (λ us. many us done)
        (reading.list_of (json_of (view value.now)) holes) ≡ None)) }
{
    match value {
        Value::Array(items) => Ok(Field::List(NodeList::from_vec(read_items(
            alloc, items, holes,
        )?))),
        _ => Err(ReadError::BadTree),
    }
}

#[cycle(read)]
fn read_items(
    alloc: Global,
    items: &Vec<Value>,
    holes: bool,
) -> Result<Vec<Option<Node>>, ReadError>
    ensures ok { IfOk result (λ ns.
        reading.items_from (json.items_of (items_view items.now.items)) holes
        ≡ Some (items_of ns.items)) }
    ensures err { IfErr result (λ e. Says e
        (reading.items_from (json.items_of (items_view items.now.items)) holes ≡ None)) }
{
    let mut nodes = Vec::with_capacity(alloc, items.len())?;
    for item in items {
        nodes.push(read_item(alloc, item, holes)?)?;
    }
    Ok(nodes)
}

#[cycle(read)]
fn read_item(alloc: Global, value: &Value, holes: bool) -> Result<Option<Node>, ReadError>
    ensures ok { IfOk result
        (λ n. item_from holes (json_of (view value.now)) ≡ Some (item_of n)) }
    ensures err { IfErr result
        (λ e. Says e (item_from holes (json_of (view value.now)) ≡ None)) }
{
    if holes && is_null(value) {
        return Ok(None);
    }
    Ok(Some(read_node(alloc, value)?))
}
