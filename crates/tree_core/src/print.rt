//! The printer: a tree as ESTree in JSON.

ghost use Rattle.std.specs.Prelude.{◌≡◌, OnErr, OnOk, false, map, option_map, true};
ghost use Rattle.oxc_estree.specs.Open.{add_element, add_field, add_fields, closed, list_of, new_struct};
ghost use Rattle.oxc_estree.specs.Out.{flags, wrote};
ghost use Rattle.oxc_estree.specs.Refused.{IsCutShort};
ghost use Rattle.tree_core.specs.Meanings as spec;
ghost use Rattle.tree_core.specs.Meanings.{inside};
ghost use Rattle.tree_nodes.specs.Rows.{column_of};
ghost use Rattle.tree_nodes.specs.Tree as trees;
ghost use Rattle.tree_core.specs.Values as values;
ghost use Rattle.tree_nodes.specs.Views.{part_of};

use crate::program::Program;
use oxc_estree::{ESTree, JsonStr, Serializer};
use std::alloc::AllocError;
use tree_nodes::literals::is_fixed;
use tree_nodes::{
    Class, Column, Field, FieldList, Kind, Node, NodeList, get_column, row, word_list,
};

// The word with this number in a field of the class.
fn word_text(class: Class, number: u8) -> &'static str
    ensures { result.now ≡ values.word_text class number }
{
    match class {
        Class::Word(words) => match word_list(words).get(number as usize) {
            Some(word) => *word,
            None => "",
        },
        _ => "",
    }
}

// Whether the node prints as null where its value stands, and is marked.
#[tactic(auto, unfolding(crate::specs::Values::is_marked))]
fn is_marked(node: &Node) -> bool
    ensures { result ≡ values.is_marked node.now.kind node.now.fields }
{
    node.kind.number() == Kind::Literal.number() && is_fixed(&node.fields)
}

fn is_value_class(class: Class) -> bool
    ensures { result ≡ spec.is_value_class class }
{
    matches!(class, Class::LiteralValue)
}

fn is_empty(field: &Field) -> bool
    ensures { result ≡ trees.is_empty (part_of field.now) }
{
    matches!(field, Field::Empty)
}

// The key of the object that a field shares with the one after it.
fn shared_key(class: Class, field: &Field) -> Option<&'static str>
    ensures { option_map (λ k. k.now) result ≡ spec.shared_key class (part_of field.now) }
{
    match field {
        Field::Child(_) | Field::List(_) => return None,
        _ => {}
    }
    match class {
        Class::Pattern => Some("regex"),
        Class::Raw => Some("value"),
        _ => None,
    }
}

// Whether the object that begins with this field is left out.
fn is_left_out(class: Class, field: &Field) -> bool
    ensures { result ≡ spec.is_left_out class (part_of field.now) }
{
    matches!(class, Class::Pattern) && is_empty(field)
}

// Writes a field of a struct that stands open.
fn write_field<T: ESTree, S: Serializer>(
    key: &'static str,
    first: bool,
    value: &T,
    serializer: &mut S,
) -> Result<(), AllocError>
    ensures ok { OnOk result (S.out serializer.new
        ≡ (add_field (inside first (S.out serializer.old)) key.now
        (T.meaning value.now (flags (S.out serializer.old)))).out) }
    ensures refused { OnErr result (IsCutShort (S.out serializer.old) (S.out serializer.new)
        (add_field (inside first (S.out serializer.old)) key.now
        (T.meaning value.now (flags (S.out serializer.old)))).out) }
{
    serializer.begin_field(key, first)?;
    value.serialize(serializer)?;
    serializer.end_field();
    Ok(())
}

// Writes what stands before the fields of a node.
fn write_head<S: Serializer>(
    name: &str,
    start: u32,
    end: u32,
    serializer: &mut S,
) -> Result<(), AllocError>
    ensures ok { OnOk result (S.out serializer.new
        ≡ (add_fields (new_struct (S.out serializer.old)) (spec.head_fields name.now start end)).out) }
    ensures refused { OnErr result (IsCutShort (S.out serializer.old) (S.out serializer.new)
        (add_fields (new_struct (S.out serializer.old)) (spec.head_fields name.now start end)).out) }
{
    serializer.begin_struct()?;
    write_field("type", true, &JsonStr(name), serializer)?;
    write_field("start", false, &start, serializer)?;
    write_field("end", false, &end, serializer)
}

// Writes null, and records where it stands if it is marked.
fn write_null<S: Serializer>(marked: bool, serializer: &mut S) -> Result<(), AllocError>
    ensures ok { OnOk result (S.out serializer.new
        ≡ wrote (S.out serializer.old) (spec.null_meaning marked)) }
    ensures refused { OnErr result (IsCutShort (S.out serializer.old) (S.out serializer.new)
        (wrote (S.out serializer.old) (spec.null_meaning marked))) }
{
    if marked {
        serializer.record_fix_path()?;
    }
    ().serialize(serializer)
}

impl ESTree for Program {
    ghost use Rattle.tree_core.specs.Values.{meaning_of};

    ghost meaning = { λ p _. meaning_of p };

    fn serialize<S: Serializer>(&self, serializer: &mut S) -> Result<(), AllocError> {
        write_node(self.root(), serializer)
    }
}

// Writes a node.
#[cycle(write)]
fn write_node<S: Serializer>(node: &Node, serializer: &mut S) -> Result<(), AllocError>
    ensures ok { OnOk result (S.out serializer.new
        ≡ wrote (S.out serializer.old) (spec.node_meaning node.now)) }
    ensures refused { OnErr result (IsCutShort (S.out serializer.old) (S.out serializer.new)
        (wrote (S.out serializer.old) (spec.node_meaning node.now))) }
{
    let row = row(node.kind);
    let marked = is_marked(node);
    write_head(row.name, node.start, node.end, serializer)?;
    write_fields(&node.fields, row.columns, marked, serializer)
}

// Writes the fields of a node, and ends its object. `marked`: its `value` is.
#[cycle(write)]
fn write_fields<S: Serializer>(
    fields: &FieldList,
    columns: &[Column],
    marked: bool,
    serializer: &mut S,
) -> Result<(), AllocError>
    requires { spec.are_paired (map column_of columns.now) ≡ true }
    ensures ok { OnOk result (S.out serializer.new
        ≡ closed (add_fields (inside false (S.out serializer.old))
        (spec.field_meanings marked fields.now (map column_of columns.now)))) }
    ensures refused { OnErr result (IsCutShort (S.out serializer.old) (S.out serializer.new)
        (closed (add_fields (inside false (S.out serializer.old))
        (spec.field_meanings marked fields.now (map column_of columns.now))))) }
{
    let mut i = 0;
    while i < columns.len() {
        let Some(field) = fields.get(i) else { break };
        let column = &columns[i];
        if let Some(outer) = shared_key(column.class, field) {
            write_shared(
                outer,
                field,
                column,
                fields.get(i + 1),
                get_column(columns, i + 1),
                marked,
                serializer,
            )?;
            i += 2;
        } else {
            write_single(field, column, marked, serializer)?;
            i += 1;
        }
    }
    serializer.end_struct(false)
}

// Writes a field of its own.
#[cycle(write)]
fn write_single<S: Serializer>(
    field: &Field,
    column: &Column,
    marked: bool,
    serializer: &mut S,
) -> Result<(), AllocError>
    ensures ok { OnOk result (S.out serializer.new
        ≡ (add_fields (inside false (S.out serializer.old))
        (spec.single_field marked (column_of column.now) (part_of field.now))).out) }
    ensures refused { OnErr result (IsCutShort (S.out serializer.old) (S.out serializer.new)
        (add_fields (inside false (S.out serializer.old))
        (spec.single_field marked (column_of column.now) (part_of field.now))).out) }
{
    if column.omit && is_empty(field) {
        return Ok(());
    }
    write_member(column.key, false, field, column.class, marked, serializer)
}

// Writes the object of a field and the one after it.
#[cycle(write)]
fn write_shared<S: Serializer>(
    outer: &'static str,
    field: &Field,
    column: &Column,
    next: Option<&Field>,
    next_column: Option<&Column>,
    marked: bool,
    serializer: &mut S,
) -> Result<(), AllocError>
    ensures ok { OnOk result (S.out serializer.new
        ≡ (add_fields (inside false (S.out serializer.old))
        (spec.shared_field marked outer.now (column_of column.now) (part_of field.now)
        (option_map (λ c. column_of c.now) next_column.entry)
        (option_map (λ f. part_of f.now) next.entry))).out) }
    ensures refused { OnErr result (IsCutShort (S.out serializer.old) (S.out serializer.new)
        (add_fields (inside false (S.out serializer.old))
        (spec.shared_field marked outer.now (column_of column.now) (part_of field.now)
        (option_map (λ c. column_of c.now) next_column.entry)
        (option_map (λ f. part_of f.now) next.entry))).out) }
{
    let Some(next) = next else { return Ok(()) };
    let Some(next_column) = next_column else {
        return Ok(())
    };
    if is_left_out(column.class, field) {
        return Ok(());
    }
    serializer.begin_field(outer, false)?;
    write_pair(field, column, next, next_column, marked, serializer)?;
    serializer.end_field();
    Ok(())
}

// Writes an object of two fields.
#[cycle(write)]
fn write_pair<S: Serializer>(
    field: &Field,
    column: &Column,
    next: &Field,
    next_column: &Column,
    marked: bool,
    serializer: &mut S,
) -> Result<(), AllocError>
    ensures ok { OnOk result (S.out serializer.new
        ≡ wrote (S.out serializer.old)
        (spec.pair_meaning marked (column_of column.now) (part_of field.now)
        (column_of next_column.now) (part_of next.now))) }
    ensures refused { OnErr result (IsCutShort (S.out serializer.old) (S.out serializer.new)
        (wrote (S.out serializer.old)
        (spec.pair_meaning marked (column_of column.now) (part_of field.now)
        (column_of next_column.now) (part_of next.now)))) }
{
    serializer.begin_struct()?;
    write_member(column.key, true, field, column.class, marked, serializer)?;
    write_member(
        next_column.key,
        false,
        next,
        next_column.class,
        marked,
        serializer,
    )?;
    serializer.end_struct(false)
}

// Writes a field under its key.
#[cycle(write)]
fn write_member<S: Serializer>(
    key: &'static str,
    first: bool,
    field: &Field,
    class: Class,
    marked: bool,
    serializer: &mut S,
) -> Result<(), AllocError>
    ensures ok { OnOk result (S.out serializer.new
        ≡ (add_field (inside first (S.out serializer.old)) key.now
        (spec.part_meaning marked class (part_of field.now))).out) }
    ensures refused { OnErr result (IsCutShort (S.out serializer.old) (S.out serializer.new)
        (add_field (inside first (S.out serializer.old)) key.now
        (spec.part_meaning marked class (part_of field.now))).out) }
{
    serializer.begin_field(key, first)?;
    write_part(field, class, marked, serializer)?;
    serializer.end_field();
    Ok(())
}

#[cycle(write)]
fn write_part<S: Serializer>(
    field: &Field,
    class: Class,
    marked: bool,
    serializer: &mut S,
) -> Result<(), AllocError>
    ensures ok { OnOk result (S.out serializer.new
        ≡ wrote (S.out serializer.old) (spec.part_meaning marked class (part_of field.now))) }
    ensures refused { OnErr result (IsCutShort (S.out serializer.old) (S.out serializer.new)
        (wrote (S.out serializer.old) (spec.part_meaning marked class (part_of field.now)))) }
{
    match field {
        Field::Empty => write_null(marked && is_value_class(class), serializer),
        Field::Flag(flag) => flag.serialize(serializer),
        Field::Word(number) => JsonStr(word_text(class, *number)).serialize(serializer),
        Field::Text(text) => JsonStr(text.as_str()).serialize(serializer),
        Field::Str(units) => units.as_js_str().serialize(serializer),
        Field::Whole(number) => number.serialize(serializer),
        Field::Child(node) => write_node(node, serializer),
        Field::List(nodes) => write_nodes(nodes, serializer),
    }
}

#[cycle(write)]
fn write_nodes<S: Serializer>(nodes: &NodeList, serializer: &mut S) -> Result<(), AllocError>
    ensures ok { OnOk result (S.out serializer.new
        ≡ wrote (S.out serializer.old) (list_of (spec.item_meanings nodes.now))) }
    ensures refused { OnErr result (IsCutShort (S.out serializer.old) (S.out serializer.new)
        (wrote (S.out serializer.old) (list_of (spec.item_meanings nodes.now)))) }
{
    serializer.begin_sequence()?;
    for i in 0..nodes.len() {
        let Some(item) = nodes.get(i) else { break };
        write_element(i, item, serializer)?;
    }
    serializer.end_sequence(nodes.len() == 0)
}

#[cycle(write)]
fn write_element<S: Serializer>(
    index: usize,
    item: &Option<Node>,
    serializer: &mut S,
) -> Result<(), AllocError>
    ensures ok { OnOk result (S.out serializer.new
        ≡ (add_element (spec.inside_list index (S.out serializer.old))
        (spec.item_meaning item.now)).out) }
    ensures refused { OnErr result (IsCutShort (S.out serializer.old) (S.out serializer.new)
        (add_element (spec.inside_list index (S.out serializer.old))
        (spec.item_meaning item.now)).out) }
{
    serializer.begin_element(index)?;
    write_item(item, serializer)?;
    serializer.end_element();
    Ok(())
}

#[cycle(write)]
fn write_item<S: Serializer>(item: &Option<Node>, serializer: &mut S) -> Result<(), AllocError>
    ensures ok { OnOk result (S.out serializer.new
        ≡ wrote (S.out serializer.old) (spec.item_meaning item.now)) }
    ensures refused { OnErr result (IsCutShort (S.out serializer.old) (S.out serializer.new)
        (wrote (S.out serializer.old) (spec.item_meaning item.now))) }
{
    match item {
        Some(node) => write_node(node, serializer),
        None => ().serialize(serializer),
    }
}
