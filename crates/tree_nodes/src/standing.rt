//! Where each node may stand: what a field takes, by its group, by the fields beside it, and by
//! the role that it gives.

ghost use Rattle.std.specs.Prelude.{◌≡◌, ◌&&◌, map, drop};
ghost use Rattle.tree_nodes.specs.Along.{each, first_column};
ghost use Rattle.tree_nodes.specs.Kinds.{is_in};
ghost use Rattle.tree_nodes.specs.Rows.{column_of};
ghost use Rattle.tree_nodes.specs.Standing as spec;
ghost use Rattle.tree_nodes.specs.Tree.{alone, part};
ghost use Rattle.tree_nodes.specs.Views.{part_of, item_of};

use crate::kind::Kind;
use crate::literals::{has_case, is_key, is_text};
use crate::node::{Field, FieldList, Node, NodeList};
use crate::roles::{empty_at, first_text, flag_at, role_at, word_at};
use crate::rows::row;
use crate::table::{Class, Column, Group, Mark, Mode, Role, get_column};
use std::alloc::Global;

const BODIES: [Kind; 19] = [
    Kind::ExpressionStatement,
    Kind::BlockStatement,
    Kind::EmptyStatement,
    Kind::DebuggerStatement,
    Kind::ReturnStatement,
    Kind::ThrowStatement,
    Kind::LabeledStatement,
    Kind::BreakStatement,
    Kind::ContinueStatement,
    Kind::IfStatement,
    Kind::SwitchStatement,
    Kind::TryStatement,
    Kind::WhileStatement,
    Kind::DoWhileStatement,
    Kind::ForStatement,
    Kind::ForInStatement,
    Kind::ForOfStatement,
    Kind::WithStatement,
    Kind::VariableDeclaration,
];

const NAMED_STATEMENTS: [Kind; 2] = [Kind::FunctionDeclaration, Kind::ClassDeclaration];

const MODULE_DECLARATIONS: [Kind; 4] = [
    Kind::ImportDeclaration,
    Kind::ExportNamedDeclaration,
    Kind::ExportDefaultDeclaration,
    Kind::ExportAllDeclaration,
];

const EXPRESSIONS: [Kind; 25] = [
    Kind::ThisExpression,
    Kind::ArrayExpression,
    Kind::ObjectExpression,
    Kind::FunctionExpression,
    Kind::ArrowFunctionExpression,
    Kind::ClassExpression,
    Kind::UnaryExpression,
    Kind::UpdateExpression,
    Kind::BinaryExpression,
    Kind::LogicalExpression,
    Kind::AssignmentExpression,
    Kind::ConditionalExpression,
    Kind::CallExpression,
    Kind::NewExpression,
    Kind::MemberExpression,
    Kind::ChainExpression,
    Kind::SequenceExpression,
    Kind::YieldExpression,
    Kind::AwaitExpression,
    Kind::ImportExpression,
    Kind::MetaProperty,
    Kind::TemplateLiteral,
    Kind::TaggedTemplateExpression,
    Kind::Identifier,
    Kind::Literal,
];

// ---- conditions on the node that stands there

#[tactic(auto, unfolding(crate::specs::Kinds::is_in))]
fn is_statement(kind: Kind) -> bool
    ensures { result ≡ is_in kind spec.statements }
{
    kind.is_among(&NAMED_STATEMENTS) || kind.is_among(&BODIES)
}

#[tactic(auto, unfolding(crate::specs::Standing::is_expression))]
fn is_expression(kind: Kind) -> bool
    ensures { result ≡ spec.is_expression kind }
{
    kind.is_among(&EXPRESSIONS)
}

// A function or class declaration has a name.
#[tactic(auto, unfolding(crate::specs::Standing::is_named))]
fn is_named(kind: Kind, fields: &FieldList) -> bool
    ensures { result ≡ spec.is_named kind fields.now }
{
    match kind {
        Kind::FunctionDeclaration | Kind::ClassDeclaration => !empty_at(fields, 0),
        _ => true,
    }
}

// A declaration is one of kind `var`.
#[tactic(auto, unfolding(crate::specs::Standing::is_var_alone))]
fn is_var_alone(kind: Kind, fields: &FieldList) -> bool
    ensures { result ≡ spec.is_var_alone kind fields.now }
{
    match kind {
        Kind::VariableDeclaration => word_at(fields, 0) == 0,
        _ => true,
    }
}

#[tactic(auto, unfolding(crate::specs::Standing::is_string_literal))]
fn is_string_literal(kind: Kind, fields: &FieldList) -> bool
    ensures { result ≡ spec.is_string_literal kind fields.now }
{
    match kind {
        Kind::Literal => is_text(fields),
        _ => false,
    }
}

// A key that isn't computed.
#[tactic(auto, unfolding(crate::specs::Standing::is_plain_key))]
fn is_plain_key(kind: Kind, fields: &FieldList) -> bool
    ensures { result ≡ spec.is_plain_key kind fields.now }
{
    match kind {
        Kind::Identifier => true,
        Kind::Literal => is_key(fields),
        _ => false,
    }
}

#[tactic(auto, unfolding(crate::specs::Standing::declares_role))]
fn declares(role: Role) -> bool
    ensures { result ≡ spec.declares_role role }
{
    matches!(role, Role::Declares(_))
}

#[tactic(auto, unfolding(crate::specs::Standing::is_read))]
fn is_read(role: Role) -> bool
    ensures { result ≡ spec.is_read role }
{
    matches!(role, Role::Read)
}

const PATTERNS: [Kind; 3] = [Kind::Identifier, Kind::ObjectPattern, Kind::ArrayPattern];

// A pattern: one that declares, or a target, as the role says.
#[tactic(auto, unfolding(crate::specs::Standing::is_pattern))]
fn is_pattern(role: Role, kind: Kind) -> bool
    ensures { result ≡ spec.is_pattern role kind }
{
    kind.is_among(&PATTERNS) || !declares(role) && kind.is(Kind::MemberExpression)
}

// The value of a Property: an expression, where an Identifier in it is read, else a pattern.
#[tactic(auto, unfolding(crate::specs::Standing::is_property_value))]
fn is_property_value(role: Role, kind: Kind) -> bool
    ensures { result ≡ spec.is_property_value role kind }
{
    if is_read(role) {
        is_expression(kind)
    } else {
        is_pattern(role, kind) || kind.is(Kind::AssignmentPattern)
    }
}

// The number of `in` among the binary operators.
const WORD_IN: u8 = 20;

// The number of `module` among the source types.
const WORD_MODULE: u8 = 1;

// Whether a node of this kind with these fields may stand in a field of the group, which gives
// this role, beside the fields of its parent.
#[tactic(auto, unfolding(crate::specs::Standing::admits))]
fn admits(group: Group, role: Role, within: &FieldList, kind: Kind, fields: &FieldList) -> bool
    ensures { result ≡ spec.admits group role within.now kind fields.now }
{
    match group {
        Group::Only(only) => kind.is(only),
        Group::Statements => is_statement(kind) && is_named(kind, fields),
        Group::Bodies => kind.is_among(&BODIES) && is_var_alone(kind, fields),
        Group::ModuleItems(source_type) => {
            is_statement(kind) && is_named(kind, fields)
                || word_at(within, source_type) == WORD_MODULE
                    && kind.is_among(&MODULE_DECLARATIONS)
        }
        Group::Expressions => is_expression(kind),
        Group::Arguments => is_expression(kind) || kind.is(Kind::SpreadElement),
        Group::Callees => is_expression(kind) || kind.is(Kind::Super),
        Group::Chained => kind.is_among(&[Kind::CallExpression, Kind::MemberExpression]),
        Group::LeftOperands(operator) => {
            is_expression(kind)
                || word_at(within, operator) == WORD_IN && kind.is(Kind::PrivateIdentifier)
        }
        Group::Keys(computed) => {
            if flag_at(within, computed) {
                is_expression(kind)
            } else {
                is_plain_key(kind, fields)
            }
        }
        Group::MemberKeys(computed) => {
            if flag_at(within, computed) {
                is_expression(kind)
            } else {
                is_plain_key(kind, fields) || kind.is(Kind::PrivateIdentifier)
            }
        }
        Group::Members(computed) => {
            if flag_at(within, computed) {
                is_expression(kind)
            } else {
                kind.is_among(&[Kind::Identifier, Kind::PrivateIdentifier])
            }
        }
        Group::Initials => is_expression(kind) || kind.is(Kind::VariableDeclaration),
        Group::ForTargets => is_pattern(role, kind) || kind.is(Kind::VariableDeclaration),
        Group::ArrowBodies => is_expression(kind) || kind.is(Kind::BlockStatement),
        Group::ClassElements => kind.is_among(&[
            Kind::MethodDefinition,
            Kind::PropertyDefinition,
            Kind::StaticBlock,
        ]),
        Group::ObjectMembers => kind.is_among(&[Kind::Property, Kind::SpreadElement]),
        Group::PatternMembers => kind.is_among(&[Kind::Property, Kind::RestElement]),
        Group::PropertyValues => is_property_value(role, kind),
        Group::Patterns => is_pattern(role, kind),
        Group::ElementsOrRest => {
            is_pattern(role, kind) || kind.is_among(&[Kind::AssignmentPattern, Kind::RestElement])
        }
        Group::ImportSpecifiers => kind.is_among(&[
            Kind::ImportSpecifier,
            Kind::ImportDefaultSpecifier,
            Kind::ImportNamespaceSpecifier,
        ]),
        Group::Names => kind.is(Kind::Identifier) || is_string_literal(kind, fields),
        Group::Strings => is_string_literal(kind, fields),
        Group::Locals => {
            kind.is(Kind::Identifier) || !is_read(role) && is_string_literal(kind, fields)
        }
        Group::Declarations => {
            kind.is_among(&[
                Kind::VariableDeclaration,
                Kind::FunctionDeclaration,
                Kind::ClassDeclaration,
            ]) && is_named(kind, fields)
        }
        Group::Defaults => { is_expression(kind) || kind.is_among(&NAMED_STATEMENTS) }
    }
}

#[tactic(auto, unfolding(crate::specs::Standing::group_admits))]
fn group_admits(
    class: Class,
    role: Role,
    within: &FieldList,
    kind: Kind,
    fields: &FieldList,
) -> bool
    ensures { result ≡ spec.group_admits class role within.now kind fields.now }
{
    match class {
        Class::One(group)
        | Class::Maybe(group)
        | Class::Many(group)
        | Class::ManyOr(group)
        | Class::Holes(group) => admits(group, role, within, kind, fields),
        _ => false,
    }
}

// ---- conditions on a node alone

#[tactic(auto, unfolding(crate::specs::Standing::identifier_name))]
fn identifier_name(node: &Node) -> &str
    ensures { result.now ≡ spec.identifier_name (alone node.now) }
{
    match node.kind {
        Kind::Identifier => first_text(&node.fields),
        _ => "",
    }
}

#[tactic(auto, unfolding(crate::specs::Standing::identifier_name))]
fn identifier_name_in(field: &Field) -> &str
    ensures { result.now ≡ spec.identifier_name (part_of field.now) }
{
    match field {
        Field::Child(node) => identifier_name(node),
        _ => "",
    }
}

fn identifier_name_at(fields: &FieldList, i: u8) -> &str
    ensures { result.now ≡ spec.identifier_name (part fields.now i) }
{
    match fields.get(i as usize) {
        Some(field) => identifier_name_in(field),
        None => "",
    }
}

#[tactic(auto, unfolding(crate::specs::Standing::own_name))]
fn own_name(node: &Node) -> &str
    ensures { result.now ≡ spec.own_name (alone node.now) }
{
    match node.kind {
        Kind::Identifier => first_text(&node.fields),
        Kind::AssignmentPattern => identifier_name_at(&node.fields, 0),
        _ => "",
    }
}

#[tactic(auto, unfolding(crate::specs::Standing::own_name))]
fn own_name_in(field: &Field) -> &str
    ensures { result.now ≡ spec.own_name (part_of field.now) }
{
    match field {
        Field::Child(node) => own_name(node),
        _ => "",
    }
}

/// The name of the Identifier that the i-th field is, with a default or without; else the empty text.
pub fn own_name_at(fields: &FieldList, i: u8) -> &str
    ensures { result.now ≡ spec.own_name (part fields.now i) }
{
    match fields.get(i as usize) {
        Some(field) => own_name_in(field),
        None => "",
    }
}

#[tactic(auto, unfolding(crate::specs::Standing::is_identifier))]
fn identifier_in(field: &Field) -> bool
    ensures { result ≡ spec.is_identifier (part_of field.now) }
{
    match field {
        Field::Child(node) => is_identifier(node),
        _ => false,
    }
}

#[tactic(auto, unfolding(crate::specs::Standing::is_identifier))]
fn is_identifier(node: &Node) -> bool
    ensures { result ≡ spec.is_identifier (alone node.now) }
{
    matches!(node.kind, Kind::Identifier)
}

fn identifier_at(fields: &FieldList, i: u8) -> bool
    ensures { result ≡ spec.is_identifier (part fields.now i) }
{
    match fields.get(i as usize) {
        Some(field) => identifier_in(field),
        None => false,
    }
}

// A shorthand mark stands on a key that is an Identifier and isn't computed, before a value of the
// same name.
#[tactic(auto, unfolding(crate::specs::Standing::is_short))]
fn is_short(fields: &FieldList) -> bool
    ensures { result ≡ spec.is_short fields.now }
{
    !flag_at(fields, 5)
        && identifier_at(fields, 1)
        && own_name_at(fields, 1) == own_name_at(fields, 2)
}

#[tactic(auto, unfolding(crate::specs::Standing::is_sound))]
fn is_sound(kind: Kind, fields: &FieldList) -> bool
    ensures { result ≡ spec.is_sound kind fields.now }
{
    match kind {
        Kind::Property => !flag_at(fields, 4) || is_short(fields),
        Kind::Literal => has_case(fields),
        _ => true,
    }
}

// ---- a run of parts, in a node of this role with these fields

const UNLISTED: Column = Column {
    key: "",
    class: Class::Flag,
    mode: Mode::Gives(Role::Plain),
    inside: false,
    mark: Mark::Usual,
    omit: false,
};

fn column_at(columns: &[Column], i: usize) -> Column
    ensures { column_of result ≡ first_column (each (drop i (map column_of columns.now))) }
{
    match get_column(columns, i) {
        Some(column) => *column,
        None => UNLISTED,
    }
}

fn is_fit(class: Class, role: Role, within: &FieldList, kind: Kind, fields: &FieldList) -> bool
    ensures { result ≡ (spec.group_admits class role within.now kind fields.now
        && spec.is_sound kind fields.now) }
{
    group_admits(class, role, within, kind, fields) && is_sound(kind, fields)
}

/// Whether the tree is that of a program, with each node where it may stand.
#[tactic(auto, unfolding(crate::specs::Standing::is_placed))]
pub fn is_placed(alloc: Global, root: &Node) -> bool
    ensures { result ≡ spec.is_placed root.now }
{
    let nothing = FieldList::from_vec(Vec::new(alloc));
    node_stands(
        root,
        Class::One(Group::Only(Kind::Program)),
        Role::Read,
        &nothing,
    )
}

#[cycle(stand)]
fn node_stands(node: &Node, class: Class, role: Role, within: &FieldList) -> bool
    ensures { result ≡ spec.stands_in class role within.now (alone node.now) }
{
    is_fit(class, role, within, node.kind, &node.fields)
        && fields_stand(&node.fields, row(node.kind).columns, role)
}

#[cycle(stand)]
fn fields_stand(fields: &FieldList, columns: &[Column], own: Role) -> bool
    ensures { result ≡ spec.stands fields.now (each (map column_of columns.now)) own fields.now }
{
    for i in 0..fields.len() {
        let Some(field) = fields.get(i) else { break };
        let column = column_at(columns, i);
        if !field_stands(
            field,
            column.class,
            role_at(column.mode, own, fields),
            fields,
        ) {
            return false;
        }
    }
    true
}

#[cycle(stand)]
fn field_stands(field: &Field, class: Class, role: Role, within: &FieldList) -> bool
    ensures { result ≡ spec.stands_in class role within.now (part_of field.now) }
{
    match field {
        Field::Child(node) => node_stands(node, class, role, within),
        Field::List(nodes) => nodes_stand(nodes, class, role, within),
        _ => true,
    }
}

#[cycle(stand)]
fn nodes_stand(nodes: &NodeList, class: Class, role: Role, within: &FieldList) -> bool
    ensures { result ≡ spec.stands_in class role within.now nodes.now }
{
    for i in 0..nodes.len() {
        let Some(item) = nodes.get(i) else { break };
        if !item_stands(item, class, role, within) {
            return false;
        }
    }
    true
}

#[cycle(stand)]
fn item_stands(item: &Option<Node>, class: Class, role: Role, within: &FieldList) -> bool
    ensures { result ≡ spec.stands_in class role within.now (item_of item.now) }
{
    match item {
        Some(node) => node_stands(node, class, role, within),
        None => true,
    }
}
