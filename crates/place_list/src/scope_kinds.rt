//! What kind of scope a node opens.

ghost use Rattle.std.specs.Prelude.{◌≡◌};
ghost use Rattle.place_list.specs.ScopeKinds as spec;
ghost use Rattle.tree_nodes.specs.Rows.{column_of};

use crate::setting::ScopeKind;
use tree_nodes::roles::word_at;
use tree_nodes::{Column, FieldList, Kind};

#[tactic(auto, unfolding(crate::specs::ScopeKinds::method_scope))]
fn method_scope(word: u8) -> ScopeKind
    ensures { result ≡ spec.method_scope word }
{
    if word == 0 {
        ScopeKind::Constructor
    } else if word == 2 {
        ScopeKind::Getter
    } else if word == 3 {
        ScopeKind::Setter
    } else {
        ScopeKind::Function
    }
}

#[tactic(auto, unfolding(crate::specs::ScopeKinds::property_scope))]
fn property_scope(word: u8) -> ScopeKind
    ensures { result ≡ spec.property_scope word }
{
    if word == 1 {
        ScopeKind::Getter
    } else if word == 2 {
        ScopeKind::Setter
    } else {
        ScopeKind::Function
    }
}

// Of a function that is the value of a node of this kind with these fields.
#[tactic(auto, unfolding(crate::specs::ScopeKinds::value_scope))]
pub(crate) fn value_scope(kind: Kind, fields: &FieldList) -> ScopeKind
    ensures { result ≡ spec.value_scope kind fields.now }
{
    match kind {
        Kind::MethodDefinition => method_scope(word_at(fields, 2)),
        Kind::Property => property_scope(word_at(fields, 0)),
        _ => ScopeKind::Function,
    }
}

#[tactic(auto, unfolding(crate::specs::ScopeKinds::function_scope))]
fn function_scope(column: &Column, value: ScopeKind) -> ScopeKind
    ensures { result ≡ spec.function_scope (column_of column.now) value }
{
    if column.key == "value" {
        value
    } else {
        ScopeKind::Function
    }
}

// Of a node of this kind in this field, where a function that is the value there opens that scope.
#[tactic(auto, unfolding(crate::specs::ScopeKinds::scope_kind))]
pub(crate) fn scope_kind(kind: Kind, column: &Column, value: ScopeKind) -> ScopeKind
    ensures { result ≡ spec.scope_kind kind (column_of column.now) value }
{
    match kind {
        Kind::Program => ScopeKind::TopLevel,
        Kind::FunctionDeclaration => ScopeKind::Function,
        Kind::FunctionExpression => function_scope(column, value),
        Kind::ArrowFunctionExpression => ScopeKind::Arrow,
        Kind::StaticBlock => ScopeKind::ClassStatic,
        Kind::CatchClause => ScopeKind::Catch,
        Kind::WithStatement => ScopeKind::With,
        _ => ScopeKind::Block,
    }
}
