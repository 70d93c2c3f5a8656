//! The rows of the node table: one for each kind, as ESTree has it in the profile of
//! docs/SPECIFICATION.md.

ghost use Rattle.std.specs.Prelude.{◌≡◌, option_map};
ghost use Rattle.tree_nodes.specs.Table as spec;
ghost use Rattle.tree_nodes.specs.Rows.{row_of};

use crate::kind::{KINDS, Kind};
use crate::table::{Class, Column, Declared, Group, Mark, Mode, Opens, Role, Row, Strict, Words};

// A field that holds nodes: an Identifier in it is read.
const NODE: Column = Column {
    key: "",
    class: Class::Flag,
    mode: Mode::Gives(Role::Read),
    inside: false,
    mark: Mark::Usual,
    omit: false,
};

// A field that holds no node.
const DATUM: Column = Column {
    key: "",
    class: Class::Flag,
    mode: Mode::Gives(Role::Plain),
    inside: false,
    mark: Mark::Usual,
    omit: false,
};

macro_rules! node {
    ($key:literal, $class:expr $(, $field:ident: $value:expr)*) => {
        Column { key: $key, class: $class, $($field: $value,)* ..NODE }
    };
}

macro_rules! datum {
    ($key:literal, $class:expr $(, $field:ident: $value:expr)*) => {
        Column { key: $key, class: $class, $($field: $value,)* ..DATUM }
    };
}

macro_rules! row {
    ($kind:ident, [$($column:expr),* $(,)?]) => {
        row!($kind, Opens::Nothing, [$($column),*])
    };
    ($kind:ident, $opens:expr, [$($column:expr),* $(,)?]) => {
        row!($kind, $opens, Strict::AsOutside, [$($column),*])
    };
    ($kind:ident, $opens:expr, $strict:expr, [$($column:expr),* $(,)?]) => {
        &Row {
            kind: Kind::$kind,
            name: stringify!($kind),
            opens: $opens,
            strict: $strict,
            columns: &[$($column),*],
        }
    };
}

/// The row of a kind.
pub fn row(kind: Kind) -> &'static Row
    ensures { row_of result.now ≡ spec.row kind }
{
    match kind {
        Kind::Program => row!(
            Program,
            Opens::Hoisting,
            Strict::ByList(1, 0),
            [
                node!("body", Class::Many(Group::ModuleItems(1)), inside: true),
                datum!("sourceType", Class::Word(Words::SourceTypes)),
                node!("hashbang", Class::Maybe(Group::Only(Kind::Hashbang))),
            ]
        ),
        Kind::Hashbang => row!(Hashbang, [datum!("value", Class::Text),]),
        Kind::ExpressionStatement => row!(
            ExpressionStatement,
            [
                node!("expression", Class::One(Group::Expressions)),
                datum!("directive", Class::TextOr, omit: true),
            ]
        ),
        Kind::BlockStatement => row!(
            BlockStatement,
            Opens::BareBlock,
            [node!("body", Class::Many(Group::Statements), inside: true),]
        ),
        Kind::EmptyStatement => row!(EmptyStatement, []),
        Kind::DebuggerStatement => row!(DebuggerStatement, []),
        Kind::ThisExpression => row!(ThisExpression, []),
        Kind::Super => row!(Super, []),
        Kind::ReturnStatement => row!(
            ReturnStatement,
            [node!("argument", Class::Maybe(Group::Expressions)),]
        ),
        Kind::ThrowStatement => row!(
            ThrowStatement,
            [node!("argument", Class::One(Group::Expressions)),]
        ),
        Kind::LabeledStatement => row!(
            LabeledStatement,
            [
                node!(
                "label", Class::One(Group::Only(Kind::Identifier)),
                mode: Mode::Gives(Role::Plain)
            ),
                node!("body", Class::One(Group::Bodies)),
            ]
        ),
        Kind::BreakStatement => row!(
            BreakStatement,
            [node!(
                "label", Class::Maybe(Group::Only(Kind::Identifier)),
                mode: Mode::Gives(Role::Plain)
            ),]
        ),
        Kind::ContinueStatement => row!(
            ContinueStatement,
            [node!(
                "label", Class::Maybe(Group::Only(Kind::Identifier)),
                mode: Mode::Gives(Role::Plain)
            ),]
        ),
        Kind::IfStatement => row!(
            IfStatement,
            [
                node!("test", Class::One(Group::Expressions)),
                node!("consequent", Class::One(Group::Bodies)),
                node!("alternate", Class::Maybe(Group::Bodies)),
            ]
        ),
        Kind::SwitchStatement => row!(
            SwitchStatement,
            Opens::Block,
            [
                node!("discriminant", Class::One(Group::Expressions)),
                node!("cases", Class::Many(Group::Only(Kind::SwitchCase)), inside: true),
            ]
        ),
        Kind::SwitchCase => row!(
            SwitchCase,
            [
                node!("test", Class::Maybe(Group::Expressions)),
                node!("consequent", Class::Many(Group::Statements)),
            ]
        ),
        Kind::TryStatement => row!(
            TryStatement,
            [
                node!("block", Class::One(Group::Only(Kind::BlockStatement))),
                node!("handler", Class::Maybe(Group::Only(Kind::CatchClause))),
                node!("finalizer", Class::Maybe(Group::Only(Kind::BlockStatement))),
            ]
        ),
        Kind::CatchClause => row!(
            CatchClause,
            Opens::Block,
            [
                node!(
                "param", Class::Maybe(Group::Patterns),
                mode: Mode::Gives(Role::Declares(Declared::Catch)),
                inside: true,
                mark: Mark::Head
            ),
                node!(
                "body", Class::One(Group::Only(Kind::BlockStatement)),
                inside: true,
                mark: Mark::Body
            ),
            ]
        ),
        Kind::WhileStatement => row!(
            WhileStatement,
            [
                node!("test", Class::One(Group::Expressions)),
                node!("body", Class::One(Group::Bodies)),
            ]
        ),
        Kind::DoWhileStatement => row!(
            DoWhileStatement,
            [
                node!("body", Class::One(Group::Bodies)),
                node!("test", Class::One(Group::Expressions)),
            ]
        ),
        Kind::ForStatement => row!(
            ForStatement,
            Opens::Block,
            [
                node!("init", Class::Maybe(Group::Initials), inside: true),
                node!("test", Class::Maybe(Group::Expressions), inside: true),
                node!("update", Class::Maybe(Group::Expressions), inside: true),
                node!("body", Class::One(Group::Bodies), inside: true),
            ]
        ),
        Kind::ForInStatement => row!(
            ForInStatement,
            Opens::Block,
            [
                node!(
                "left", Class::One(Group::ForTargets),
                mode: Mode::Gives(Role::Write),
                inside: true
            ),
                node!("right", Class::One(Group::Expressions), inside: true),
                node!("body", Class::One(Group::Bodies), inside: true),
            ]
        ),
        Kind::ForOfStatement => row!(
            ForOfStatement,
            Opens::Block,
            [
                datum!("await", Class::Flag),
                node!(
                "left", Class::One(Group::ForTargets),
                mode: Mode::Gives(Role::Write),
                inside: true
            ),
                node!("right", Class::One(Group::Expressions), inside: true),
                node!("body", Class::One(Group::Bodies), inside: true),
            ]
        ),
        Kind::WithStatement => row!(
            WithStatement,
            Opens::WithBody,
            [
                node!("object", Class::One(Group::Expressions)),
                node!("body", Class::One(Group::Bodies), inside: true),
            ]
        ),
        Kind::VariableDeclaration => row!(
            VariableDeclaration,
            [
                datum!("kind", Class::Word(Words::VariableKinds)),
                node!(
                "declarations", Class::Many(Group::Only(Kind::VariableDeclarator)),
                mode: Mode::ByKind(0)
            ),
            ]
        ),
        Kind::VariableDeclarator => row!(
            VariableDeclarator,
            [
                node!("id", Class::One(Group::Patterns), mode: Mode::Same, mark: Mark::Declarator(1)),
                node!("init", Class::Maybe(Group::Expressions)),
            ]
        ),
        Kind::FunctionDeclaration => row!(
            FunctionDeclaration,
            Opens::Hoisting,
            Strict::ByBlock(4),
            [
                node!(
                "id", Class::Maybe(Group::Only(Kind::Identifier)),
                mode: Mode::NamesFunction(1, 2)
            ),
                datum!("generator", Class::Flag),
                datum!("async", Class::Flag),
                node!(
                "params", Class::Many(Group::ElementsOrRest),
                mode: Mode::Gives(Role::Declares(Declared::Param)),
                inside: true,
                mark: Mark::Head
            ),
                node!(
                "body", Class::One(Group::Only(Kind::BlockStatement)),
                inside: true,
                mark: Mark::Body
            ),
                datum!("expression", Class::Flag),
            ]
        ),
        Kind::FunctionExpression => row!(
            FunctionExpression,
            Opens::Hoisting,
            Strict::ByBlock(4),
            [
                node!(
                "id", Class::Maybe(Group::Only(Kind::Identifier)),
                mode: Mode::NamesExpression(1, 2),
                inside: true
            ),
                datum!("generator", Class::Flag),
                datum!("async", Class::Flag),
                node!(
                "params", Class::Many(Group::ElementsOrRest),
                mode: Mode::Gives(Role::Declares(Declared::Param)),
                inside: true,
                mark: Mark::Head
            ),
                node!(
                "body", Class::One(Group::Only(Kind::BlockStatement)),
                inside: true,
                mark: Mark::Body
            ),
                datum!("expression", Class::Flag),
            ]
        ),
        Kind::ArrowFunctionExpression => row!(
            ArrowFunctionExpression,
            Opens::Hoisting,
            Strict::ByBlock(3),
            [
                datum!("expression", Class::Flag),
                datum!("async", Class::Flag),
                node!(
                "params", Class::Many(Group::ElementsOrRest),
                mode: Mode::Gives(Role::Declares(Declared::Param)),
                inside: true,
                mark: Mark::Head
            ),
                node!("body", Class::One(Group::ArrowBodies), inside: true, mark: Mark::Body),
            ]
        ),
        Kind::ClassDeclaration => row!(
            ClassDeclaration,
            Opens::Block,
            Strict::Always,
            [
                node!(
                "id", Class::Maybe(Group::Only(Kind::Identifier)),
                mode: Mode::Gives(Role::Declares(Declared::Class))
            ),
                node!("superClass", Class::Maybe(Group::Expressions), inside: true),
                node!("body", Class::One(Group::Only(Kind::ClassBody)), inside: true),
            ]
        ),
        Kind::ClassExpression => row!(
            ClassExpression,
            Opens::Block,
            Strict::Always,
            [
                node!(
                "id", Class::Maybe(Group::Only(Kind::Identifier)),
                mode: Mode::Gives(Role::Declares(Declared::ClassName)),
                inside: true
            ),
                node!("superClass", Class::Maybe(Group::Expressions), inside: true),
                node!("body", Class::One(Group::Only(Kind::ClassBody)), inside: true),
            ]
        ),
        Kind::ClassBody => row!(
            ClassBody,
            Opens::ClassMembers,
            [node!("body", Class::Many(Group::ClassElements), inside: true),]
        ),
        Kind::MethodDefinition => row!(
            MethodDefinition,
            [
                node!(
                "key", Class::One(Group::MemberKeys(3)),
                mode: Mode::UnlessComputed(3, Role::MemberKey)
            ),
                node!("value", Class::One(Group::Only(Kind::FunctionExpression))),
                datum!("kind", Class::Word(Words::MethodKinds)),
                datum!("computed", Class::Flag),
                datum!("static", Class::Flag),
            ]
        ),
        Kind::PropertyDefinition => row!(
            PropertyDefinition,
            [
                node!(
                "key", Class::One(Group::MemberKeys(2)),
                mode: Mode::UnlessComputed(2, Role::MemberKey)
            ),
                node!("value", Class::Maybe(Group::Expressions)),
                datum!("computed", Class::Flag),
                datum!("static", Class::Flag),
            ]
        ),
        Kind::StaticBlock => row!(
            StaticBlock,
            Opens::Hoisting,
            [node!("body", Class::Many(Group::Statements), inside: true),]
        ),
        Kind::ArrayExpression => row!(
            ArrayExpression,
            [node!("elements", Class::Holes(Group::Arguments)),]
        ),
        Kind::ObjectExpression => row!(
            ObjectExpression,
            [node!("properties", Class::Many(Group::ObjectMembers)),]
        ),
        Kind::Property => row!(
            Property,
            [
                datum!("kind", Class::Word(Words::PropertyKinds)),
                node!("key", Class::One(Group::Keys(5)), mode: Mode::UnlessComputed(5, Role::Plain)),
                node!("value", Class::One(Group::PropertyValues), mode: Mode::Same),
                datum!("method", Class::Flag),
                datum!("shorthand", Class::Flag),
                datum!("computed", Class::Flag),
            ]
        ),
        Kind::SpreadElement => row!(
            SpreadElement,
            [node!("argument", Class::One(Group::Expressions)),]
        ),
        Kind::RestElement => row!(
            RestElement,
            [node!("argument", Class::One(Group::Patterns), mode: Mode::Same, mark: Mark::Rest),]
        ),
        Kind::UnaryExpression => row!(
            UnaryExpression,
            [
                datum!("operator", Class::Word(Words::UnaryOperators)),
                datum!("prefix", Class::Flag),
                node!("argument", Class::One(Group::Expressions)),
            ]
        ),
        Kind::UpdateExpression => row!(
            UpdateExpression,
            [
                datum!("operator", Class::Word(Words::UpdateOperators)),
                datum!("prefix", Class::Flag),
                node!("argument", Class::One(Group::Expressions), mode: Mode::Gives(Role::ReadWrite)),
            ]
        ),
        Kind::BinaryExpression => row!(
            BinaryExpression,
            [
                node!("left", Class::One(Group::LeftOperands(1))),
                datum!("operator", Class::Word(Words::BinaryOperators)),
                node!("right", Class::One(Group::Expressions)),
            ]
        ),
        Kind::LogicalExpression => row!(
            LogicalExpression,
            [
                node!("left", Class::One(Group::Expressions)),
                datum!("operator", Class::Word(Words::LogicalOperators)),
                node!("right", Class::One(Group::Expressions)),
            ]
        ),
        Kind::AssignmentExpression => row!(
            AssignmentExpression,
            [
                datum!("operator", Class::Word(Words::AssignmentOperators)),
                node!(
                "left", Class::One(Group::Patterns),
                mode: Mode::ByOperator(0),
                mark: Mark::Valued(2)
            ),
                node!("right", Class::One(Group::Expressions)),
            ]
        ),
        Kind::ConditionalExpression => row!(
            ConditionalExpression,
            [
                node!("test", Class::One(Group::Expressions)),
                node!("consequent", Class::One(Group::Expressions)),
                node!("alternate", Class::One(Group::Expressions)),
            ]
        ),
        Kind::CallExpression => row!(
            CallExpression,
            [
                node!("callee", Class::One(Group::Callees), mode: Mode::UnlessOptional(2)),
                node!("arguments", Class::Many(Group::Arguments)),
                datum!("optional", Class::Flag),
            ]
        ),
        Kind::NewExpression => row!(
            NewExpression,
            [
                node!("callee", Class::One(Group::Expressions)),
                node!("arguments", Class::Many(Group::Arguments)),
            ]
        ),
        Kind::MemberExpression => row!(
            MemberExpression,
            [
                node!("object", Class::One(Group::Callees)),
                node!(
                "property", Class::One(Group::Members(2)),
                mode: Mode::UnlessComputed(2, Role::Plain)
            ),
                datum!("computed", Class::Flag),
                datum!("optional", Class::Flag),
            ]
        ),
        Kind::ChainExpression => row!(
            ChainExpression,
            [node!("expression", Class::One(Group::Chained)),]
        ),
        Kind::SequenceExpression => row!(
            SequenceExpression,
            [node!("expressions", Class::Many(Group::Expressions)),]
        ),
        Kind::YieldExpression => row!(
            YieldExpression,
            [
                datum!("delegate", Class::Flag),
                node!("argument", Class::Maybe(Group::Expressions)),
            ]
        ),
        Kind::AwaitExpression => row!(
            AwaitExpression,
            [node!("argument", Class::One(Group::Expressions)),]
        ),
        Kind::ImportExpression => row!(
            ImportExpression,
            [
                node!("source", Class::One(Group::Expressions)),
                node!("options", Class::Maybe(Group::Expressions)),
            ]
        ),
        Kind::MetaProperty => row!(
            MetaProperty,
            [
                node!(
                "meta", Class::One(Group::Only(Kind::Identifier)),
                mode: Mode::Gives(Role::Plain)
            ),
                node!(
                "property", Class::One(Group::Only(Kind::Identifier)),
                mode: Mode::Gives(Role::Plain)
            ),
            ]
        ),
        Kind::TemplateLiteral => row!(
            TemplateLiteral,
            [
                node!("quasis", Class::Many(Group::Only(Kind::TemplateElement))),
                node!("expressions", Class::Many(Group::Expressions)),
            ]
        ),
        Kind::TaggedTemplateExpression => row!(
            TaggedTemplateExpression,
            [
                node!("tag", Class::One(Group::Expressions)),
                node!("quasi", Class::One(Group::Only(Kind::TemplateLiteral))),
            ]
        ),
        Kind::TemplateElement => row!(
            TemplateElement,
            [
                datum!("raw", Class::Raw),
                datum!("cooked", Class::Cooked),
                datum!("tail", Class::Flag),
            ]
        ),
        Kind::ObjectPattern => row!(
            ObjectPattern,
            [node!("properties", Class::Many(Group::PatternMembers), mode: Mode::Leaves),]
        ),
        Kind::ArrayPattern => row!(
            ArrayPattern,
            [node!("elements", Class::Holes(Group::ElementsOrRest), mode: Mode::Leaves),]
        ),
        Kind::AssignmentPattern => row!(
            AssignmentPattern,
            [
                node!("left", Class::One(Group::Patterns), mode: Mode::Same, mark: Mark::Valued(1)),
                node!("right", Class::One(Group::Expressions)),
            ]
        ),
        Kind::Identifier => row!(Identifier, Opens::NameHere, [datum!("name", Class::Name),]),
        Kind::PrivateIdentifier => row!(
            PrivateIdentifier,
            Opens::PrivateNameHere,
            [datum!("name", Class::Name),]
        ),
        Kind::Literal => row!(
            Literal,
            [
                datum!("value", Class::LiteralValue),
                datum!("raw", Class::TextOr),
                datum!("pattern", Class::Pattern),
                datum!("flags", Class::Flags),
                datum!("bigint", Class::TextOr, omit: true),
            ]
        ),
        Kind::ImportDeclaration => row!(
            ImportDeclaration,
            [
                node!(
                "specifiers", Class::Many(Group::ImportSpecifiers),
                mode: Mode::Gives(Role::Declares(Declared::Import))
            ),
                node!("source", Class::One(Group::Strings)),
                node!(
                    "attributes",
                    Class::ManyOr(Group::Only(Kind::ImportAttribute))
                ),
            ]
        ),
        Kind::ImportSpecifier => row!(
            ImportSpecifier,
            [
                node!("imported", Class::One(Group::Names), mode: Mode::Gives(Role::Plain)),
                node!("local", Class::One(Group::Only(Kind::Identifier)), mode: Mode::Same),
            ]
        ),
        Kind::ImportDefaultSpecifier => row!(
            ImportDefaultSpecifier,
            [node!("local", Class::One(Group::Only(Kind::Identifier)), mode: Mode::Same),]
        ),
        Kind::ImportNamespaceSpecifier => row!(
            ImportNamespaceSpecifier,
            [node!("local", Class::One(Group::Only(Kind::Identifier)), mode: Mode::Same),]
        ),
        Kind::ImportAttribute => row!(
            ImportAttribute,
            [
                node!("key", Class::One(Group::Names), mode: Mode::Gives(Role::Plain)),
                node!("value", Class::One(Group::Strings)),
            ]
        ),
        Kind::ExportNamedDeclaration => row!(
            ExportNamedDeclaration,
            [
                node!("declaration", Class::Maybe(Group::Declarations), mark: Mark::Exported),
                node!(
                "specifiers", Class::Many(Group::Only(Kind::ExportSpecifier)),
                mode: Mode::UnlessSource(2)
            ),
                node!("source", Class::Maybe(Group::Strings)),
                node!(
                    "attributes",
                    Class::ManyOr(Group::Only(Kind::ImportAttribute))
                ),
            ]
        ),
        Kind::ExportSpecifier => row!(
            ExportSpecifier,
            [
                node!("local", Class::One(Group::Locals), mode: Mode::Same),
                node!("exported", Class::One(Group::Names), mode: Mode::Gives(Role::Plain)),
            ]
        ),
        Kind::ExportDefaultDeclaration => row!(
            ExportDefaultDeclaration,
            [node!("declaration", Class::One(Group::Defaults)),]
        ),
        Kind::ExportAllDeclaration => row!(
            ExportAllDeclaration,
            [
                node!("exported", Class::Maybe(Group::Names), mode: Mode::Gives(Role::Plain)),
                node!("source", Class::One(Group::Strings)),
                node!(
                    "attributes",
                    Class::ManyOr(Group::Only(Kind::ImportAttribute))
                ),
            ]
        ),
    }
}

/// The row of the kind with this name, where there is one.
pub fn row_named(name: &str) -> Option<&'static Row>
    ensures { option_map (λ r. row_of r.now) result ≡ spec.row_named name.now }
{
    row_among(&KINDS, name)
}

fn row_among(kinds: &[Kind], name: &str) -> Option<&'static Row>
    ensures { option_map (λ r. row_of r.now) result ≡ spec.row_among kinds.now name.now }
{
    for kind in kinds {
        let row = row(*kind);
        if row.name == name {
            return Some(row);
        }
    }
    None
}
