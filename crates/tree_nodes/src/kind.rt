//! The kinds of nodes that ESTree has.

ghost use Rattle.std.specs.Prelude.{◌≡◌};

/// The kind of a node, named as its `type` in ESTree.
#[derive(Clone, Copy, PartialEq, Eq)]
pub enum Kind {
    Program,
    Hashbang,
    ExpressionStatement,
    BlockStatement,
    EmptyStatement,
    DebuggerStatement,
    ThisExpression,
    Super,
    ReturnStatement,
    ThrowStatement,
    LabeledStatement,
    BreakStatement,
    ContinueStatement,
    IfStatement,
    SwitchStatement,
    SwitchCase,
    TryStatement,
    CatchClause,
    WhileStatement,
    DoWhileStatement,
    ForStatement,
    ForInStatement,
    ForOfStatement,
    WithStatement,
    VariableDeclaration,
    VariableDeclarator,
    FunctionDeclaration,
    FunctionExpression,
    ArrowFunctionExpression,
    ClassDeclaration,
    ClassExpression,
    ClassBody,
    MethodDefinition,
    PropertyDefinition,
    StaticBlock,
    ArrayExpression,
    ObjectExpression,
    Property,
    SpreadElement,
    RestElement,
    UnaryExpression,
    UpdateExpression,
    BinaryExpression,
    LogicalExpression,
    AssignmentExpression,
    ConditionalExpression,
    CallExpression,
    NewExpression,
    MemberExpression,
    ChainExpression,
    SequenceExpression,
    YieldExpression,
    AwaitExpression,
    ImportExpression,
    MetaProperty,
    TemplateLiteral,
    TaggedTemplateExpression,
    TemplateElement,
    ObjectPattern,
    ArrayPattern,
    AssignmentPattern,
    Identifier,
    PrivateIdentifier,
    Literal,
    ImportDeclaration,
    ImportSpecifier,
    ImportDefaultSpecifier,
    ImportNamespaceSpecifier,
    ImportAttribute,
    ExportNamedDeclaration,
    ExportSpecifier,
    ExportDefaultDeclaration,
    ExportAllDeclaration,
}

impl Kind {
    ghost use Rattle.tree_nodes.specs.Kinds.{kind_number, is_in, is_kind};

    /// Its place among the kinds, from 0. Numbers never move.
    pub fn number(self) -> u8
        ensures { result ≡ kind_number self }
    {
        self as u8
    }

    /// Whether it is the other kind.
    #[tactic(auto, unfolding(crate::specs::Kinds::is_kind))]
    pub fn is(self, other: Kind) -> bool
        ensures { result ≡ is_kind self other }
    {
        self.number() == other.number()
    }

    /// Whether it is one of these kinds.
    #[tactic(auto, unfolding(crate::specs::Kinds::is_in, crate::specs::Kinds::is_kind))]
    pub fn is_among(self, kinds: &[Kind]) -> bool
        ensures { result ≡ is_in self kinds.now }
    {
        for kind in kinds {
            if kind.number() == self.number() {
                return true;
            }
        }
        false
    }
}

/// All kinds, in the order of their numbers.
pub const KINDS: [Kind; 73] = [
    Kind::Program,
    Kind::Hashbang,
    Kind::ExpressionStatement,
    Kind::BlockStatement,
    Kind::EmptyStatement,
    Kind::DebuggerStatement,
    Kind::ThisExpression,
    Kind::Super,
    Kind::ReturnStatement,
    Kind::ThrowStatement,
    Kind::LabeledStatement,
    Kind::BreakStatement,
    Kind::ContinueStatement,
    Kind::IfStatement,
    Kind::SwitchStatement,
    Kind::SwitchCase,
    Kind::TryStatement,
    Kind::CatchClause,
    Kind::WhileStatement,
    Kind::DoWhileStatement,
    Kind::ForStatement,
    Kind::ForInStatement,
    Kind::ForOfStatement,
    Kind::WithStatement,
    Kind::VariableDeclaration,
    Kind::VariableDeclarator,
    Kind::FunctionDeclaration,
    Kind::FunctionExpression,
    Kind::ArrowFunctionExpression,
    Kind::ClassDeclaration,
    Kind::ClassExpression,
    Kind::ClassBody,
    Kind::MethodDefinition,
    Kind::PropertyDefinition,
    Kind::StaticBlock,
    Kind::ArrayExpression,
    Kind::ObjectExpression,
    Kind::Property,
    Kind::SpreadElement,
    Kind::RestElement,
    Kind::UnaryExpression,
    Kind::UpdateExpression,
    Kind::BinaryExpression,
    Kind::LogicalExpression,
    Kind::AssignmentExpression,
    Kind::ConditionalExpression,
    Kind::CallExpression,
    Kind::NewExpression,
    Kind::MemberExpression,
    Kind::ChainExpression,
    Kind::SequenceExpression,
    Kind::YieldExpression,
    Kind::AwaitExpression,
    Kind::ImportExpression,
    Kind::MetaProperty,
    Kind::TemplateLiteral,
    Kind::TaggedTemplateExpression,
    Kind::TemplateElement,
    Kind::ObjectPattern,
    Kind::ArrayPattern,
    Kind::AssignmentPattern,
    Kind::Identifier,
    Kind::PrivateIdentifier,
    Kind::Literal,
    Kind::ImportDeclaration,
    Kind::ImportSpecifier,
    Kind::ImportDefaultSpecifier,
    Kind::ImportNamespaceSpecifier,
    Kind::ImportAttribute,
    Kind::ExportNamedDeclaration,
    Kind::ExportSpecifier,
    Kind::ExportDefaultDeclaration,
    Kind::ExportAllDeclaration,
];
