//! The columns of the node table: of each kind its fields in printing order, and what its row says of
//! names and scopes. The rows stand in `rows`.

ghost use Rattle.std.specs.Prelude.{◌≡◌, map, option_copied, slice_get};
ghost use Rattle.tree_nodes.specs.Table as spec;

use crate::kind::Kind;

/// How an Identifier declares its name.
#[derive(Clone, Copy)]
pub enum Declared {
    /// By `var`.
    Var,
    /// By `let`.
    Let,
    /// By `const`, `using` or `await using`.
    Const,
    /// As a parameter, or in a parameter's pattern.
    Param,
    /// By a function declaration: whether the function is async or a generator.
    Function(bool),
    /// As a function expression's own name: whether the function is async or a generator.
    FunctionName(bool),
    /// By a class declaration.
    Class,
    /// As a class expression's own name.
    ClassName,
    /// In the pattern of a `catch`.
    Catch,
    /// By an import.
    Import,
}

/// What an Identifier is where it stands.
#[derive(Clone, Copy)]
pub enum Role {
    /// A name that no scope knows: a label, a property, an exported name.
    Plain,
    /// The key of a class member, which isn't computed.
    MemberKey,
    /// A reference that is read.
    Read,
    /// A reference that is assigned.
    Write,
    /// A reference that is read and assigned, as by `+=`.
    ReadWrite,
    /// A reference that is called directly, as a direct `eval` is.
    Called,
    /// A name that is declared.
    Declares(Declared),
}

/// How a field gives a role to an Identifier in it. A number is that of the field of the same node
/// on which the role depends, counted from 0.
#[derive(Clone, Copy)]
pub enum Mode {
    /// This role, whatever the node's own role is.
    Gives(Role),
    /// The node's own role.
    Same,
    /// The node's own role, in a pattern: where a whole target is read and written, its leaves are
    /// only written.
    Leaves,
    /// Read where that flag, `computed`, is set, else this role.
    UnlessComputed(u8, Role),
    /// A declaration's, by its `kind`, which is that word.
    ByKind(u8),
    /// A callee's: read where that flag, `optional`, is set, else called.
    UnlessOptional(u8),
    /// A target's, by the assignment operator, which is that word: written by `=`, else read and
    /// written.
    ByOperator(u8),
    /// A plain name where that field, `source`, is there, else read.
    UnlessSource(u8),
    /// A function declaration's name; the flags are `generator` and `async`.
    NamesFunction(u8, u8),
    /// A function expression's name; the flags are `generator` and `async`.
    NamesExpression(u8, u8),
}

/// What else a field does.
#[derive(Clone, Copy)]
pub enum Mark {
    /// Nothing.
    Usual,
    /// The block in it is the body of the node, and opens no scope of its own.
    Body,
    /// It is a list of parameters or the pattern of a `catch`.
    Head,
    /// What is declared in it is exported.
    Exported,
    /// An Identifier in it gets the value of that field, by its number.
    Valued(u8),
    /// It is the pattern of a declarator, whose initial value is that field, by its number.
    Declarator(u8),
    /// It takes what the other elements leave.
    Rest,
}

/// What a node opens around those of its fields that lie inside, or that it is the place of a name.
#[derive(Clone, Copy)]
pub enum Opens {
    Nothing,
    /// A scope.
    Block,
    /// A scope, unless the block is the body of a function or `catch` clause.
    BareBlock,
    /// A scope to which `var` declarations rise.
    Hoisting,
    /// The body of a `with`, in which any name may be a property.
    WithBody,
    /// A class body, in which private names are declared.
    ClassMembers,
    /// The node is an Identifier.
    NameHere,
    /// The node is a PrivateIdentifier.
    PrivateNameHere,
}

/// How the code in a node is strict. A number is that of a field of the node, counted from 0.
#[derive(Clone, Copy)]
pub enum Strict {
    AsOutside,
    Always,
    /// By the source type, which is that word, and the directives in that list.
    ByList(u8, u8),
    /// As outside, or by the directives in that block.
    ByBlock(u8),
}

/// The words that a field may be: see `word_list`.
#[derive(Clone, Copy)]
pub enum Words {
    SourceTypes,
    VariableKinds,
    MethodKinds,
    PropertyKinds,
    UnaryOperators,
    UpdateOperators,
    BinaryOperators,
    LogicalOperators,
    AssignmentOperators,
}

/// Which nodes may stand in a field. A number is that of the field beside it on which that depends.
#[derive(Clone, Copy)]
pub enum Group {
    /// Those of this kind.
    Only(Kind),
    /// Statements and declarations.
    Statements,
    /// Bodies of `if`, loops, labels and `with`: statements and `var` declarations.
    Bodies,
    /// Statements and, where that word, the source type, is `module`, imports and exports.
    ModuleItems(u8),
    Expressions,
    /// Expressions, and spread elements.
    Arguments,
    /// Expressions, and `super`.
    Callees,
    /// What a chain may hold: calls and members.
    Chained,
    /// Expressions and, where that word, the operator, is `in`, private names.
    LeftOperands(u8),
    /// Keys of an object's property; that flag is `computed`.
    Keys(u8),
    /// Keys of a class member; that flag is `computed`.
    MemberKeys(u8),
    /// What stands after `.` or in `[]`; that flag is `computed`.
    Members(u8),
    /// What a `for` begins with: an expression or a declaration.
    Initials,
    /// What a `for`-`in` or `for`-`of` assigns: a pattern or a declaration.
    ForTargets,
    /// A block or an expression.
    ArrowBodies,
    ClassElements,
    ObjectMembers,
    PatternMembers,
    /// Values of a property: of an object's an expression, of a pattern's a pattern, perhaps with a
    /// default.
    PropertyValues,
    Patterns,
    /// Patterns, perhaps with a default, and rest elements.
    ElementsOrRest,
    ImportSpecifiers,
    /// Names in a module's lists: Identifiers and strings.
    Names,
    Strings,
    /// What an `export` list exports: an Identifier or, from another module, also a string.
    Locals,
    /// What an `export` may declare.
    Declarations,
    /// What an `export default` exports: an expression, or a function or class with or without a
    /// name.
    Defaults,
}

/// What a field holds.
#[derive(Clone, Copy)]
pub enum Class {
    /// A truth value, false where it is missing.
    Flag,
    /// One of these words.
    Word(Words),
    Text,
    /// A text, or null or nothing.
    TextOr,
    /// An identifier name.
    Name,
    /// A literal's value: null, a truth value, a whole number or a string.
    LiteralValue,
    /// The pattern of a regular expression, in the object `regex`.
    Pattern,
    /// The flags of a regular expression, in the object `regex`.
    Flags,
    /// A template element's text as it is written, in the object `value`.
    Raw,
    /// A template element's text as it counts, in the object `value`: null where an escape is
    /// malformed.
    Cooked,
    /// A node.
    One(Group),
    /// A node, or null or nothing.
    Maybe(Group),
    /// A list of nodes.
    Many(Group),
    /// A list of nodes, empty where it is missing.
    ManyOr(Group),
    /// A list of nodes and holes.
    Holes(Group),
}

/// A column of a row: what the table says of one field of a kind of node.
#[derive(Clone, Copy)]
pub struct Column {
    /// The field's name in ESTree.
    pub key: &'static str,
    pub class: Class,
    /// The role that it gives to an Identifier in it.
    pub mode: Mode,
    /// Whether it lies inside the scope that the node opens.
    pub inside: bool,
    pub mark: Mark,
    /// Whether it is left out in printing where it is null.
    pub omit: bool,
}

/// A row of the table: what it says of a kind of node.
#[derive(Clone, Copy)]
pub struct Row {
    pub kind: Kind,
    /// The `type` of its nodes in ESTree.
    pub name: &'static str,
    pub opens: Opens,
    pub strict: Strict,
    /// Its fields, in printing order.
    pub columns: &'static [Column],
}

/// `columns.get(i)`, with its answer as one equation.
pub fn get_column(columns: &[Column], i: usize) -> Option<&Column>
    ensures { option_copied result ≡ slice_get columns.now i }
{
    columns.get(i)
}

/// The words of a list, in the order of their numbers.
pub fn word_list(words: Words) -> &'static [&'static str]
    ensures { map (λ w. w.now) result.now ≡ spec.word_list words }
{
    match words {
        Words::SourceTypes => &["script", "module", "commonjs"],
        Words::VariableKinds => &["var", "let", "const", "using", "await using"],
        Words::MethodKinds => &["constructor", "method", "get", "set"],
        Words::PropertyKinds => &["init", "get", "set"],
        Words::UnaryOperators => &["+", "-", "!", "~", "typeof", "void", "delete"],
        Words::UpdateOperators => &["++", "--"],
        Words::BinaryOperators => &[
            "==",
            "!=",
            "===",
            "!==",
            "<",
            "<=",
            ">",
            ">=",
            "+",
            "-",
            "*",
            "/",
            "%",
            "**",
            "<<",
            ">>",
            ">>>",
            "|",
            "^",
            "&",
            "in",
            "instanceof",
        ],
        Words::LogicalOperators => &["||", "&&", "??"],
        Words::AssignmentOperators => &[
            "=", "+=", "-=", "*=", "/=", "%=", "**=", "<<=", ">>=", ">>>=", "|=", "^=", "&=",
            "||=", "&&=", "??=",
        ],
    }
}
