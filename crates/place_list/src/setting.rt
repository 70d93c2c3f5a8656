//! What holds where a node stands, with numbers in place of scopes and of lists.

use tree_nodes::Role;

/// The expression that gives an Identifier its value, as far as that value takes its own name from it.
#[derive(Clone, Copy)]
pub enum Value {
    NoValue,
    OtherValue,
    AnonymousFunction,
    AnonymousClass,
}

/// The construct of the language that a scope belongs to. The constructors, getters and setters are the
/// functions that are the values of such members of a class or an object.
#[derive(Clone, Copy)]
pub enum ScopeKind {
    TopLevel,
    Function,
    Constructor,
    Getter,
    Setter,
    Arrow,
    ClassStatic,
    Catch,
    With,
    /// Any other: a block, a loop, a switch, a class.
    Block,
}

/// What holds where a node stands.
#[derive(Clone, Copy)]
pub struct Setting {
    /// What an Identifier is here.
    pub role: Role,
    /// The number of the scope. None lies outside the root's.
    pub scope: Option<u32>,
    /// The number of the nearest scope outwards that a `var` may declare in.
    pub var_scope: Option<u32>,
    /// The number of the innermost class body around it.
    pub class_body: Option<u32>,
    /// The number of the innermost head in which it lies.
    pub head: Option<u32>,
    pub strict: bool,
    /// It lies in the declaration of an export.
    pub exported: bool,
    /// A block here opens no scope of its own.
    pub bare: bool,
    pub value: Value,
    /// The node number of the declarator in whose pattern it lies.
    pub declarator: Option<u32>,
    /// It lies in a rest element of that pattern.
    pub in_rest: bool,
}

impl Setting {
    // What holds around the whole tree.
    pub(crate) const NOWHERE: Setting = Setting {
        role: Role::Plain,
        scope: None,
        var_scope: None,
        class_body: None,
        head: None,
        strict: false,
        exported: false,
        bare: false,
        value: Value::NoValue,
        declarator: None,
        in_rest: false,
    };
}
