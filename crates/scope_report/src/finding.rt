//! A finding.

use tree_nodes::TreeText;

/// The rule that a place goes against.
#[derive(Clone, Copy, Debug, PartialEq, Eq)]
pub enum Rule {
    /// A fault of scopes. 1: the name is declared again here; 2: this `var` crosses another declaration of its name;
    /// 3: this plain function is declared in a block of sloppy code; 4: no class body around declares this private
    /// name; 5: a parameter or catch pattern reaches a declaration of the body by this reference.
    Fault(u8),
    /// A binding that no reference has, and that no export exports.
    Unused,
    /// A reference to a name that isn't declared around it.
    Unresolved,
    /// A binding whose name a scope further out declares too.
    Shadow,
}

/// A rule that a place goes against, with the line and the column at which the place starts, both from 0.
#[derive(Drop)]
pub struct Finding {
    pub rule: Rule,
    /// The name that stands there, of a private one without its `#`.
    pub name: TreeText,
    pub line: u32,
    /// In UTF-16 code units.
    pub column: u32,
}
