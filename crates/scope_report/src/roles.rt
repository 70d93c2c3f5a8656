//! What a place of a role does to names.

ghost use Rattle.std.specs.Prelude.{◌≡◌};
ghost use Rattle.scope_report.specs.Exports.{names_declaration};

use tree_nodes::{Declared, Role};

/// Whether it names the declaration of a function or a class.
#[tactic(auto, unfolding(crate::specs::Exports::names_declaration))]
pub fn names_declaration(role: Role) -> bool
    ensures { result ≡ names_declaration role }
{
    matches!(
        role,
        Role::Declares(Declared::Function(_) | Declared::Class)
    )
}
