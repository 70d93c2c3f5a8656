//! The roles that tell of private names and of direct evals.

ghost use Rattle.std.specs.Prelude.{◌≡◌};
ghost use Rattle.scope_rules.specs.Evals as evals;
ghost use Rattle.scope_rules.specs.PrivateNames as names;

use tree_nodes::Role;

// Whether it is a member's own key.
#[tactic(auto, unfolding(scope_rules::specs::PrivateNames::is_member_key))]
pub(crate) fn is_member_key(role: Role) -> bool
    ensures { result ≡ names.is_member_key role }
{
    matches!(role, Role::MemberKey)
}

// Whether it is called directly.
#[tactic(auto, unfolding(scope_rules::specs::Evals::is_called))]
pub(crate) fn is_called(role: Role) -> bool
    ensures { result ≡ evals.is_called role }
{
    matches!(role, Role::Called)
}
