//! What a place of a role does to names.

ghost use Rattle.std.specs.Prelude.{◌≡◌};
ghost use Rattle.scope_rules.specs.Faults.{is_plain_function};
ghost use Rattle.scope_rules.specs.Homes.{is_declaring, is_function_name, is_reference, is_var, joins};
ghost use Rattle.scope_rules.specs.PrivateNames.{is_member_key};

use tree_nodes::{Declared, Role};

/// Whether it declares its name.
#[tactic(auto, unfolding(scope_rules::specs::Homes::is_declaring))]
pub fn is_declaring(role: Role) -> bool
    ensures { result ≡ is_declaring role }
{
    matches!(role, Role::Declares(_))
}

/// Whether it declares its name by `var`.
#[tactic(auto, unfolding(scope_rules::specs::Homes::is_var))]
pub fn is_var(role: Role) -> bool
    ensures { result ≡ is_var role }
{
    matches!(role, Role::Declares(Declared::Var))
}

/// Whether it is the name of a function expression.
#[tactic(auto, unfolding(scope_rules::specs::Homes::is_function_name))]
pub fn is_function_name(role: Role) -> bool
    ensures { result ≡ is_function_name role }
{
    matches!(role, Role::Declares(Declared::FunctionName(_)))
}

/// Whether it refers to its name.
#[tactic(auto, unfolding(scope_rules::specs::Homes::is_reference))]
pub fn is_reference(role: Role) -> bool
    ensures { result ≡ is_reference role }
{
    matches!(
        role,
        Role::Read | Role::Write | Role::ReadWrite | Role::Called
    )
}

/// Whether it may declare a name beside others that may.
#[tactic(auto, unfolding(scope_rules::specs::Homes::joins))]
pub fn joins(role: Role, in_var_scope: bool) -> bool
    ensures { result ≡ joins role in_var_scope }
{
    match role {
        Role::Declares(Declared::Var | Declared::Param) => true,
        Role::Declares(Declared::Function(_)) => in_var_scope,
        _ => false,
    }
}

/// Whether it declares a function that is neither async nor a generator.
#[tactic(auto, unfolding(scope_rules::specs::Faults::is_plain_function))]
pub fn is_plain_function(role: Role) -> bool
    ensures { result ≡ is_plain_function role }
{
    match role {
        Role::Declares(Declared::Function(special)) => !special,
        _ => false,
    }
}

/// Whether it is a class member's own key.
#[tactic(auto, unfolding(scope_rules::specs::PrivateNames::is_member_key))]
pub fn is_member_key(role: Role) -> bool
    ensures { result ≡ is_member_key role }
{
    matches!(role, Role::MemberKey)
}
