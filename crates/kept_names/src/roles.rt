//! Which roles and values names are kept for.

ghost use Rattle.std.specs.Prelude.{◌≡◌};
ghost use Rattle.kept_names.specs.Keeping.{keeping};
ghost use Rattle.name_rules.specs.Kept as spec;
ghost use Rattle.place_list.specs.Tables.{value_of};

use mangle_options::MangleOptionsKeepNames;
use place_list::Value;
use tree_nodes::{Declared, Role};

/// Whether what it declares keeps its name, as a function or a class.
#[tactic(auto, unfolding(name_rules::specs::Kept::role_kept, crate::specs::Keeping::keeping))]
pub fn role_kept(keep: MangleOptionsKeepNames, role: Role) -> bool
    ensures { result ≡ spec.role_kept (keeping keep) role }
{
    match role {
        Role::Declares(Declared::Function(_)) => keep.function,
        Role::Declares(Declared::FunctionName(_)) => keep.function,
        Role::Declares(Declared::Class) => keep.class,
        Role::Declares(Declared::ClassName) => keep.class,
        _ => false,
    }
}

/// Whether what gets this value keeps its name.
#[tactic(auto, unfolding(name_rules::specs::Kept::value_kept, place_list::specs::Tables::value_of, crate::specs::Keeping::keeping))]
pub fn value_kept(keep: MangleOptionsKeepNames, value: Value) -> bool
    ensures { result ≡ spec.value_kept (keeping keep) (value_of value) }
{
    match value {
        Value::NoValue => false,
        Value::OtherValue => false,
        Value::AnonymousFunction => keep.function,
        Value::AnonymousClass => keep.class,
    }
}

/// Whether it is a value.
#[tactic(auto, unfolding(name_rules::specs::Kept::has_value, place_list::specs::Tables::value_of))]
pub fn has_value(value: Value) -> bool
    ensures { result ≡ spec.has_value (value_of value) }
{
    !matches!(value, Value::NoValue)
}
