//! The two members of an object that has exactly these.

ghost use Rattle.std.specs.Prelude.{◌≡◌, option_map};
ghost use Rattle.serde_json.specs.View.{members_view, view};
ghost use Rattle.tool_commands.specs.Pairs as spec;
ghost use Rattle.tool_commands.specs.Pairs.{pair};

use serde_json::{Map, Value};

// The values under two keys, in an object of exactly these.
pub(crate) fn pair_in<'v>(
    value: &'v Value,
    one: &str,
    other: &str,
) -> Option<(&'v Value, &'v Value)>
    ensures { option_map (λ p. pair (view p.0.now) (view p.1.now)) result ≡ spec.pair_in one.now other.now (view value.now) }
{
    pair_among(value.as_object()?, one, other)
}

fn pair_among<'v>(
    members: &'v Map<String, Value>,
    one: &str,
    other: &str,
) -> Option<(&'v Value, &'v Value)>
    ensures { option_map (λ p. pair (view p.0.now) (view p.1.now)) result
        ≡ spec.pair_among one.now other.now (members_view members.now.entries) }
{
    if members.len() == 2 {
        Some((members.get(one)?, members.get(other)?))
    } else {
        None
    }
}
