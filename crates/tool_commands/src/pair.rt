//! A program and a map in one value.

ghost use Rattle.std.specs.Prelude.{◌≡◌, false, IfErr, IfOk, Some};
ghost use Rattle.name_map.specs.Reading.{map_of};
ghost use Rattle.serde_json.specs.View.{view};
ghost use Rattle.tool_commands.specs.Mapped as spec;
ghost use Rattle.tool_commands.specs.Mapped.{mapped_in};
ghost use Rattle.tool_commands.specs.Restore.{IsPairFailure, IsReadFailure};
ghost use Rattle.tree_core.specs.JsonOf.{json_of};
ghost use Rattle.tree_core.specs.Limits.{is_too_large};
ghost use Rattle.tree_core.specs.Reading.{tree_of};

use crate::members::pair_in;
use mangle_tool::estree::MangleError;
use name_map::{MapReadError, NameMap, read_map};
use serde_json::Value;
use std::alloc::Global;
use tree_core::{Program, is_too_large, read_tree};

// A program and a map.
#[derive(Drop)]
pub struct Mapped {
    pub program: Program,
    pub map: NameMap,
}

// The program and the map in an object of exactly `node` and `map`.
pub(crate) fn read_mapped(alloc: Global, value: &Value) -> Result<Mapped, MangleError>
    ensures within { IfOk result (λ _. is_too_large (view value.now) 0 ≡ false) }
    ensures ok { IfOk result (λ m. mapped_in (view value.now) ≡ Some (spec.mapped m.program m.map)) }
    ensures cause { IfErr result (λ e. IsReadFailure e (view value.now)) }
{
    if is_too_large(value, 0) {
        return Err(MangleError::TooLarge);
    }
    match pair_in(value, "node", "map") {
        Some((node, map)) => read_pair(alloc, node, map),
        None => Err(MangleError::BadTree),
    }
}

fn read_pair(alloc: Global, node: &Value, map: &Value) -> Result<Mapped, MangleError>
    requires { is_too_large (view node.now) 0 ≡ false }
    ensures program { IfOk result (λ m. tree_of (json_of (view node.now)) ≡ Some m.program) }
    ensures map { IfOk result (λ m. map_of (json_of (view map.now)) ≡ Some m.map) }
    ensures cause { IfErr result (λ e. IsPairFailure e (view node.now) (view map.now)) }
{
    let program = read_tree(alloc, node, 0)?;
    match read_map(alloc, map) {
        Ok(map) => Ok(Mapped { program, map }),
        Err(MapReadError::BadForm) => Err(MangleError::BadTree),
        Err(MapReadError::Memory) => Err(MangleError::Memory),
    }
}
