//! What the command `restore` answers: the program that a map gives back.

ghost use Rattle.std.specs.Prelude.{◌≡◌, false, IfErr, IfOk, Some, string_bytes};
ghost use Rattle.mangle_tool.specs.Input.{IsNotJson, Parses};
ghost use Rattle.serde_json.specs.View.{view};
ghost use Rattle.tool_commands.specs.Restore.{IsMappedInput, IsRestoreCause, IsRestored};
ghost use Rattle.tool_commands.specs.declared.refusal.Refusal.TheVariants.{Input};

use crate::pair::{Mapped, read_mapped};
use crate::refusal::Refusal;
use mangle_tool::estree::{Layout, MangleError, text_in};
use name_map::{RestoreError, restore};
use serde_json::Value;
use std::alloc::Global;

// The answer that holds the program which the input's map gives back.
pub(crate) fn restored_answer(alloc: Global, input: &[u8]) -> Result<String, Refusal>
    ensures answer { IfOk result (λ text. IsRestored input.now (string_bytes text)) }
    ensures cause { IfErr result (λ e. IsRestoreCause e input.now) }
{
    let mapped = mapped_of(alloc, input)?;
    match restore(alloc, &mapped.program, &mapped.map) {
        Ok(restored) => Ok(text_in(alloc, &restored, Layout::Compact)?),
        Err(RestoreError::BadMap) => Err(Refusal::BadMap),
        Err(RestoreError::Memory) => Err(Refusal::Input(MangleError::Memory)),
    }
}

// The program and the map in these bytes. The JSON value is let go here.
fn mapped_of(alloc: Global, input: &[u8]) -> Result<Mapped, MangleError>
    ensures ok { IfOk result (λ m. IsMappedInput input.now m.program m.map) }
    ensures cause { IfErr result (λ e. IsRestoreCause (Input e) input.now) }
{
    let value = match Value::from_slice(alloc, input) {
        Ok(value) => value,
        Err(error) if error.is_memory() => return Err(MangleError::Memory),
        Err(_) => return Err(MangleError::NotJson),
    };
    read_mapped(alloc, &value)
}
