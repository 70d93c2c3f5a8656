//! The answer to an input, as bytes or as a value.

ghost use Rattle.std.specs.Prelude.{◌+◌, ◌<◌, ◌^◌, IfErr, IfOk, length, string_bytes};
ghost use Rattle.serde_json.specs.View.{view};
ghost use Rattle.tree_core.specs.NodeCount.{node_count};
ghost use Rattle.mangle_options.specs.Settings.{reserved_in};
ghost use Rattle.mangle_tool.specs.Answer.{IsAnswer, IsAnswerTo, IsCauseFor, IsCauseOf, IsProgramCause, IsTreeAnswer};
ghost use Rattle.mangle_tool.specs.Asked.{asked_by, layout_of};
ghost use Rattle.mangle_tool.specs.Mangling.{options_for};

use super::error::MangleError;
use super::input::{program_of, taken_program};
use super::layout::text_in;
use crate::mangle::mangle_program;
use mangle_options::MangleOptions;
use serde_json::Value;
use std::alloc::Global;
use tool_words::Layout;
use tree_core::Program;

/// The answer to an ESTree in JSON, as `mangle_value` gives it.
///
/// `NotJson` comes exactly where `serde_json` reads no value from the bytes, the other errors as they
/// come for that value. The value is let go once its tree is read.
pub fn mangle_estree(
    alloc: Global,
    input: &[u8],
    options: &MangleOptions,
    layout: Layout,
) -> Result<String, MangleError>
    ensures answer { IfOk result
        (λ text. IsAnswer (asked_by options.now layout) input.now (string_bytes text)) }
    ensures cause { IfErr result (λ e. IsCauseOf (length (reserved_in options.now)) e input.now) }
{
    let program = program_of(alloc, input, options.reserved.len())?;
    answer_of(alloc, program, options, layout)
}

/// The answer to a value: `{"node":`, a line feed, the tree in the layout of this project, a line feed,
/// `,"fixes":[`, the paths of its BigInt and RegExp literals, `]}`. White space stands in the tree alone.
///
/// The value is a Program of ESTree, or an object of exactly `node`, a Program, and `fixes`, a list
/// that isn't looked at, as an answer has them.
///
/// `TooLarge` comes exactly where the whole value passes the limits, its objects and the reserved names
/// being counted together; `BadTree` exactly where it is within them and its program is no tree that is
/// taken, `BadScope` exactly where the scopes of that tree have a fault; `NotJson` never; `Memory` may
/// come at any value.
pub fn mangle_value(
    alloc: Global,
    value: &Value,
    options: &MangleOptions,
    layout: Layout,
) -> Result<String, MangleError>
    ensures answer { IfOk result
        (λ text. IsAnswerTo (asked_by options.now layout) (view value.now) (string_bytes text)) }
    ensures cause { IfErr result
        (λ e. IsCauseFor (length (reserved_in options.now)) e (view value.now)) }
{
    let program = taken_program(alloc, value, options.reserved.len())?;
    answer_of(alloc, program, options, layout)
}

// The answer to a program that was read.
fn answer_of(
    alloc: Global,
    program: Program,
    options: &MangleOptions,
    layout: Layout,
) -> Result<String, MangleError>
    requires few { node_count program + length (reserved_in options.now) < 2 ^ 30 }
    ensures answer { IfOk result (λ text. IsTreeAnswer (options_for options.now program)
        (layout_of layout) program (string_bytes text)) }
    ensures cause { IfErr result (λ e. IsProgramCause e program) }
{
    let mangled = mangle_program(alloc, options, program)?;
    Ok(text_in(alloc, &mangled, layout)?)
}
