//! What the command `report` answers: what is found in a program, by line and column in its source text.

ghost use Rattle.std.specs.Prelude.{◌≡◌, ◌<◌, ◌^◌, false, IfErr, IfOk, Some, length, option_map, string_bytes};
ghost use Rattle.serde_json.specs.Find as find;
ghost use Rattle.serde_json.specs.View.{view};
ghost use Rattle.tool_commands.specs.Report as spec;
ghost use Rattle.tool_commands.specs.Report.{IsNotBoth, IsReportCause, IsReported, IsSourcedInput, IsUnread, sourced_in};
ghost use Rattle.tool_commands.specs.declared.refusal.Refusal.TheVariants.{Input};
ghost use Rattle.tree_core.specs.JsonOf.{json_of};
ghost use Rattle.tree_core.specs.Limits.{is_too_large};
ghost use Rattle.tree_core.specs.Reading.{tree_of};

use crate::members::pair_in;
use crate::refusal::Refusal;
use crate::report_text::report_text;
use mangle_tool::estree::MangleError;
use scope_report::{ReportError, report};
use serde_json::Value;
use std::alloc::Global;
use tree_core::{Program, is_too_large, read_tree};

// A source text and its program.
#[derive(Drop)]
struct Sourced {
    source: String,
    program: Program,
}

// A line for each finding of the input's program.
pub(crate) fn report_answer(alloc: Global, input: &[u8]) -> Result<String, Refusal>
    ensures answer { IfOk result (λ text. IsReported input.now (string_bytes text)) }
    ensures cause { IfErr result (λ e. IsReportCause e input.now) }
{
    let sourced = sourced_of(alloc, input)?;
    match report(alloc, &sourced.program, sourced.source.as_str()) {
        Ok(findings) => Ok(report_text(alloc, &findings)?),
        Err(ReportError::BadSpan) => Err(Refusal::BadSpan),
        Err(ReportError::Memory) => Err(Refusal::Input(MangleError::Memory)),
    }
}

// The source text and the program in these bytes. The JSON value is let go here.
fn sourced_of(alloc: Global, input: &[u8]) -> Result<Sourced, MangleError>
    ensures ok { IfOk result (λ s. IsSourcedInput input.now (string_bytes s.source) s.program) }
    ensures short { IfOk result (λ s. length (string_bytes s.source) < 2 ^ 32) }
    ensures cause { IfErr result (λ e. IsReportCause (Input e) input.now) }
{
    let value = match Value::from_slice(alloc, input) {
        Ok(value) => value,
        Err(error) if error.is_memory() => return Err(MangleError::Memory),
        Err(_) => return Err(MangleError::NotJson),
    };
    read_sourced(alloc, &value)
}

// The source text and the program in an object of exactly `source` and `node`.
fn read_sourced(alloc: Global, value: &Value) -> Result<Sourced, MangleError>
    ensures within { IfOk result (λ _. is_too_large (view value.now) 0 ≡ false) }
    ensures ok { IfOk result (λ s. sourced_in (view value.now) ≡ Some (spec.sourced (string_bytes s.source) s.program)) }
    ensures short { IfOk result (λ s. length (string_bytes s.source) < 2 ^ 32) }
    ensures cause { IfErr result (λ e. IsUnread e (view value.now)) }
{
    if is_too_large(value, 0) {
        return Err(MangleError::TooLarge);
    }
    match pair_in(value, "source", "node") {
        Some((source, node)) => read_both(alloc, source, node),
        None => Err(MangleError::BadTree),
    }
}

fn read_both(alloc: Global, source: &Value, node: &Value) -> Result<Sourced, MangleError>
    requires short { is_too_large (view source.now) 0 ≡ false }
    requires within { is_too_large (view node.now) 0 ≡ false }
    ensures source { IfOk result (λ s. find.as_str (view source.now) ≡ Some (string_bytes s.source)) }
    ensures program { IfOk result (λ s. tree_of (json_of (view node.now)) ≡ Some s.program) }
    ensures cause { IfErr result (λ e. IsNotBoth e (view source.now) (view node.now)) }
{
    match source.as_str() {
        Some(text) => {
            let program = read_tree(alloc, node, 0)?;
            let source = String::from_str(alloc, text)?;
            Ok(Sourced { source, program })
        }
        None => Err(MangleError::BadTree),
    }
}
