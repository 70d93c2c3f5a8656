//! The report on a program.

ghost use Rattle.std.specs.Prelude.{◌≡◌, ◌<◌, ◌^◌, IfErr, IfOk, length};
ghost use Rattle.scope_report.specs.Findings as spec;
ghost use Rattle.scope_report.specs.Findings.{HasBadSpan, Says, StartInText};
ghost use Rattle.scope_report.specs.Found.{found_in};

use crate::error::ReportError;
use crate::find::find;
use crate::findings::Findings;
use crate::lines::{locate, start_in_text};
use std::alloc::Global;
use tree_core::Program;

/// What a linter asks of a program: exactly its findings, by line and column in a source text of at most `u32::MAX`
/// bytes, to which its spans belong. `BadSpan` comes exactly where a place that has a finding starts past the text
/// or within a character.
pub fn report(alloc: Global, program: &Program, source_text: &str) -> Result<Findings, ReportError>
    requires { length source_text.now < 2 ^ 32 }
    ensures findings { IfOk result (λ f. f ≡ spec.findings source_text.now program.now) }
    ensures spans { IfOk result (λ f. StartInText source_text.now (found_in program.now)) }
    ensures err { IfErr result (λ e. Says e (HasBadSpan source_text.now (found_in program.now))) }
{
    let found = find(alloc, program.root())?;
    if !start_in_text(source_text, found.as_slice()) {
        return Err(ReportError::BadSpan);
    }
    let findings = locate(alloc, source_text, found.as_slice())?;
    Ok(Findings::new(findings))
}
