//! Lines and columns of what is found.

ghost use Rattle.std.specs.Prelude.{◌≡◌, ◌∷◌, ◌++◌, ◌<◌, ◌^◌, [], IfOk, OnOk, Some, false, length, map, slice_get, true};
ghost use Rattle.scope_report.specs.Findings.{HasBadSpan, StartInText, located};
ghost use Rattle.scope_report.specs.Positions.{position_of};
ghost use Rattle.scope_report.specs.Views.{found_view, found_views};
ghost use Rattle.tree_nodes.specs.Tree.{Text};

use crate::finding::Finding;
use crate::found::FoundAt;
use crate::positions::{Position, positions};
use std::alloc::{AllocError, Global};
use tree_nodes::TreeText;

/// Whether each starts in the text, or at its end, at a character.
pub fn start_in_text(source_text: &str, found: &[FoundAt<'_>]) -> bool
    ensures yes { result ≡ true → StartInText source_text.now (found_views found.now) }
    ensures no { result ≡ false → HasBadSpan source_text.now (found_views found.now) }
{
    for one in found {
        if !source_text.is_char_boundary(one.start as usize) {
            return false;
        }
    }
    true
}

/// What is found, with lines and columns. Err is want of memory.
pub fn locate(
    alloc: Global,
    source_text: &str,
    found: &[FoundAt<'_>],
) -> Result<Vec<Finding>, AllocError>
    requires len { length source_text.now < 2 ^ 32 }
    requires starts { StartInText source_text.now (found_views found.now) }
    ensures { IfOk result (λ v. v.items ≡ map (located source_text.now) (found_views found.now)) }
{
    let positions = positions(alloc, source_text)?;
    let mut findings = Vec::new(alloc);
    for one in found {
        let position = position_at(positions.as_slice(), one.start);
        let finding = located(alloc, one, position)?;
        push_finding(&mut findings, finding)?;
    }
    Ok(findings)
}

// The position of an offset.
fn position_at(positions: &[Position], offset: u32) -> Position
    requires { offset < length positions.now }
    ensures { slice_get positions.now offset ≡ Some result }
{
    positions[offset as usize]
}

// What is found, with its line and column.
fn located(alloc: Global, one: &FoundAt<'_>, position: Position) -> Result<Finding, AllocError>
    ensures { IfOk result (λ f. (text : Text) → position ≡ position_of text one.now.start → f ≡ located text (found_view one.now)) }
{
    let name = TreeText::from_string(String::from_str(alloc, one.name)?);
    Ok(Finding {
        rule: one.rule,
        name,
        line: position.line,
        column: position.column,
    })
}

// Appends a finding.
fn push_finding(findings: &mut Vec<Finding>, finding: Finding) -> Result<(), AllocError>
    ensures { OnOk result (findings.new.items ≡ findings.old.items ++ finding ∷ []) }
{
    match findings.push(finding) {
        Ok(()) => Ok(()),
        Err(_) => Err(AllocError),
    }
}
