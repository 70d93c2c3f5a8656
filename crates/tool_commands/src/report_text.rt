//! The text of findings: a line for each.

ghost use Rattle.std.specs.Prelude.{◌≡◌, ◌++◌, IfOk, OnOk, string_bytes};
ghost use Rattle.tool_commands.specs.Report as spec;
ghost use Rattle.tool_commands.specs.Report.{finding_line, rule_text};

use scope_report::{Finding, Findings, Rule};
use std::alloc::{AllocError, Global};

// All of them, in order.
pub(crate) fn report_text(alloc: Global, findings: &Findings) -> Result<String, AllocError>
    ensures { IfOk result (λ s. string_bytes s ≡ spec.report_text findings.now) }
{
    let mut text = String::new(alloc);
    for i in 0..findings.len() {
        let Some(finding) = findings.get(i) else {
            break;
        };
        push_line(alloc, &mut text, finding)?;
    }
    Ok(text)
}

// Appends the line of a finding.
fn push_line(alloc: Global, text: &mut String, finding: &Finding) -> Result<(), AllocError>
    ensures { OnOk result (string_bytes text.new ≡ string_bytes text.old ++ finding_line finding.now) }
{
    let line = line_of(alloc, finding)?;
    text.push_str(line.as_str())?;
    Ok(())
}

// Line and column from 1, rule and name.
fn line_of(alloc: Global, finding: &Finding) -> Result<String, AllocError>
    ensures { IfOk result (λ s. string_bytes s ≡ finding_line finding.now) }
{
    let line = finding.line as u64 + 1;
    let column = finding.column as u64 + 1;
    let rule = rule_text(alloc, finding.rule)?;
    let rule = rule.as_str();
    let name = finding.name.as_str();
    format!(in alloc; "{line}:{column} {rule} {name}\n")
}

#[tactic(auto, unfolding(crate::specs::Report::rule_text))]
fn rule_text(alloc: Global, rule: Rule) -> Result<String, AllocError>
    ensures { IfOk result (λ s. string_bytes s ≡ rule_text rule) }
{
    match rule {
        Rule::Fault(number) => format!(in alloc; "fault-{number}"),
        Rule::Unused => String::from_str(alloc, "unused"),
        Rule::Unresolved => String::from_str(alloc, "unresolved"),
        Rule::Shadow => String::from_str(alloc, "shadow"),
    }
}
