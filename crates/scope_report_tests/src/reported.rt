//! What is reported of small programs.

use crate::programs::{
    AFTER_TEXT, CROSSED, DECLARED_AGAIN, EXPORTED, FUNCTION_NAME, REACHING, REFERENCE, SHADOWED,
    SLOPPY, TWO_LINES, UNDECLARED, program,
};
use scope_report::{Finding, Findings, ReportError, Rule, faults_are_found, report};
use std::alloc::{AllocError, Global};
use std::test::Fail;

// The report on a tree whose source is this text, or why there is none.
fn reported(alloc: Global, tree: &str, text: &str) -> Result<String, Fail> {
    let program = program(alloc, tree)?;
    if text.len() >= 4_294_967_296 {
        return Err(Fail::from("too long"));
    }
    match report(alloc, &program, text) {
        Ok(findings) => Ok(lines(alloc, &findings)?),
        Err(ReportError::BadSpan) => Ok(String::from_str(alloc, "bad span")?),
        Err(ReportError::Memory) => Err(Fail::from("memory")),
    }
}

// Of each finding its line and column, from 1, its rule and its name.
fn lines(alloc: Global, findings: &Findings) -> Result<String, AllocError> {
    let mut text = String::new(alloc);
    for i in 0..findings.len() {
        if let Some(finding) = findings.get(i) {
            push_line(alloc, &mut text, finding)?;
        }
    }
    Ok(text)
}

fn push_line(alloc: Global, text: &mut String, finding: &Finding) -> Result<(), AllocError> {
    let line = finding.line as u64 + 1;
    let column = finding.column as u64 + 1;
    let rule = rule_text(alloc, finding.rule)?;
    let name = finding.name.as_str();
    let written = format!(in alloc; "{line}:{column} {rule} {name}; ")?;
    text.push_str(written.as_str())?;
    Ok(())
}

fn rule_text(alloc: Global, rule: Rule) -> Result<String, AllocError> {
    match rule {
        Rule::Fault(number) => format!(in alloc; "fault-{number}"),
        Rule::Unused => String::from_str(alloc, "unused"),
        Rule::Unresolved => String::from_str(alloc, "unresolved"),
        Rule::Shadow => String::from_str(alloc, "shadow"),
    }
}

#[test]
fn programs_have_their_findings(rt: HostRuntime) -> Result<(), Fail> {
    let alloc = rt.alloc();
    for (tree, text, wanted) in [
        (
            SHADOWED,
            "let x = 1;\nfunction f(x) { return y }",
            "1:5 unused x; 2:10 unused f; 2:12 unused x; 2:12 shadow x; 2:24 unresolved y; ",
        ),
        (
            EXPORTED,
            "export let a; export default function f() {} let b; export { b }; let c",
            "1:71 unused c; ",
        ),
        (
            FUNCTION_NAME,
            "(function f() { let f; return f })",
            "1:11 unused f; ",
        ),
    ] {
        assert!(rt; reported(alloc, tree, text)?.as_str() == wanted);
    }
    Ok(())
}

#[test]
fn each_fault_is_found_where_it_is(rt: HostRuntime) -> Result<(), Fail> {
    let alloc = rt.alloc();
    for (tree, text, wanted) in [
        (
            DECLARED_AGAIN,
            "let x; var x",
            "1:5 unused x; 1:12 fault-1 x; ",
        ),
        (
            CROSSED,
            "let x; { let x; { var x } }",
            "1:5 unused x; 1:14 unused x; 1:14 shadow x; 1:23 fault-1 x; 1:23 fault-2 x; ",
        ),
        (
            SLOPPY,
            "{ function f() {} }",
            "1:12 fault-3 f; 1:12 unused f; ",
        ),
        (
            UNDECLARED,
            "class A { m() { this.#p } }",
            "1:7 unused A; 1:22 fault-4 p; ",
        ),
        (
            REACHING,
            "function f(a = b) { var b }",
            "1:10 unused f; 1:12 unused a; 1:16 fault-5 b; ",
        ),
    ] {
        assert!(rt; reported(alloc, tree, text)?.as_str() == wanted);
    }
    Ok(())
}

#[test]
fn columns_count_code_units_of_a_line(rt: HostRuntime) -> Result<(), Fail> {
    let alloc = rt.alloc();
    for (tree, text, wanted) in [
        (AFTER_TEXT, "\"😀é\"; let x", "1:12 unused x; "),
        (TWO_LINES, "let x;\r\nlet y", "1:5 unused x; 2:5 unused y; "),
        (
            DECLARED_AGAIN,
            "ab\ncdefghi\rj",
            "2:2 unused x; 3:1 fault-1 x; ",
        ),
    ] {
        assert!(rt; reported(alloc, tree, text)?.as_str() == wanted);
    }
    Ok(())
}

#[test]
fn starts_lie_in_the_text(rt: HostRuntime) -> Result<(), Fail> {
    let alloc = rt.alloc();
    for (tree, text, wanted) in [
        (DECLARED_AGAIN, "", "bad span"),
        (REFERENCE, "", "bad span"),
        (REFERENCE, "é", "bad span"),
        (REFERENCE, "z", "1:2 unresolved y; "),
    ] {
        assert!(rt; reported(alloc, tree, text)?.as_str() == wanted);
    }
    Ok(())
}

#[test]
fn the_law_is_at_hand(_rt: HostRuntime) -> Result<(), Fail> {
    faults_are_found();
    Ok(())
}
