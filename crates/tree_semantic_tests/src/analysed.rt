//! Which programs are analysed, and how many nodes, scopes, symbols and references they have.

ghost use Rattle.std.specs.Prelude.{IfOk};
ghost use Rattle.tree_semantic.specs.Semantics.{IsSemantic};

use crate::programs::{BLOCKS, CLASSES, EXPORTS, FAULTS, STATEMENTS};
use serde_json::Value;
use std::alloc::Global;
use std::test::Fail;
use tree_core::{Program, read_tree};
use tree_semantic::{Semantic, SemanticBuilder, SemanticError, Stats};

/// The program of a text.
pub(crate) fn program(alloc: Global, text: &str) -> Result<Program, Fail> {
    match read_tree(alloc, &Value::from_str(alloc, text)?, 0) {
        Ok(program) => Ok(program),
        Err(_) => Err(Fail::from("no tree")),
    }
}

/// The analysis of a program.
pub(crate) fn semantic<'t>(alloc: Global, program: &'t Program) -> Result<Semantic<'t>, Fail>
    ensures { IfOk result (λ s. IsSemantic s) }
{
    match SemanticBuilder::new().build(alloc, program) {
        Ok(semantic) => Ok(semantic),
        Err(SemanticError::BadScope) => Err(Fail::from("bad scope")),
        Err(SemanticError::Memory) => Err(Fail::from("memory")),
    }
}

// How many nodes, scopes, symbols and references a program has.
fn counts(alloc: Global, text: &str) -> Result<(u32, u32, u32, u32), Fail> {
    let program = program(alloc, text)?;
    let stats = semantic(alloc, &program)?.stats();
    Ok((stats.nodes, stats.scopes, stats.symbols, stats.references))
}

#[test]
fn programs_have_so_many(rt: HostRuntime) -> Result<(), Fail> {
    for (text, wanted) in [
        (BLOCKS, (16, 3, 4, 2)),
        (CLASSES, (29, 5, 2, 2)),
        (EXPORTS, (15, 1, 2, 3)),
        (STATEMENTS, (23, 6, 3, 3)),
    ] {
        assert!(rt; counts(rt.alloc(), text)? == wanted, "{text}");
    }
    Ok(())
}

// How the analysis of a program ends, by a builder that is told how many of each there may be.
fn end(alloc: Global, text: &str) -> Result<&'static str, Fail> {
    let program = program(alloc, text)?;
    let stats = Stats {
        nodes: 9,
        scopes: 2,
        symbols: 3,
        references: 1,
    };
    match SemanticBuilder::new()
        .with_stats(stats)
        .build(alloc, &program)
    {
        Ok(_) => Ok("sound"),
        Err(SemanticError::BadScope) => Ok("bad scope"),
        Err(SemanticError::Memory) => Err(Fail::from("memory")),
    }
}

#[test]
fn faulty_programs_are_refused(rt: HostRuntime) -> Result<(), Fail> {
    for (faulty, sound) in FAULTS {
        assert!(rt; end(rt.alloc(), faulty)? == "bad scope", "{faulty}");
        assert!(rt; end(rt.alloc(), sound)? == "sound", "{sound}");
    }
    Ok(())
}

#[test]
fn errors_are_printed(rt: HostRuntime) -> Result<(), Fail> {
    let alloc = rt.alloc();
    assert!(rt; format!(in alloc; "{}", SemanticError::BadScope)?.as_str() == "bad scope");
    assert!(rt; format!(in alloc; "{}", SemanticError::Memory)?.as_str() == "out of memory");
    Ok(())
}
