//! Programs under the names that the mangler sets in their analyses.

ghost use Rattle.std.specs.Prelude.{IfOk};
ghost use Rattle.tree_nodes.specs.Tree.{alone};
ghost use Rattle.tree_semantic.specs.Semantics.{IsSemantic, IsSemanticOf};

use crate::programs::{CLASSES, INNER, OPEN, WRAPPED};
use oxc_mangler::Mangler;
use serde_json::Value;
use std::alloc::Global;
use std::test::Fail;
use syntax_sem::class::ClassId;
use syntax_sem::symbol::SymbolId;
use tree_apply::apply_names;
use tree_core::{Program, read_tree};
use tree_semantic::{Classes, Semantic, SemanticBuilder};

// The program of a text.
fn program(alloc: Global, text: &str) -> Result<Program, Fail> {
    match read_tree(alloc, &Value::from_str(alloc, text)?, 0) {
        Ok(program) => Ok(program),
        Err(_) => Err(Fail::from("no tree")),
    }
}

// The analysis of a program.
fn analysis<'t>(alloc: Global, program: &'t Program) -> Result<Semantic<'t>, Fail>
    ensures semantic { IfOk result (λ s. IsSemantic s) }
    ensures of_program { IfOk result (λ s. IsSemanticOf (alone program.now) s) }
{
    match SemanticBuilder::new().build(alloc, program) {
        Ok(semantic) => Ok(semantic),
        Err(_) => Err(Fail::from("no analysis")),
    }
}

// The program under the names that the mangler gives it.
fn mangled(alloc: Global, program: &Program) -> Result<Program, Fail> {
    let mut semantic = analysis(alloc, program)?;
    if semantic.nodes().len() >= 1_000_000_000 {
        return Err(Fail::from("too many nodes"));
    }
    let names = Mangler::new().build_with_semantic(alloc, &mut semantic)?;
    let copy = apply_names(alloc, program, &semantic, &names.class_private_mappings)?;
    Ok(copy)
}

// The names of a program's symbols in its tree, in their order, each before a space.
fn names_of(alloc: Global, program: &Program) -> Result<String, Fail> {
    let semantic = analysis(alloc, program)?;
    let scoping = semantic.scoping();
    let mut names = String::new(alloc);
    for k in 0..scoping.symbols_len() {
        names.push_str(scoping.symbol_ident(SymbolId::from_usize(k)).as_str())?;
        names.push(' ')?;
    }
    Ok(names)
}

// Whether the n-th private name of a class is this one, from 0.
fn has_name(classes: &Classes<'_>, k: usize, n: usize, name: &str) -> bool {
    if k >= classes.len() || k >= 100 {
        return false;
    }
    let names = classes.private_names(ClassId::from_usize(k));
    n < names.len() && names[n].as_str() == name
}

// Whether that is so in a program under its new names.
fn is_renamed(alloc: Global, text: &str, k: usize, n: usize, name: &str) -> Result<bool, Fail> {
    let program = program(alloc, text)?;
    let copy = mangled(alloc, &program)?;
    let semantic = analysis(alloc, &copy)?;
    Ok(has_name(semantic.classes(), k, n, name))
}

// The names of the symbols of a program under its new names.
fn new_names(alloc: Global, text: &str) -> Result<String, Fail> {
    let program = program(alloc, text)?;
    let copy = mangled(alloc, &program)?;
    names_of(alloc, &copy)
}

#[test]
fn symbols_are_renamed(rt: HostRuntime) -> Result<(), Fail> {
    for (text, wanted) in [
        (INNER, "e t "),
        (CLASSES, "e e e e "),
        (WRAPPED, "e t e t t "),
    ] {
        assert!(rt; new_names(rt.alloc(), text)?.as_str() == wanted, "{text}");
    }
    Ok(())
}

#[test]
fn private_names_are_renamed(rt: HostRuntime) -> Result<(), Fail> {
    for (text, k, n, name) in [
        (CLASSES, 0, 0, "e"),
        (CLASSES, 0, 1, "t"),
        (CLASSES, 1, 0, "n"),
        (OPEN, 0, 0, "e"),
        (OPEN, 1, 0, "t"),
    ] {
        assert!(rt;
            is_renamed(rt.alloc(), text, k, n, name)?,
            "{name} in {text}"
        );
    }
    Ok(())
}
