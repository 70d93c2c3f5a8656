//! Programs that are mangled, and what their symbols are called then.

ghost use Rattle.std.specs.Prelude.{◌+◌, ◌<◌, ◌^◌, IfOk};
ghost use Rattle.tree_core.specs.NodeCount.{node_count};
ghost use Rattle.tree_semantic.specs.Semantics.{IsSemantic};
ghost use Rattle.tree_symbols.specs.Scopings.{IsScoping};

use oxc_mangler::{BuildError, MangleOptions, Mangler};
use oxc_str::CompactStr;
use serde_json::Value;
use std::alloc::{AllocError, Global};
use std::test::Fail;
use syntax_sem::symbol::SymbolId;
use tree_core::{Program, read_tree};
use tree_semantic::{Scoping, Semantic, SemanticBuilder};

/// What is asked, but for the names that are reserved.
#[derive(Clone, Copy)]
pub(crate) struct Asked {
    pub top_level: Option<bool>,
    pub function: bool,
    pub class: bool,
    pub debug: bool,
}

/// What is asked by default.
pub(crate) const USUAL: Asked = Asked {
    top_level: None,
    function: false,
    class: false,
    debug: false,
};

/// The options that ask this, where each character here is a reserved name.
pub(crate) fn options(
    alloc: Global,
    asked: Asked,
    reserved: &str,
) -> Result<MangleOptions, AllocError> {
    let mut options = MangleOptions::new(alloc);
    options.top_level = asked.top_level;
    options.keep_names.function = asked.function;
    options.keep_names.class = asked.class;
    options.debug = asked.debug;
    for c in reserved.chars() {
        let name = format!(in alloc; "{c}")?;
        options
            .reserved
            .insert(CompactStr::new(alloc, name.as_str())?)?;
    }
    Ok(options)
}

/// The program of a text, of which so many names are reserved.
pub(crate) fn program(alloc: Global, text: &str, reserved: usize) -> Result<Program, Fail>
    ensures { IfOk result (λ p. node_count p + reserved < 2 ^ 30) }
{
    match read_tree(alloc, &Value::from_str(alloc, text)?, reserved) {
        Ok(program) => Ok(program),
        Err(_) => Err(Fail::from("no tree")),
    }
}

/// The analysis of a program.
pub(crate) fn semantic<'t>(alloc: Global, program: &'t Program) -> Result<Semantic<'t>, Fail>
    ensures { IfOk result (λ s. IsSemantic s) }
{
    match SemanticBuilder::new().build(alloc, program) {
        Ok(semantic) => Ok(semantic),
        Err(_) => Err(Fail::from("no analysis")),
    }
}

/// The names of all symbols, in their order, each before a space.
pub(crate) fn names_of(alloc: Global, scoping: &Scoping<'_>) -> Result<String, AllocError>
    requires { IsScoping scoping.now }
{
    let mut names = String::new(alloc);
    for k in 0..scoping.symbols_len() {
        names.push_str(scoping.symbol_name(SymbolId::from_usize(k)))?;
        names.push(' ')?;
    }
    Ok(names)
}

/// The names of the symbols of a program that is mangled so.
pub(crate) fn mangled(
    alloc: Global,
    text: &str,
    asked: Asked,
    reserved: &str,
) -> Result<String, Fail> {
    let options = options(alloc, asked, reserved)?;
    let program = program(alloc, text, options.reserved.len())?;
    let mangler = Mangler::new().with_options(options);
    match mangler.build(alloc, &program) {
        Ok(mangled) => Ok(names_of(alloc, &mangled.scoping)?),
        Err(BuildError::BadScope) => Err(Fail::from("bad scope")),
        Err(BuildError::Memory) => Err(Fail::from("memory")),
    }
}
