//! The scoping of an analysis, and names that are set for symbols.

ghost use Rattle.tree_semantic.specs.Semantics.{IsSemantic};
ghost use Rattle.tree_symbols.specs.Scopings.{IsScoping};

use crate::analysed::{program, semantic};
use crate::programs::{BLOCKS, STATEMENTS};
use oxc_data_structures::inline_string::InlineString;
use std::test::Fail;
use syntax_sem::scope::ScopeId;
use syntax_sem::symbol::SymbolId;
use tree_semantic::{Scoping, Semantic};

// The name of a symbol now, and the scope and the node in which it is declared.
fn told<'s>(scoping: &'s Scoping<'_>, k: usize) -> Option<(&'s str, usize, usize)>
    requires { IsScoping scoping.now }
{
    if k >= scoping.symbols_len() {
        return None;
    }
    let id = SymbolId::from_usize(k);
    let scope = scoping.symbol_scope_id(id).index();
    Some((
        scoping.symbol_name(id),
        scope,
        scoping.symbol_declaration(id).index(),
    ))
}

#[test]
fn symbols_are_told(rt: HostRuntime) -> Result<(), Fail> {
    let program = program(rt.alloc(), BLOCKS)?;
    let semantic = semantic(rt.alloc(), &program)?;
    let scoping = semantic.into_scoping();
    for (k, wanted) in [
        (0, Some(("x", 0, 3))),
        (1, Some(("y", 0, 7))),
        (2, Some(("f", 1, 9))),
        (3, Some(("a", 2, 11))),
        (4, None),
    ] {
        assert!(rt; told(&scoping, k) == wanted, "{k}");
    }
    Ok(())
}

// How many symbols a scope lists.
fn listed(semantic: &Semantic<'_>, k: usize) -> usize
    requires { IsSemantic semantic.now }
{
    let scoping = semantic.scoping();
    if k >= scoping.scopes_len() {
        return 0;
    }
    scoping.get_bindings(ScopeId::from_usize(k)).len()
}

#[test]
fn scopes_list_symbols(rt: HostRuntime) -> Result<(), Fail> {
    let program = program(rt.alloc(), STATEMENTS)?;
    let semantic = semantic(rt.alloc(), &program)?;
    for (k, count) in [(0, 0), (1, 0), (2, 0), (3, 0), (4, 1), (5, 1), (6, 0)] {
        assert!(rt; listed(&semantic, k) == count, "{k}");
    }
    Ok(())
}

// Gives the second symbol the name `e`, if there is one.
fn set_second(semantic: &mut Semantic<'_>) -> bool
    requires { IsSemantic semantic.old }
    ensures { IsSemantic semantic.new }
{
    if semantic.scoping().symbols_len() < 2 {
        return false;
    }
    let ids = [SymbolId::from_usize(1)];
    semantic.set_symbol_names(ids.as_slice(), InlineString::from_str("e"));
    true
}

// Whether the second symbol has this name now.
fn second_is(semantic: &Semantic<'_>, name: &str) -> bool
    requires { IsSemantic semantic.now }
{
    let scoping = semantic.scoping();
    scoping.symbols_len() > 1 && scoping.symbol_name(SymbolId::from_usize(1)) == name
}

#[test]
fn names_are_set_and_reset(rt: HostRuntime) -> Result<(), Fail> {
    let program = program(rt.alloc(), BLOCKS)?;
    let mut semantic = semantic(rt.alloc(), &program)?;
    assert!(rt; second_is(&semantic, "y"));
    assert!(rt; set_second(&mut semantic));
    assert!(rt; second_is(&semantic, "e"));
    semantic.reset_symbol_names();
    assert!(rt; second_is(&semantic, "y"));
    Ok(())
}
