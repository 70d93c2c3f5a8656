//! The scopes around a scope, and what each scope lists, one at a time.

ghost use Rattle.std.specs.Iterator.{YieldsFirstBy, item_count};
ghost use Rattle.syntax_sem.specs.ScopeId.{number_of};
ghost use Rattle.tree_symbols.specs.Around.{AreListings, LeadOutwards, listed_from, listing, scopes_from};
ghost use Rattle.std.specs.Prelude.{◌≡◌};

use number_tables::Groups;
use place_list::ScopeEntry;
use std::marker::Model;
use syntax_sem::scope::ScopeId;
use syntax_sem::symbol::SymbolId;

/// A scope and those around it, from the scope itself outwards. Contracts see it as the list of the numbers that
/// are left.
#[derive(Drop)]
pub struct ScopeAncestors<'s> {
    scopes: &'s [ScopeEntry],
    at: Option<u32>,
}

impl<'s> Model for ScopeAncestors<'s> {
    ghost use Rattle.std.specs.Prelude.{ℕ, List};
    ghost use Rattle.tree_symbols.specs.Around.{LeadOutwards, scopes_from};

    ghost Value = { List ℕ };

    ghost view = { λ a. scopes_from a.scopes.now a.at };

    ghost invariant = { λ a. LeadOutwards a.scopes.now a.at };
}

impl<'s> ScopeAncestors<'s> {
    // The scope of this number, and those around it.
    pub(crate) fn new(scopes: &'s [ScopeEntry], at: Option<u32>) -> Self
        requires { LeadOutwards scopes.now at }
        ensures { result ≡ scopes_from scopes.now at }
    {
        ScopeAncestors { scopes, at }
    }
}

impl<'s> Iterator for ScopeAncestors<'s> {
    type Item = ScopeId;

    ghost next_gives = { YieldsFirstBy number_of (λ rest. rest) };

    ghost remaining = { item_count (λ rest. rest) };

    fn next(&mut self) -> Option<ScopeId> {
        match self.at {
            Some(scope) => {
                self.at = self.scopes[scope as usize].parent;
                Some(ScopeId::from_usize(scope as usize))
            }
            None => None,
        }
    }
}

/// Each scope with the symbols that it lists, rising. Contracts see it as the list of the pairs that are left, by
/// numbers.
#[derive(Drop)]
pub struct Bindings<'s> {
    lists: &'s Groups<SymbolId>,
    at: usize,
}

impl<'s> Model for Bindings<'s> {
    ghost use Rattle.std.specs.Prelude.{ℕ, List};
    ghost use Rattle.tree_symbols.specs.Around.{AreListings, listed_from};

    ghost Value = { List (ℕ × List ℕ) };

    ghost view = { λ b. listed_from b.lists.now b.at };

    ghost invariant = { λ b. AreListings b.lists.now b.at };
}

impl<'s> Bindings<'s> {
    // Those from this scope on.
    pub(crate) fn new(lists: &'s Groups<SymbolId>, at: usize) -> Self
        requires { AreListings lists.now at }
        ensures { result ≡ listed_from lists.now at }
    {
        Bindings { lists, at }
    }
}

impl<'s> Iterator for Bindings<'s> {
    type Item = (ScopeId, &'s [SymbolId]);

    ghost next_gives = { YieldsFirstBy listing (λ rest. rest) };

    ghost remaining = { item_count (λ rest. rest) };

    fn next(&mut self) -> Option<(ScopeId, &'s [SymbolId])> {
        let scope = self.at;
        if scope < self.lists.len() {
            self.at = scope + 1;
            Some((ScopeId::from_usize(scope), self.lists.get(scope)))
        } else {
            None
        }
    }
}
