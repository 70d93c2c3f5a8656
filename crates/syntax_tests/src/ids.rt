//! Ids, and what becomes of them in copies.

ghost use Rattle.std.specs.Prelude.{◌≡◌};

use syntax_sem::class::{ClassId, ElementId};
use syntax_sem::node::NodeId;
use syntax_sem::reference::ReferenceId;
use syntax_sem::scope::ScopeId;
use syntax_sem::semantic_id::{CloneInSemanticIds, SemanticId};
use syntax_sem::symbol::{RedeclarationId, SymbolId};

#[test]
fn numbers_of_ids(rt: HostRuntime) {
    let rows = [
        (NodeId::from_usize(7).index(), 7),
        (ScopeId::from_usize(8).index(), 8),
        (SymbolId::from_usize(9).index(), 9),
        (
            ReferenceId::from_usize(4_294_967_294).index(),
            4_294_967_294,
        ),
        (RedeclarationId::from_usize(1).index(), 1),
        (ClassId::from_usize(4_294_967_295).index(), 4_294_967_295),
        (ElementId::from_usize(3).index(), 3),
    ];
    for (number, expected) in rows {
        assert!(rt; number == expected);
    }
    assert!(rt; NodeId::ROOT < NodeId::from_usize(7) && NodeId::default() == NodeId::DUMMY);
}

// The id that has the number of an id.
fn again(id: SymbolId) -> SymbolId
    ensures { result ≡ id }
{
    SymbolId::from_usize(id.index())
}

// Whether ids of each kind with the number of an id have that number.
fn have_its_number(symbol: SymbolId) -> bool {
    let number = symbol.index();
    let class = ClassId::from_usize(number);
    NodeId::from_usize(number).index() == number
        && ScopeId::from_usize(number).index() == number
        && ReferenceId::from_usize(number).index() == number
        && RedeclarationId::from_usize(number).index() == number
        && ElementId::from_usize(class.index()).index() == number
}

#[test]
fn ids_by_their_numbers(rt: HostRuntime) {
    let last = SymbolId::from_usize(4_294_967_294);
    assert!(rt; again(last) == last && have_its_number(last));
    let first = SymbolId::from_usize(0);
    assert!(rt; again(first) == first && have_its_number(first));
}

// The copies of an id: with the ids and without.
fn copies<I: SemanticId>(id: I) -> (I, I) {
    (
        id.clone_id(CloneInSemanticIds::With),
        id.clone_id(CloneInSemanticIds::Without),
    )
}

// The copies of an id that is there or not: with the ids and without.
fn option_copies<I: SemanticId>(id: Option<I>) -> (Option<I>, Option<I>) {
    (
        I::clone_cell_option_id(id, CloneInSemanticIds::With),
        I::clone_cell_option_id(id, CloneInSemanticIds::Without),
    )
}

#[test]
fn ids_in_copies(rt: HostRuntime) {
    let node = NodeId::from_usize(7);
    assert!(rt; copies(node) == (node, NodeId::ROOT));
    let scope = ScopeId::from_usize(8);
    assert!(rt; copies(scope) == (scope, ScopeId::from_usize(0)));
    let symbol = SymbolId::from_usize(9);
    assert!(rt; copies(symbol) == (symbol, SymbolId::from_usize(0)));
    let reference = ReferenceId::from_usize(4_294_967_294);
    assert!(rt; copies(reference) == (reference, ReferenceId::from_usize(0)));
}

#[test]
fn optional_ids_in_copies(rt: HostRuntime) {
    let node = Some(NodeId::from_usize(7));
    assert!(rt; option_copies(node) == (node, None));
    let scope = Some(ScopeId::from_usize(8));
    assert!(rt; option_copies(scope) == (scope, None));
    let symbol = Some(SymbolId::from_usize(9));
    assert!(rt; option_copies(symbol) == (symbol, None));
    assert!(rt; option_copies::<ReferenceId>(None) == (None, None));
}
