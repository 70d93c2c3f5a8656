//! The nodes of a program, by ids.

use crate::analysed::{program, semantic};
use crate::programs::BLOCKS;
use std::test::Fail;
use syntax_sem::node::NodeId;
use tree_nodes::Kind;
use tree_semantic::AstNodes;

// The kind of a node, told in two ways, its parent and the scope in which it lies.
fn told(nodes: &AstNodes<'_>, n: usize) -> Option<(u8, u8, usize, usize)> {
    if n >= nodes.len() || n >= 100 {
        return None;
    }
    let id = NodeId::from_usize(n);
    let kind = nodes.kind(id).number();
    let same = nodes.node(id).kind.number();
    Some((
        kind,
        same,
        nodes.parent_id(id).index(),
        nodes.scope_id(id).index(),
    ))
}

#[test]
fn nodes_are_told(rt: HostRuntime) -> Result<(), Fail> {
    let program = program(rt.alloc(), BLOCKS)?;
    let semantic = semantic(rt.alloc(), &program)?;
    let rows = [
        (Kind::Program, 0, 0),
        (Kind::VariableDeclaration, 0, 0),
        (Kind::VariableDeclarator, 1, 0),
        (Kind::Identifier, 2, 0),
        (Kind::BlockStatement, 0, 0),
        (Kind::VariableDeclaration, 4, 1),
        (Kind::VariableDeclarator, 5, 1),
        (Kind::Identifier, 6, 1),
        (Kind::FunctionDeclaration, 4, 1),
        (Kind::Identifier, 8, 1),
        (Kind::AssignmentPattern, 8, 2),
        (Kind::Identifier, 10, 2),
        (Kind::Identifier, 10, 2),
        (Kind::BlockStatement, 8, 2),
        (Kind::ReturnStatement, 13, 2),
        (Kind::Identifier, 14, 2),
    ];
    for n in 0..16 {
        let (kind, parent, scope) = rows[n];
        let number = kind.number();
        assert!(rt;
            told(semantic.nodes(), n) == Some((number, number, parent, scope)),
            "{n}"
        );
    }
    assert!(rt; told(semantic.nodes(), 16).is_none());
    Ok(())
}
