//! Nodes where nodes of their kind may not stand, in the place of `#`.

use crate::trees::{MODULE, STATEMENT, is_tree};
use std::alloc::{AllocError, Global};
use std::test::Fail;

// Places for an expression.
const EXPRESSION_PLACES: [&str; 12] = [
    "{'type':'ExpressionStatement','expression':#}",
    "{'type':'ReturnStatement','argument':#}",
    "{'type':'IfStatement','test':#,'consequent':{'type':'EmptyStatement'}}",
    "{'type':'SwitchStatement','discriminant':#,'cases':[]}",
    "{'type':'WhileStatement','test':#,'body':{'type':'EmptyStatement'}}",
    "{'type':'ForInStatement','left':@,'right':#,'body':{'type':'EmptyStatement'}}",
    "{'type':'VariableDeclaration','kind':'var','declarations':[{'type':'VariableDeclarator','id':@,'init':#}]}",
    "{'type':'ClassDeclaration','id':@,'superClass':#,'body':{'type':'ClassBody','body':[]}}",
    "{'type':'ExpressionStatement','expression':{'type':'AssignmentExpression','operator':'=','left':@,'right':#}}",
    "{'type':'ExpressionStatement','expression':{'type':'TemplateLiteral','quasis':[],'expressions':[#]}}",
    "{'type':'ExpressionStatement','expression':{'type':'ArrayExpression','elements':[{'type':'SpreadElement','argument':#}]}}",
    "{'type':'ExpressionStatement','expression':{'type':'MemberExpression','object':@,'property':#,'computed':true}}",
];

const NO_EXPRESSIONS: [&str; 10] = [
    "{'type':'ObjectPattern','properties':[]}",
    "{'type':'ArrayPattern','elements':[]}",
    "{'type':'AssignmentPattern','left':@,'right':@}",
    "{'type':'RestElement','argument':@}",
    "{'type':'SpreadElement','argument':@}",
    "{'type':'Super'}",
    "{'type':'PrivateIdentifier','name':'a'}",
    "{'type':'EmptyStatement'}",
    "{'type':'TemplateElement','value':{'raw':'x'},'tail':true}",
    "{'type':'Property','kind':'init','key':@,'value':@}",
];

// Places for a pattern that declares.
const PATTERN_PLACES: [&str; 5] = [
    "{'type':'VariableDeclaration','kind':'let','declarations':[{'type':'VariableDeclarator','id':#}]}",
    "{'type':'FunctionDeclaration','id':@,'params':[#],'body':{'type':'BlockStatement','body':[]}}",
    "{'type':'TryStatement','block':{'type':'BlockStatement','body':[]},'handler':{'type':'CatchClause','param':#,'body':{'type':'BlockStatement','body':[]}}}",
    "{'type':'FunctionDeclaration','id':@,'params':[{'type':'RestElement','argument':#}],'body':{'type':'BlockStatement','body':[]}}",
    "{'type':'FunctionDeclaration','id':@,'params':[{'type':'AssignmentPattern','left':#,'right':@}],'body':{'type':'BlockStatement','body':[]}}",
];

const NO_PATTERNS: [&str; 6] = [
    "{'type':'ThisExpression'}",
    "{'type':'ObjectExpression','properties':[]}",
    "{'type':'MemberExpression','object':@,'property':@}",
    "{'type':'Literal','value':1}",
    "{'type':'PrivateIdentifier','name':'a'}",
    "{'type':'SpreadElement','argument':@}",
];

// Places for what is assigned.
const TARGET_PLACES: [&str; 4] = [
    "{'type':'ExpressionStatement','expression':{'type':'AssignmentExpression','operator':'=','left':#,'right':@}}",
    "{'type':'ForInStatement','left':#,'right':@,'body':{'type':'EmptyStatement'}}",
    "{'type':'ForOfStatement','left':#,'right':@,'body':{'type':'EmptyStatement'}}",
    "{'type':'ExpressionStatement','expression':{'type':'AssignmentExpression','operator':'=','left':{'type':'ArrayPattern','elements':[{'type':'RestElement','argument':#}]},'right':@}}",
];

const NO_TARGETS: [&str; 6] = [
    "{'type':'ThisExpression'}",
    "{'type':'ArrayExpression','elements':[]}",
    "{'type':'CallExpression','callee':@,'arguments':[]}",
    "{'type':'AssignmentPattern','left':@,'right':@}",
    "{'type':'Literal','value':1}",
    "{'type':'EmptyStatement'}",
];

const EMPTY: &str = "{'type':'EmptyStatement'}";

// Places for a statement in a list, and alone.
const STATEMENT_PLACES: [&str; 3] = [
    "{'type':'BlockStatement','body':[#]}",
    "{'type':'SwitchStatement','discriminant':@,'cases':[{'type':'SwitchCase','test':null,'consequent':[#]}]}",
    "{'type':'ClassDeclaration','id':@,'body':{'type':'ClassBody','body':[{'type':'StaticBlock','body':[#]}]}}",
];

const NO_STATEMENTS: [&str; 7] = [
    "@",
    "null",
    "{'type':'SwitchCase','test':null,'consequent':[]}",
    "{'type':'Program','body':[],'sourceType':'module'}",
    "{'type':'ImportDeclaration','specifiers':[],'source':{'type':'Literal','value':'m'}}",
    "{'type':'ExportNamedDeclaration','specifiers':[]}",
    "{'type':'FunctionDeclaration','id':null,'params':[],'body':{'type':'BlockStatement','body':[]}}",
];

const BODY_PLACES: [&str; 3] = [
    "{'type':'IfStatement','test':@,'consequent':#}",
    "{'type':'LabeledStatement','label':@,'body':#}",
    "{'type':'ForStatement','body':#}",
];

const NO_BODIES: [&str; 4] = [
    "@",
    "{'type':'FunctionDeclaration','id':@,'params':[],'body':{'type':'BlockStatement','body':[]}}",
    "{'type':'ClassDeclaration','id':@,'body':{'type':'ClassBody','body':[]}}",
    "{'type':'VariableDeclaration','kind':'let','declarations':[]}",
];

// Whether this place takes this node, and none of those.
fn is_choosy(
    alloc: Global,
    (around, place): (&str, &str),
    node: &str,
    others: &[&str],
) -> Result<bool, AllocError> {
    for other in others {
        if is_tree(alloc, around, place, other)? {
            return Ok(false);
        }
    }
    is_tree(alloc, around, place, node)
}

// The first of these places that takes another one than this node.
fn unchoosy<'p>(
    alloc: Global,
    places: &[&'p str],
    node: &str,
    others: &[&str],
) -> Result<Option<&'p str>, AllocError> {
    for place in places {
        if !is_choosy(alloc, (MODULE, place), node, others)? {
            return Ok(Some(*place));
        }
    }
    Ok(None)
}

#[test]
fn places_of_expressions(rt: HostRuntime) -> Result<(), Fail> {
    let place = unchoosy(rt.alloc(), &EXPRESSION_PLACES, "@", &NO_EXPRESSIONS)?;
    assert!(rt; place.is_none(), "{place:?}");
    Ok(())
}

#[test]
fn places_of_patterns(rt: HostRuntime) -> Result<(), Fail> {
    let place = unchoosy(rt.alloc(), &PATTERN_PLACES, "@", &NO_PATTERNS)?;
    assert!(rt; place.is_none(), "{place:?}");
    Ok(())
}

#[test]
fn places_of_targets(rt: HostRuntime) -> Result<(), Fail> {
    let place = unchoosy(rt.alloc(), &TARGET_PLACES, "@", &NO_TARGETS)?;
    assert!(rt; place.is_none(), "{place:?}");
    Ok(())
}

#[test]
fn places_of_statements(rt: HostRuntime) -> Result<(), Fail> {
    let place = unchoosy(rt.alloc(), &STATEMENT_PLACES, EMPTY, &NO_STATEMENTS)?;
    assert!(rt; place.is_none(), "{place:?}");
    Ok(())
}

#[test]
fn places_of_bodies(rt: HostRuntime) -> Result<(), Fail> {
    let place = unchoosy(rt.alloc(), &BODY_PLACES, EMPTY, &NO_BODIES)?;
    assert!(rt; place.is_none(), "{place:?}");
    Ok(())
}

// A private name stands on the left of `in` alone.
#[test]
fn places_of_private_names(rt: HostRuntime) -> Result<(), Fail> {
    let place = (
        STATEMENT,
        "{'type':'BinaryExpression','left':{'type':'PrivateIdentifier','name':'a'},'operator':#,'right':@}",
    );
    assert!(rt; is_choosy(rt.alloc(), place, "'in'", &["'instanceof'", "'+'"])?);
    Ok(())
}
