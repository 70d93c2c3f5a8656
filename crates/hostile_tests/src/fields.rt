//! Each kind of node with a field that is broken, doubled or unknown.
//!
//! In a row `#` stands for one field's value, in a node of the kind, and what stands beside the row is taken there.

use crate::trees::{MODULE, NOTHING, STATEMENT, is_tree};
use std::alloc::{AllocError, Global};
use std::test::Fail;

const PROGRAMS: [(&str, &str); 4] = [
    ("{'type':'Program','body':#,'sourceType':'module'}", "[]"),
    ("{'type':'Program','body':[],'sourceType':#}", "'commonjs'"),
    (
        "{'type':'Program','body':[],'sourceType':'script','hashbang':#}",
        "null",
    ),
    (
        "{'type':'Program','body':[],'sourceType':'script','hashbang':{'type':'Hashbang','value':#}}",
        "'x'",
    ),
];

const STATEMENTS: [(&str, &str); 24] = [
    (
        "{'type':'ExpressionStatement','expression':@,'directive':#}",
        "null",
    ),
    ("{'type':'BlockStatement','body':#}", "[]"),
    ("{'type':'EmptyStatement','end':#}", "0"),
    ("{'type':'DebuggerStatement','end':#}", "0"),
    ("{'type':'ReturnStatement','argument':#}", "null"),
    ("{'type':'ThrowStatement','argument':#}", "@"),
    (
        "{'type':'LabeledStatement','label':#,'body':{'type':'EmptyStatement'}}",
        "@",
    ),
    ("{'type':'BreakStatement','label':#}", "null"),
    ("{'type':'ContinueStatement','label':#}", "null"),
    (
        "{'type':'IfStatement','test':@,'consequent':{'type':'EmptyStatement'},'alternate':#}",
        "null",
    ),
    (
        "{'type':'SwitchStatement','discriminant':@,'cases':#}",
        "[]",
    ),
    (
        "{'type':'SwitchStatement','discriminant':@,'cases':[{'type':'SwitchCase','test':null,'consequent':#}]}",
        "[]",
    ),
    (
        "{'type':'TryStatement','block':{'type':'BlockStatement','body':[]},'handler':#,'finalizer':null}",
        "null",
    ),
    (
        "{'type':'TryStatement','block':{'type':'BlockStatement','body':[]},'handler':{'type':'CatchClause','param':#,'body':{'type':'BlockStatement','body':[]}},'finalizer':null}",
        "@",
    ),
    (
        "{'type':'WhileStatement','test':#,'body':{'type':'EmptyStatement'}}",
        "@",
    ),
    (
        "{'type':'DoWhileStatement','body':#,'test':@}",
        "{'type':'EmptyStatement'}",
    ),
    (
        "{'type':'ForStatement','init':#,'test':null,'update':null,'body':{'type':'EmptyStatement'}}",
        "null",
    ),
    (
        "{'type':'ForInStatement','left':#,'right':@,'body':{'type':'EmptyStatement'}}",
        "@",
    ),
    (
        "{'type':'ForOfStatement','await':#,'left':@,'right':@,'body':{'type':'EmptyStatement'}}",
        "true",
    ),
    (
        "{'type':'WithStatement','object':#,'body':{'type':'EmptyStatement'}}",
        "@",
    ),
    (
        "{'type':'VariableDeclaration','kind':#,'declarations':[]}",
        "'const'",
    ),
    (
        "{'type':'VariableDeclaration','kind':'let','declarations':[{'type':'VariableDeclarator','id':#,'init':null}]}",
        "@",
    ),
    (
        "{'type':'FunctionDeclaration','id':@,'generator':#,'async':false,'params':[],'body':{'type':'BlockStatement','body':[]},'expression':false}",
        "true",
    ),
    (
        "{'type':'ClassDeclaration','id':@,'superClass':#,'body':{'type':'ClassBody','body':[]}}",
        "null",
    ),
];

const CLASS_MEMBERS: [(&str, &str); 4] = [
    (
        "{'type':'ClassDeclaration','id':@,'body':{'type':'ClassBody','body':#}}",
        "[]",
    ),
    (
        "{'type':'ClassDeclaration','id':@,'body':{'type':'ClassBody','body':[{'type':'MethodDefinition','key':@,'value':{'type':'FunctionExpression','params':[],'body':{'type':'BlockStatement','body':[]}},'kind':#}]}}",
        "'get'",
    ),
    (
        "{'type':'ClassDeclaration','id':@,'body':{'type':'ClassBody','body':[{'type':'PropertyDefinition','key':@,'value':null,'static':#}]}}",
        "true",
    ),
    (
        "{'type':'ClassDeclaration','id':@,'body':{'type':'ClassBody','body':[{'type':'StaticBlock','body':#}]}}",
        "[]",
    ),
];

const EXCHANGES: [(&str, &str); 9] = [
    (
        "{'type':'ImportDeclaration','specifiers':#,'source':{'type':'Literal','value':'m'}}",
        "[]",
    ),
    (
        "{'type':'ImportDeclaration','specifiers':[{'type':'ImportSpecifier','imported':#,'local':@}],'source':{'type':'Literal','value':'m'}}",
        "@",
    ),
    (
        "{'type':'ImportDeclaration','specifiers':[{'type':'ImportDefaultSpecifier','local':#}],'source':{'type':'Literal','value':'m'}}",
        "@",
    ),
    (
        "{'type':'ImportDeclaration','specifiers':[{'type':'ImportNamespaceSpecifier','local':#}],'source':{'type':'Literal','value':'m'}}",
        "@",
    ),
    (
        "{'type':'ImportDeclaration','specifiers':[],'source':{'type':'Literal','value':'m'},'attributes':[{'type':'ImportAttribute','key':@,'value':#}]}",
        "{'type':'Literal','value':'v'}",
    ),
    (
        "{'type':'ExportNamedDeclaration','declaration':#,'specifiers':[]}",
        "null",
    ),
    (
        "{'type':'ExportNamedDeclaration','specifiers':[{'type':'ExportSpecifier','local':@,'exported':#}]}",
        "@",
    ),
    ("{'type':'ExportDefaultDeclaration','declaration':#}", "@"),
    (
        "{'type':'ExportAllDeclaration','exported':null,'source':#}",
        "{'type':'Literal','value':'m'}",
    ),
];

const EXPRESSIONS: [(&str, &str); 24] = [
    ("{'type':'ThisExpression','end':#}", "0"),
    (
        "{'type':'CallExpression','callee':{'type':'Super','end':#},'arguments':[]}",
        "0",
    ),
    ("{'type':'ArrayExpression','elements':#}", "[null]"),
    (
        "{'type':'ArrayExpression','elements':[{'type':'SpreadElement','argument':#}]}",
        "@",
    ),
    ("{'type':'ObjectExpression','properties':#}", "[]"),
    (
        "{'type':'ObjectExpression','properties':[{'type':'Property','kind':'init','key':@,'value':@,'method':#}]}",
        "true",
    ),
    (
        "{'type':'FunctionExpression','id':#,'params':[],'body':{'type':'BlockStatement','body':[]}}",
        "null",
    ),
    (
        "{'type':'ArrowFunctionExpression','params':#,'body':@}",
        "[]",
    ),
    (
        "{'type':'ClassExpression','id':null,'body':#}",
        "{'type':'ClassBody','body':[]}",
    ),
    (
        "{'type':'UnaryExpression','operator':#,'prefix':true,'argument':@}",
        "'void'",
    ),
    (
        "{'type':'UpdateExpression','operator':'++','prefix':#,'argument':@}",
        "true",
    ),
    (
        "{'type':'BinaryExpression','left':@,'operator':#,'right':@}",
        "'in'",
    ),
    (
        "{'type':'LogicalExpression','left':@,'operator':'??','right':#}",
        "@",
    ),
    (
        "{'type':'AssignmentExpression','operator':#,'left':@,'right':@}",
        "'&&='",
    ),
    (
        "{'type':'ConditionalExpression','test':@,'consequent':#,'alternate':@}",
        "@",
    ),
    (
        "{'type':'CallExpression','callee':@,'arguments':[],'optional':#}",
        "false",
    ),
    ("{'type':'NewExpression','callee':@,'arguments':#}", "[]"),
    ("{'type':'MemberExpression','object':@,'property':#}", "@"),
    (
        "{'type':'ChainExpression','expression':#}",
        "{'type':'CallExpression','callee':@,'arguments':[]}",
    ),
    ("{'type':'SequenceExpression','expressions':#}", "[@]"),
    (
        "{'type':'YieldExpression','delegate':#,'argument':null}",
        "true",
    ),
    ("{'type':'AwaitExpression','argument':#}", "@"),
    ("{'type':'ImportExpression','source':@,'options':#}", "null"),
    ("{'type':'MetaProperty','meta':@,'property':#}", "@"),
];

const LEAVES: [(&str, &str); 10] = [
    (
        "{'type':'TemplateLiteral','quasis':[],'expressions':#}",
        "[]",
    ),
    (
        "{'type':'TemplateLiteral','quasis':[{'type':'TemplateElement','value':{'raw':'x'},'tail':#}],'expressions':[]}",
        "true",
    ),
    (
        "{'type':'TaggedTemplateExpression','tag':@,'quasi':#}",
        "{'type':'TemplateLiteral','quasis':[],'expressions':[]}",
    ),
    (
        "{'type':'AssignmentExpression','operator':'=','left':{'type':'ObjectPattern','properties':#},'right':@}",
        "[]",
    ),
    (
        "{'type':'AssignmentExpression','operator':'=','left':{'type':'ArrayPattern','elements':#},'right':@}",
        "[null]",
    ),
    (
        "{'type':'AssignmentExpression','operator':'=','left':{'type':'ArrayPattern','elements':[{'type':'RestElement','argument':#}]},'right':@}",
        "@",
    ),
    (
        "{'type':'AssignmentExpression','operator':'=','left':{'type':'ArrayPattern','elements':[{'type':'AssignmentPattern','left':@,'right':#}]},'right':@}",
        "@",
    ),
    ("{'type':'Identifier','name':#}", "'b'"),
    (
        "{'type':'MemberExpression','object':@,'property':{'type':'PrivateIdentifier','name':#}}",
        "'b'",
    ),
    ("{'type':'Literal','value':1,'raw':#}", "null"),
];

// What is put for `#` in a row, and whether that is then a tree: the value that is taken alone, beside fields that
// are ignored, unknown or doubled, of which the last one counts; and two values that no field takes.
fn is_judged(alloc: Global, around: &str, row: &str, value: &str) -> Result<bool, AllocError> {
    let beside_nothing = format!(in alloc; "{value},'loc':null")?;
    let beside_content = format!(in alloc; "{value},'loc':{{}}")?;
    let doubled = format!(in alloc; "{value},'start':-1,'start':0")?;
    let doubled_badly = format!(in alloc; "{value},'start':0,'start':-1")?;
    Ok(
        is_tree(alloc, around, row, value)?
            && is_tree(alloc, around, row, beside_nothing.as_str())?
            && !is_tree(alloc, around, row, beside_content.as_str())?
            && is_tree(alloc, around, row, doubled.as_str())?
            && !is_tree(alloc, around, row, doubled_badly.as_str())?
            && !is_tree(alloc, around, row, "-1")?
            && !is_tree(alloc, around, row, "{'type':'Nothing'}")?,
    )
}

// The first row that is judged otherwise.
fn misjudged<'r>(
    alloc: Global,
    around: &str,
    rows: &[(&'r str, &'r str)],
) -> Result<Option<&'r str>, AllocError> {
    for (row, value) in rows {
        if !is_judged(alloc, around, row, value)? {
            return Ok(Some(*row));
        }
    }
    Ok(None)
}

#[test]
fn programs(rt: HostRuntime) -> Result<(), Fail> {
    let row = misjudged(rt.alloc(), NOTHING, &PROGRAMS)?;
    assert!(rt; row.is_none(), "{row:?}");
    Ok(())
}

#[test]
fn statements(rt: HostRuntime) -> Result<(), Fail> {
    let row = misjudged(rt.alloc(), MODULE, &STATEMENTS)?;
    assert!(rt; row.is_none(), "{row:?}");
    Ok(())
}

#[test]
fn class_members(rt: HostRuntime) -> Result<(), Fail> {
    let row = misjudged(rt.alloc(), MODULE, &CLASS_MEMBERS)?;
    assert!(rt; row.is_none(), "{row:?}");
    Ok(())
}

#[test]
fn exchanges(rt: HostRuntime) -> Result<(), Fail> {
    let row = misjudged(rt.alloc(), MODULE, &EXCHANGES)?;
    assert!(rt; row.is_none(), "{row:?}");
    Ok(())
}

#[test]
fn expressions(rt: HostRuntime) -> Result<(), Fail> {
    let row = misjudged(rt.alloc(), STATEMENT, &EXPRESSIONS)?;
    assert!(rt; row.is_none(), "{row:?}");
    Ok(())
}

#[test]
fn leaves(rt: HostRuntime) -> Result<(), Fail> {
    let row = misjudged(rt.alloc(), STATEMENT, &LEAVES)?;
    assert!(rt; row.is_none(), "{row:?}");
    Ok(())
}
