//! Programs in which each kind of node stands.

use crate::texts::{expression, json, module, output, printed};
use std::alloc::Global;
use std::test::Fail;
use tree_core::{KINDS, row};

// Each field stands in printing order, without `start` and `end`.
const SCRIPT: &str =
    "{'type':'Program','body':[{'type':'DebuggerStatement'},{'type':'WithStatement','object':@,'body':{'type':'EmptyStatement'}}],'sourceType':'script','hashbang':{'type':'Hashbang','value':'/bin/js'}}";

// Statements, and declarations within a module.
const STATEMENTS: [&str; 11] = [
    "{'type':'IfStatement','test':{'type':'ThisExpression'},'consequent':{'type':'BlockStatement','body':[{'type':'EmptyStatement'}]},'alternate':null}",
    "{'type':'LabeledStatement','label':@,'body':{'type':'WhileStatement','test':{'type':'Literal','value':true,'raw':null},'body':{'type':'BlockStatement','body':[{'type':'BreakStatement','label':@},{'type':'ContinueStatement','label':null}]}}}",
    "{'type':'SwitchStatement','discriminant':@,'cases':[{'type':'SwitchCase','test':null,'consequent':[{'type':'EmptyStatement'}]}]}",
    "{'type':'TryStatement','block':{'type':'BlockStatement','body':[{'type':'ThrowStatement','argument':@}]},'handler':{'type':'CatchClause','param':@,'body':{'type':'BlockStatement','body':[]}},'finalizer':null}",
    "{'type':'DoWhileStatement','body':{'type':'EmptyStatement'},'test':{'type':'Literal','value':0,'raw':null}}",
    "{'type':'ForStatement','init':{'type':'VariableDeclaration','kind':'let','declarations':[{'type':'VariableDeclarator','id':@,'init':{'type':'Literal','value':0,'raw':null}}]},'test':null,'update':{'type':'UpdateExpression','operator':'++','prefix':false,'argument':@},'body':{'type':'EmptyStatement'}}",
    "{'type':'ForInStatement','left':@,'right':@,'body':{'type':'EmptyStatement'}}",
    "{'type':'ForOfStatement','await':true,'left':{'type':'VariableDeclaration','kind':'const','declarations':[{'type':'VariableDeclarator','id':@,'init':null}]},'right':@,'body':{'type':'EmptyStatement'}}",
    "{'type':'FunctionDeclaration','id':@,'generator':false,'async':false,'params':[{'type':'RestElement','argument':@}],'body':{'type':'BlockStatement','body':[{'type':'ReturnStatement','argument':null}]},'expression':false}",
    "{'type':'ClassDeclaration','id':@,'superClass':null,'body':{'type':'ClassBody','body':[{'type':'StaticBlock','body':[{'type':'EmptyStatement'}]}]}}",
    "{'type':'VariableDeclaration','kind':'var','declarations':[{'type':'VariableDeclarator','id':{'type':'ArrayPattern','elements':[null,@]},'init':@}]}",
];

// Expressions, and patterns that are assigned.
const EXPRESSIONS: [&str; 10] = [
    "{'type':'FunctionExpression','id':null,'generator':true,'async':false,'params':[],'body':{'type':'BlockStatement','body':[{'type':'ExpressionStatement','expression':{'type':'YieldExpression','delegate':true,'argument':@}}]},'expression':false}",
    "{'type':'ArrowFunctionExpression','expression':true,'async':true,'params':[],'body':{'type':'AwaitExpression','argument':@}}",
    "{'type':'ClassExpression','id':null,'superClass':@,'body':{'type':'ClassBody','body':[{'type':'MethodDefinition','key':{'type':'Identifier','name':'constructor'},'value':{'type':'FunctionExpression','id':null,'generator':false,'async':false,'params':[],'body':{'type':'BlockStatement','body':[{'type':'ExpressionStatement','expression':{'type':'CallExpression','callee':{'type':'Super'},'arguments':[],'optional':false}}]},'expression':false},'kind':'constructor','computed':false,'static':false},{'type':'PropertyDefinition','key':{'type':'PrivateIdentifier','name':'p'},'value':null,'computed':false,'static':true}]}}",
    "{'type':'ArrayExpression','elements':[null,{'type':'SpreadElement','argument':@}]}",
    "{'type':'ObjectExpression','properties':[{'type':'Property','kind':'init','key':@,'value':@,'method':false,'shorthand':true,'computed':false}]}",
    "{'type':'SequenceExpression','expressions':[{'type':'UnaryExpression','operator':'typeof','prefix':true,'argument':@},{'type':'BinaryExpression','left':@,'operator':'instanceof','right':@},{'type':'LogicalExpression','left':@,'operator':'??','right':@},{'type':'ConditionalExpression','test':@,'consequent':@,'alternate':@}]}",
    "{'type':'AssignmentExpression','operator':'=','left':{'type':'ObjectPattern','properties':[{'type':'Property','kind':'init','key':@,'value':{'type':'AssignmentPattern','left':@,'right':{'type':'Literal','value':'x','raw':null}},'method':false,'shorthand':false,'computed':false}]},'right':{'type':'NewExpression','callee':@,'arguments':[]}}",
    "{'type':'ChainExpression','expression':{'type':'MemberExpression','object':@,'property':@,'computed':false,'optional':false}}",
    "{'type':'MetaProperty','meta':{'type':'Identifier','name':'import'},'property':{'type':'Identifier','name':'meta'}}",
    "{'type':'TaggedTemplateExpression','tag':@,'quasi':{'type':'TemplateLiteral','quasis':[{'type':'TemplateElement','value':{'raw':'\\\\u','cooked':null},'tail':false},{'type':'TemplateElement','value':{'raw':'b','cooked':'b'},'tail':true}],'expressions':[@]}}",
];

// Imports and exports.
const EXCHANGES: [&str; 5] = [
    "{'type':'ImportDeclaration','specifiers':[{'type':'ImportDefaultSpecifier','local':@},{'type':'ImportNamespaceSpecifier','local':@}],'source':{'type':'Literal','value':'m','raw':null},'attributes':[]}",
    "{'type':'ImportDeclaration','specifiers':[{'type':'ImportSpecifier','imported':@,'local':@}],'source':{'type':'Literal','value':'m','raw':null},'attributes':[{'type':'ImportAttribute','key':{'type':'Identifier','name':'type'},'value':{'type':'Literal','value':'json','raw':null}}]}",
    "{'type':'ExportNamedDeclaration','declaration':null,'specifiers':[{'type':'ExportSpecifier','local':@,'exported':{'type':'Literal','value':'x y','raw':null}}],'source':null,'attributes':[]}",
    "{'type':'ExportAllDeclaration','exported':null,'source':{'type':'Literal','value':'m','raw':null},'attributes':[]}",
    "{'type':'ExportDefaultDeclaration','declaration':{'type':'ImportExpression','source':{'type':'Literal','value':'m','raw':null},'options':null}}",
];

fn is_printed_as_read(alloc: Global, program: &str) -> Result<bool, Fail> {
    let wanted = output(alloc, program, "[]")?;
    Ok(printed(alloc, program)?.as_str() == wanted.as_str())
}

#[test]
fn scripts(rt: HostRuntime) -> Result<(), Fail> {
    let program = json(rt.alloc(), SCRIPT)?;
    assert!(rt; is_printed_as_read(rt.alloc(), program.as_str())?);
    Ok(())
}

#[test]
fn statements(rt: HostRuntime) -> Result<(), Fail> {
    for text in STATEMENTS {
        let program = module(rt.alloc(), text)?;
        assert!(rt; is_printed_as_read(rt.alloc(), program.as_str())?, "{text}");
    }
    Ok(())
}

#[test]
fn expressions(rt: HostRuntime) -> Result<(), Fail> {
    for text in EXPRESSIONS {
        let program = expression(rt.alloc(), text)?;
        assert!(rt; is_printed_as_read(rt.alloc(), program.as_str())?, "{text}");
    }
    Ok(())
}

#[test]
fn imports_and_exports(rt: HostRuntime) -> Result<(), Fail> {
    for text in EXCHANGES {
        let program = module(rt.alloc(), text)?;
        assert!(rt; is_printed_as_read(rt.alloc(), program.as_str())?, "{text}");
    }
    Ok(())
}

fn stands_among(texts: &[&str], node: &str) -> bool {
    for text in texts {
        if text.contains(node) {
            return true;
        }
    }
    false
}

#[test]
fn each_kind_stands_in_a_program(rt: HostRuntime) -> Result<(), Fail> {
    for kind in KINDS {
        let name = row(kind).name;
        let node = format!(in rt.alloc(); "{{'type':'{name}'")?;
        let node = node.as_str();
        assert!(rt;
            SCRIPT.contains(node)
                || name == "ExpressionStatement"
                || name == "Identifier"
                || stands_among(&STATEMENTS, node)
                || stands_among(&EXPRESSIONS, node)
                || stands_among(&EXCHANGES, node),
            "{name}"
        );
    }
    Ok(())
}
