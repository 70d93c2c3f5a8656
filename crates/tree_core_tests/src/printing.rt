//! What is read of the fields of each class, and how it is printed.

use crate::texts::{expression, json, module, output, printed};
use std::alloc::{AllocError, Global};
use std::test::Fail;
use tree_core::{
    printed_text_reads, programs_are_small, reading_undoes_printing, trees_have_text,
    wrapped_programs_read,
};

// Whether a program is printed as another, with these paths to its marks.
fn is_printed_as(alloc: Global, program: &str, wanted: &str, fixes: &str) -> Result<bool, Fail> {
    let wanted = output(alloc, wanted, fixes)?;
    Ok(printed(alloc, program)?.as_str() == wanted.as_str())
}

fn is_statement_printed_as(alloc: Global, body: &str, wanted: &str) -> Result<bool, Fail> {
    let program = module(alloc, body)?;
    is_printed_as(
        alloc,
        program.as_str(),
        module(alloc, wanted)?.as_str(),
        "[]",
    )
}

// As acorn writes `let x = 1; x`, with keys in another order, fields that hold nothing and fields
// left out.
#[test]
fn statements(rt: HostRuntime) -> Result<(), Fail> {
    for (body, wanted) in [
        (
            "{'type':'VariableDeclaration','start':0,'end':10,'declarations':[{'type':'VariableDeclarator','start':4,'end':9,'id':@,'init':{'type':'Literal','start':8,'end':9,'value':1,'raw':'1'}}],'kind':'let'}",
            "{'type':'VariableDeclaration','start':0,'end':10,'kind':'let','declarations':[{'type':'VariableDeclarator','start':4,'end':9,'id':@,'init':{'type':'Literal','start':8,'end':9,'value':1,'raw':'1'}}]}",
        ),
        (
            "{'expression':{'arguments':[{'name':'\u{e9}','type':'Identifier','optional':false}],'callee':{'name':'$1','type':'Identifier','loc':null,'decorators':[]},'type':'CallExpression'},'directive':null,'type':'ExpressionStatement'}",
            "{'type':'ExpressionStatement','expression':{'type':'CallExpression','callee':{'type':'Identifier','name':'$1'},'arguments':[{'type':'Identifier','name':'\u{e9}'}],'optional':false}}",
        ),
        (
            "{'type':'ExpressionStatement','expression':@,'directive':'a'}",
            "{'type':'ExpressionStatement','expression':@,'directive':'a'}",
        ),
    ] {
        assert!(rt;
            is_statement_printed_as(rt.alloc(), body, wanted)?,
            "{body}"
        );
    }
    Ok(())
}

// A module of a literal.
fn literal(alloc: Global, fields: &str) -> Result<String, AllocError> {
    let literal = format!(in alloc; "{{'type':'Literal',{fields}}}")?;
    expression(alloc, literal.as_str())
}

fn is_literal_printed_as(
    alloc: Global,
    fields: &str,
    wanted: &str,
    fixes: &str,
) -> Result<bool, Fail> {
    let program = literal(alloc, fields)?;
    is_printed_as(
        alloc,
        program.as_str(),
        literal(alloc, wanted)?.as_str(),
        fixes,
    )
}

#[test]
fn literals(rt: HostRuntime) -> Result<(), Fail> {
    let path = "[[\"body\",0,\"expression\"]]";
    for (fields, wanted, fixes) in [
        ("'value':0,'raw':'x'", "'value':0,'raw':'x'", "[]"),
        (
            "'value':18446744073709551615",
            "'value':18446744073709551615,'raw':null",
            "[]",
        ),
        (
            "'value':'a\\ud83d\\ude00'",
            "'value':'a\u{1f600}','raw':null",
            "[]",
        ),
        ("'value':[55296]", "'value':'\\ud800','raw':null", "[]"),
        (
            "'value':[56832,55357,97]",
            "'value':'\\ude00\\ud83da','raw':null",
            "[]",
        ),
        (
            "'value':[55357,56832]",
            "'value':'\u{1f600}','raw':null",
            "[]",
        ),
        (
            "'value':false,'regex':null,'bigint':null",
            "'value':false,'raw':null",
            "[]",
        ),
        ("'raw':'null'", "'value':null,'raw':'null'", "[]"),
        ("'value':null,'raw':'1.5'", "'value':null,'raw':'1.5'", "[]"),
        (
            "'raw':'/a/g','value':{},'regex':{'flags':'g','pattern':'a'}",
            "'value':null,'raw':'/a/g','regex':{'pattern':'a','flags':'g'}",
            path,
        ),
        (
            "'bigint':'1','raw':'1n'",
            "'value':null,'raw':'1n','bigint':'1'",
            path,
        ),
    ] {
        assert!(rt;
            is_literal_printed_as(rt.alloc(), fields, wanted, fixes)?,
            "{fields}"
        );
    }
    Ok(())
}

// A module of a template with one element.
fn template(alloc: Global, value: &str) -> Result<String, AllocError> {
    let template = format!(in alloc;
        "{{'type':'TemplateLiteral','quasis':[{{'type':'TemplateElement','value':{{{value}}},'tail':true}}],'expressions':[]}}"
    )?;
    expression(alloc, template.as_str())
}

fn is_template_printed_as(alloc: Global, value: &str, wanted: &str) -> Result<bool, Fail> {
    let program = template(alloc, value)?;
    is_printed_as(
        alloc,
        program.as_str(),
        template(alloc, wanted)?.as_str(),
        "[]",
    )
}

#[test]
fn template_elements(rt: HostRuntime) -> Result<(), Fail> {
    for (value, wanted) in [
        ("'cooked':'a','raw':'a'", "'raw':'a','cooked':'a'"),
        ("'raw':'\\\\u'", "'raw':'\\\\u','cooked':null"),
        (
            "'raw':[92,55296],'cooked':[55296]",
            "'raw':'\\\\\\ud800','cooked':'\\ud800'",
        ),
    ] {
        assert!(rt;
            is_template_printed_as(rt.alloc(), value, wanted)?,
            "{value}"
        );
    }
    Ok(())
}

// `[, 1n, a, 1n]`
#[test]
fn marks_lead_to_the_literals(rt: HostRuntime) -> Result<(), Fail> {
    let alloc = rt.alloc();
    let elements =
        "{'type':'ArrayExpression','elements':[null,{'type':'Literal','value':null,'raw':'1n','bigint':'1'},@,{'type':'Literal','value':null,'raw':'1n','bigint':'1'}]}";
    let program = expression(alloc, elements)?;
    let program = program.as_str();
    let fixes = json(
        alloc,
        "[['body',0,'expression','elements',1],['body',0,'expression','elements',3]]",
    )?;
    assert!(rt; is_printed_as(alloc, program, program, fixes.as_str())?);
    Ok(())
}

#[test]
fn laws_are_called(_rt: HostRuntime) {
    reading_undoes_printing();
    printed_text_reads();
    trees_have_text();
    wrapped_programs_read();
    programs_are_small();
}
