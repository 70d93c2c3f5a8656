//! Expressions that are none.

use crate::texts::{expression, printed};
use std::alloc::Global;
use std::test::Fail;

fn is_refused(alloc: Global, text: &str) -> Result<bool, Fail> {
    let text = expression(alloc, text)?;
    Ok(printed(alloc, text.as_str())?.as_str() == "bad tree")
}

#[test]
fn nodes(rt: HostRuntime) -> Result<(), Fail> {
    for text in [
        "null",
        "{'type':'Super'}",
        "{'type':'Identifier'}",
        "{'type':'Identifier','name':null}",
        "{'type':'Identifier','name':''}",
        "{'type':'Identifier','name':'0a'}",
        "{'type':'Identifier','name':'a','loc':{}}",
        "{'type':'CallExpression','callee':@}",
        "{'type':'CallExpression','callee':@,'arguments':[null]}",
        "{'type':'VariableDeclaration','kind':'let','declarations':[]}",
        "{'type':'ObjectExpression','properties':[{'type':'Property','kind':'init','key':{'type':'Identifier','name':'b'},'value':@,'shorthand':true}]}",
    ] {
        assert!(rt; is_refused(rt.alloc(), text)?, "{text}");
    }
    Ok(())
}

#[test]
fn literals(rt: HostRuntime) -> Result<(), Fail> {
    for fields in [
        "'value':1.5,'raw':'1.5'",
        "'value':-1,'raw':'-1'",
        "'value':18446744073709551616",
        "'value':null,'raw':'x'",
        "'value':{},'raw':'/a/g'",
        "'value':{'a':1},'regex':{'pattern':'a','flags':'g'}",
        "'value':1,'regex':{'pattern':'a','flags':'g'}",
        "'regex':{'pattern':'a'}",
        "'regex':{'pattern':'a','flags':'g','raw':null}",
        "'regex':{'pattern':'a','flags':null}",
        "'value':1,'bigint':'1'",
        "'bigint':1",
        "'value':[65536]",
        "'value':[-1]",
        "'value':['a']",
    ] {
        let literal = format!(in rt.alloc(); "{{'type':'Literal',{fields}}}")?;
        assert!(rt; is_refused(rt.alloc(), literal.as_str())?, "{fields}");
    }
    Ok(())
}

#[test]
fn template_elements(rt: HostRuntime) -> Result<(), Fail> {
    for value in [
        "null",
        "{'cooked':'a'}",
        "{'raw':null}",
        "{'raw':'a','cooked':1}",
        "{'raw':'a','tail':null}",
    ] {
        let template = format!(in rt.alloc();
            "{{'type':'TemplateLiteral','expressions':[],'quasis':[{{'type':'TemplateElement','value':{value}}}]}}"
        )?;
        assert!(rt; is_refused(rt.alloc(), template.as_str())?, "{value}");
    }
    Ok(())
}
