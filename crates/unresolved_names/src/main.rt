//! An example of the library in use: reads an ESTree in JSON from standard input and prints the names that it refers
//! to and doesn't declare, sorted, a line each: what whoever runs the program has to provide.
#![tactic(auto)]

mod names;

use crate::names::unresolved_names;
use serde_json::Value;
use std::io;
use tree_core::read_tree;
use tree_semantic::SemanticBuilder;

fn main(rt: HostRuntime) -> anyhow::Result<()> {
    let text = io::read_to_string(rt.alloc(), rt.stdin())?;
    let value = Value::from_str(rt.alloc(), &text)?;
    let program = read_tree(rt.alloc(), &value, 0)?;
    let semantic = SemanticBuilder::new().build(rt.alloc(), &program)?;
    let names = unresolved_names(rt.alloc(), semantic.scoping())?;
    for name in names.keys() {
        println!(rt; "{name}")?;
    }
    Ok(())
}
