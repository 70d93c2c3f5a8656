//! The syntax of JavaScript under the module names of oxc: characters, words and operators, what semantic
//! analysis speaks of, and module records.
#![tactic(auto)]

pub use syntax_lex::{
    es_target, identifier, keyword, line_terminator, number, operator, precedence,
};
pub use syntax_module::module_record;
pub use syntax_sem::{
    GetNodeId, class, constant_value, node, reference, scope, semantic_id, span, symbol,
};
