//! What semantic analysis speaks of: ids, spans, values, and the flags of nodes, scopes, symbols, references and
//! elements of classes.
#![tactic(auto)]

pub mod class;
pub mod constant_value;
pub mod node;
pub mod reference;
pub mod scope;
pub mod semantic_id;
pub mod span;
pub mod symbol;

pub use node::GetNodeId;
