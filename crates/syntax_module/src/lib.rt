//! What a module imports and exports (ECMA-262, 16.2).
#![tactic(auto)]

pub mod module_record;
