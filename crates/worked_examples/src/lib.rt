//! Worked rows: small programs, and what mangling answers to them. The functions here do nothing:
//! each has as its contract a row, computed on the definitions that the calls of the other crates
//! cite. A row says which tree is the answer to a tree, and of other trees which clauses of
//! `IsMangled` they fail. The trees stand in specs/, and are made by `tools/worked_examples.py`.
#![tactic(auto, unfolding(crate::specs::Open::all_open))]

pub mod blocks;
pub mod classes;
pub mod faults;
pub mod functions;
pub mod judging;
pub mod kept_names;
pub mod modules;
pub mod premises;
pub mod private_names;
pub mod rivals;
pub mod short_names;
