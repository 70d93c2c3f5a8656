//! What a linter asks of any tree: unused bindings, unresolved names, shadowing and each fault of scopes, by line
//! and column. Trees with faults are taken too.
#![tactic(auto)]

mod error;
mod exported;
mod find;
mod finding;
mod findings;
mod found;
mod laws;
mod lines;
mod marks;
mod outer;
mod positions;
mod reporting;
mod roles;
mod shadow;
mod used;
mod verdict;

pub use error::ReportError;
pub use finding::{Finding, Rule};
pub use findings::Findings;
pub use laws::faults_are_found;
pub use reporting::report;
