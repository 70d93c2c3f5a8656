//! Tests of `scope_report` over its public calls. They stand here, since a crate with tests is proved twice.
#![tactic(auto)]

#[cfg(test)]
mod programs;
#[cfg(test)]
mod reported;
