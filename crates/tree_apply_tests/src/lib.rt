//! Tests of `tree_apply` over its public call. They stand here, since a crate with tests is proved twice.
#![tactic(auto)]

#[cfg(test)]
mod programs;
#[cfg(test)]
mod renamed;
