//! Tests of `tree_semantic` over its public calls. They stand here, since a crate with tests is proved twice.
#![tactic(auto)]

#[cfg(test)]
mod analysed;
#[cfg(test)]
mod classes;
#[cfg(test)]
mod nodes;
#[cfg(test)]
mod programs;
#[cfg(test)]
mod symbols;
