//! Tests of the tree's crates over their public calls: of `tree_core` what is read, refused and
//! printed, of `tree_nodes` how nodes are built and looked into, of `tree_patterns` what is bound.
#![tactic(auto)]

#[cfg(test)]
mod kinds;
#[cfg(test)]
mod nodes;
#[cfg(test)]
mod patterns;
#[cfg(test)]
mod printing;
#[cfg(test)]
mod reading;
#[cfg(test)]
mod refusals;
#[cfg(test)]
mod texts;
