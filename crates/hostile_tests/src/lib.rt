//! Tests of inputs that are broken, or stretched to a limit, over the calls of `mangle_tool`.
#![tactic(auto)]

#[cfg(test)]
mod fields;
#[cfg(test)]
mod groups;
#[cfg(test)]
mod inputs;
#[cfg(test)]
mod made;
#[cfg(test)]
mod numbers;
#[cfg(test)]
mod trees;
