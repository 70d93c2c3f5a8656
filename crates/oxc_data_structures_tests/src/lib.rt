//! Tests of `oxc_data_structures`: each public call with ample memory, by values from outside.
//!
//! They stand in a crate of their own, since a crate with tests is proved a second time with them. A test asserts once
//! or twice of what a helper returns: the proof of an assertion carries all that is known before it.
#![tactic(auto)]

#[cfg(test)]
mod buffers;
#[cfg(test)]
mod cursors;
#[cfg(test)]
mod ropes;
#[cfg(test)]
mod short_texts;
#[cfg(test)]
mod sparse_stacks;
#[cfg(test)]
mod stacks;
