//! The calls of `place_list` with ample memory, on trees that are built by hand.
//!
//! A test asserts of what a small helper returns: the proof of an assertion carries all that is known before it.
#![tactic(auto)]

#[cfg(test)]
mod tests;
#[cfg(test)]
mod trees;
