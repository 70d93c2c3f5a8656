//! The calls of `class_tables` with ample memory, on a tree that is built by hand.
#![tactic(auto)]

#[cfg(test)]
mod tests;
