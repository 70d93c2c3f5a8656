//! The calls of `tree_symbols` with ample memory, on a tree that is built by hand.
#![tactic(auto)]

#[cfg(test)]
mod tests;
