//! The calls of `scope_tables` with ample memory, on trees that are built by hand.
#![tactic(auto)]

#[cfg(test)]
mod tests;
#[cfg(test)]
mod trees;
