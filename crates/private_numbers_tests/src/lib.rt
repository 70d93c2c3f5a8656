//! The calls of `private_numbers` with ample memory, on trees that are built by hand.
#![tactic(auto)]

#[cfg(test)]
mod tests;
