//! Tests of `free_names`: each public call with ample memory, by values from outside.
#![tactic(auto)]

#[cfg(test)]
mod tests;
