//! Calls of the laws of `scope_rules`, `program_laws` and `bundle_rules`, those on names of any types at two of them.
#![tactic(auto)]

#[cfg(test)]
mod tests;
