//! Lemmas on lists, tests and sets of names that two crates or more need: they stand in `proofs/`, and
//! the code here is none.
#![tactic(auto)]
