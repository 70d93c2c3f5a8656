//! Tests of `oxc_str`, by its public calls.
#![tactic(auto)]

#[cfg(test)]
mod characters;
#[cfg(test)]
mod ident_tables;
#[cfg(test)]
mod idents;
#[cfg(test)]
mod patterns;
#[cfg(test)]
mod strings;
#[cfg(test)]
mod texts;
