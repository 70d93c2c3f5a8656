//! Tests of `oxc_estree` over its public calls, and types of the tests' own that keep the laws of its
//! traits: somebody else's are proved against the laws like these.
#![tactic(auto)]

#[cfg(test)]
mod path_tests;
#[cfg(test)]
mod plain_strings;
#[cfg(test)]
mod string_tests;
#[cfg(test)]
mod struct_tests;
#[cfg(test)]
mod trait_tests;
#[cfg(test)]
mod value_tests;
