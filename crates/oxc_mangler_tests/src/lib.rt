//! Tests of `oxc_mangler` over its public calls. They stand here, since a crate with tests is proved twice.
#![tactic(auto)]

#[cfg(test)]
mod calls;
#[cfg(test)]
mod mangled;
#[cfg(test)]
mod names;
#[cfg(test)]
mod private;
#[cfg(test)]
mod programs;
