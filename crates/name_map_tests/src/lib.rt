//! Tests of `name_map` over its public calls. They stand here, since a crate with tests is proved twice.
#![tactic(auto)]

#[cfg(test)]
mod made;
#[cfg(test)]
mod maps;
#[cfg(test)]
mod programs;
#[cfg(test)]
mod restored;
