//! Tests of the syntax crates over their public calls: what no contract says, by values from outside.
#![tactic(auto)]

#[cfg(test)]
mod bases;
#[cfg(test)]
mod characters;
#[cfg(test)]
mod editions;
#[cfg(test)]
mod flags;
#[cfg(test)]
mod ids;
#[cfg(test)]
mod lines;
#[cfg(test)]
mod module_records;
#[cfg(test)]
mod modules;
#[cfg(test)]
mod names;
#[cfg(test)]
mod operators;
#[cfg(test)]
mod precedences;
#[cfg(test)]
mod references;
#[cfg(test)]
mod values;
#[cfg(test)]
mod visits;
#[cfg(test)]
mod words;
#[cfg(test)]
mod written_operators;
