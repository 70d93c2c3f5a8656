//! What a mangling is asked to do: the options of the mangler.
#![tactic(auto)]

mod keep_names;
mod options;
mod reserved;

pub use keep_names::MangleOptionsKeepNames;
pub use options::MangleOptions;
pub use reserved::ReservedNames;

#[cfg(test)]
mod tests;
