//! Expressions as tokens: which tokens are which expression, and which ones it is printed as.
#![tactic(auto)]

mod laws;

pub use laws::{
    operators_are_the_words, printed_tokens_are_fewest, printed_tokens_derive, shapes_are_sound,
    tokens_derive_one_shape,
};
