//! The whole job on bytes: ESTree in JSON in, its answer out. What the options are made of is named here too.

mod answer;
mod error;
mod input;
mod layout;

pub use answer::{mangle_estree, mangle_value};
pub use error::MangleError;
pub use input::program_of;
pub use layout::text_in;
pub use mangle_options::{MangleOptions, MangleOptionsKeepNames};
pub use oxc_str::CompactStr;
pub use tool_words::Layout;
