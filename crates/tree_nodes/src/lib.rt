//! The nodes of a JavaScript program's tree, in ESTree: their kinds, the table of their kinds, and which
//! node may stand where.
#![tactic(auto)]

mod kind;
pub mod literals;
mod node;
pub mod roles;
mod rows;
mod standing;
mod table;
mod text;

pub use kind::{KINDS, Kind};
pub use node::{Field, FieldList, Node, NodeList};
pub use rows::{row, row_named};
pub use standing::{is_placed, own_name_at};
pub use table::{
    Class, Column, Declared, Group, Mark, Mode, Opens, Role, Row, Strict, Words, get_column,
    word_list,
};
pub use text::TreeText;
