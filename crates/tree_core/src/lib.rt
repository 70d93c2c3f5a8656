//! The tree of a JavaScript program, in ESTree: the reader and the printer, which go by the node table of
//! `tree_nodes`. The nodes, the table and the names that patterns bind are named here too.
#![tactic(auto)]

mod laws;
mod limits;
mod print;
mod program;
mod read;

pub use laws::{
    printed_text_reads, programs_are_small, reading_undoes_printing, trees_have_text,
    wrapped_programs_read,
};
pub use limits::is_too_large;
pub use program::{Program, SourceType};
pub use read::{ReadError, read_tree};
pub use tree_nodes::{
    Class, Column, Declared, Field, FieldList, Group, KINDS, Kind, Mark, Mode, Node, NodeList,
    Opens, Role, Row, Strict, TreeText, Words, row, row_named, word_list,
};
pub use tree_patterns::{NodeRefs, bound_names};
