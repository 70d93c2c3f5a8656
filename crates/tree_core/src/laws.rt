//! What reading and printing are to each other. The functions here do nothing: each has a law as its
//! contract.

ghost use Rattle.tree_core.specs.Laws.{
  PrintedTextReads,
  ProgramsAreSmall,
  ReadingUndoesPrinting,
  TreesHaveText,
  WrappedProgramsRead,
};

/// The law that reading undoes printing: a tree that is read from some value is read from the value
/// that is printed of it, and is the same tree.
pub fn reading_undoes_printing()
    ensures { ReadingUndoesPrinting }
{}

/// The law that what is printed of a tree reads as its value: in each layout the text of the value
/// reads, by the grammar of JSON (RFC 8259), as that value and as no other.
pub fn printed_text_reads()
    ensures { PrintedTextReads }
{}

/// The law that the value of a tree that some value is has a text.
pub fn trees_have_text()
    ensures { TreesHaveText }
{}

/// The law that a program's value beside its fix paths reads, in each layout of the value and by the
/// grammar of JSON, as the object of exactly `node` and `fixes`, and as no other value.
pub fn wrapped_programs_read()
    ensures { WrappedProgramsRead }
{}

/// The law that a program has fewer than 2^30 nodes.
pub fn programs_are_small()
    ensures { ProgramsAreSmall }
{}
