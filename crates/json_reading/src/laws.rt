//! The laws on reading what is printed. The functions here do nothing: each has a law as its contract.

ghost use Rattle.json_reading.specs.Laws.{PrintedTreesAreRead, PrintedValuesAreRead};

/// The law that `serde_json` reads the text of a value, in each layout, as that value, each object's members by
/// rising key. No surrogate stands alone in the value, its numbers have 64 bits, and it nests at most 127 deep.
pub fn printed_values_are_read()
    ensures { PrintedValuesAreRead }
{}

/// The law that `serde_json` reads the text of a tree's value, in each layout, as a value of the tree. No surrogate
/// stands alone in it, and it nests at most 127 deep.
pub fn printed_trees_are_read()
    ensures { PrintedTreesAreRead }
{}
