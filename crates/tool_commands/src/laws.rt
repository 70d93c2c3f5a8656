//! What `map` and `restore` are to each other. The functions here do nothing: each has a law as its contract.

ghost use Rattle.tool_commands.specs.Undone.{MapTextsAreJson, MapsAreUndone, PipedMapsAreUndone};

/// The law that `restore` undoes `map`: it can answer what `map` wrote, and its answer is the one that holds the tree
/// which `map` read. No surrogate stands alone in the text, which nests at most 127 deep and is no longer than an
/// input may be.
pub fn maps_are_undone()
    ensures { MapsAreUndone }
{}

/// The same law of the two commands, one after the other: where `map` is done and `restore` has what it wrote as its
/// input, `restore` can answer that, and once it is done it has written the answer that holds the tree which `map` read.
pub fn piped_maps_are_undone()
    ensures { PipedMapsAreUndone }
{}

/// The law that what `map` writes is one JSON value (RFC 8259): the object of exactly the mangled tree and the map.
pub fn map_texts_are_json()
    ensures { MapTextsAreJson }
{}
