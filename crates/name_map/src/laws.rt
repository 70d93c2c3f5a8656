//! What a map is as a JSON value and as a text. The functions here do nothing: each has a law as its contract.

ghost use Rattle.name_map.specs.Written.{MapTextsRead, MapsReadBack};

/// The law that the value of a map, an object of exactly its names and its marks, is read as the map.
pub fn maps_read_back()
    ensures { MapsReadBack }
{}

/// The law that a map's text reads, in each layout and by the grammar of JSON, as the map's value, and as no
/// value that isn't read as the map.
pub fn map_texts_read()
    ensures { MapTextsRead }
{}
