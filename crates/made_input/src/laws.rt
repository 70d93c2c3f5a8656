//! What a made text is read as. The function here does nothing: it has a law as its contract.

ghost use Rattle.made_input.specs.Laws.{MadeTextsAreRead};

/// The law that a made text of at most 2,000 functions is a valid input: it is UTF-8, `serde_json` reads a
/// value from it that is within the limits, and this value is the made tree, which has no fault.
pub fn made_texts_are_read()
    ensures { MadeTextsAreRead }
{}
