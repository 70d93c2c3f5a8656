//! JSON values, their exact text and their grammar (RFC 8259), as definitions that contracts cite.
//!
//! The definitions stand in `specs/`: a value, a layout, the text of a value in a layout, and which
//! texts read as which value. The functions here do nothing: each has a law as its contract.
#![tactic(auto)]

ghost use Rattle.json_text.specs.Grammar.{ReadsOnce};
ghost use Rattle.json_text.specs.HasText.{TextReadsAlone};
ghost use Rattle.json_text.specs.Units.{TextGivesUnitsBack, UnitsGiveTextBack};

/// The law that a text reads as at most one value.
pub fn reads_one_value()
    ensures { ReadsOnce }
{}

/// The law that the text of a value, in each layout, reads as that value and as no other.
pub fn text_reads_alone()
    ensures { TextReadsAlone }
{}

/// The law that a text and its UTF-16 code units give each other back. So no two texts have the same
/// code units, and code units in which no surrogate stands alone are those of one text.
pub fn units_give_text_back()
    ensures text { UnitsGiveTextBack }
    ensures units { TextGivesUnitsBack }
{}
