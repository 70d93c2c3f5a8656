//! Where a piece of source text lies.

ghost use Rattle.std.specs.Prelude.{◌≡◌};
ghost use Rattle.oxc_str.specs.Equality.{DecidesEquality};

use oxc_estree::ESTreeSpan;

/// A piece of source text, by the offsets of its first byte and of the byte after its last.
#[derive(Clone, Copy, Debug, PartialEq, Eq)]
pub struct Span {
    /// The offset of the first byte.
    pub start: u32,
    /// The offset of the byte after the last.
    pub end: u32,
}

impl Span {
    /// The span from `start` up to `end`.
    pub fn new(start: u32, end: u32) -> Self
        ensures { result ≡ record { start = start; end = end } }
    {
        Span { start, end }
    }
}

impl ESTreeSpan for Span {
    ghost start = { λ span. span.start };

    ghost end = { λ span. span.end };

    fn range(self) -> [u32; 2] {
        [self.start, self.end]
    }
}

/// The law that `==` holds exactly between spans that are the same.
pub fn spans_are_equal_exactly()
    ensures { DecidesEquality ⟦<Span as PartialEq>⟧.eq }
{}
