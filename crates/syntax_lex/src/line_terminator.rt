//! Line terminators (ECMA-262, 12.3).

ghost use Rattle.std.specs.Iterator.{YieldsFirstBy, item_count};
ghost use Rattle.std.specs.List.{list_all};
ghost use Rattle.std.specs.Option.{MatchOption};
ghost use Rattle.std.specs.Prelude.{◌∷◌, ◌≡◌, ◌≢◌, ℕ, List, IsTrue, drop, false, flat_map, length, true};
ghost use Rattle.std.specs.Str.{chars};
ghost use Rattle.syntax_lex.specs.LineTerminator as spec;

use std::iter::FusedIterator;

/// U+000A LINE FEED.
pub const LF: char = '\u{a}';

/// U+000D CARRIAGE RETURN.
pub const CR: char = '\u{d}';

/// U+2028 LINE SEPARATOR.
pub const LS: char = '\u{2028}';

/// U+2029 PARAGRAPH SEPARATOR.
pub const PS: char = '\u{2029}';

/// The first byte of LINE SEPARATOR and of PARAGRAPH SEPARATOR in UTF-8.
pub const LS_OR_PS_FIRST_BYTE: u8 = 0xe2;

/// The last two bytes of LINE SEPARATOR.
pub const LS_LAST_2_BYTES: [u8; 2] = [0x80, 0xa8];

/// The last two bytes of PARAGRAPH SEPARATOR.
pub const PS_LAST_2_BYTES: [u8; 2] = [0x80, 0xa9];

/// Whether a character is LINE FEED or CARRIAGE RETURN.
pub fn is_regular_line_terminator(c: char) -> bool
    ensures { result ≡ spec.is_regular_line_terminator c }
{
    matches!(c, LF | CR)
}

/// Whether a character is LINE SEPARATOR or PARAGRAPH SEPARATOR.
pub fn is_irregular_line_terminator(c: char) -> bool
    ensures { result ≡ spec.is_irregular_line_terminator c }
{
    matches!(c, LS | PS)
}

/// Whether a character is a line terminator.
pub fn is_line_terminator(c: char) -> bool
    ensures { result ≡ spec.is_line_terminator c }
{
    is_regular_line_terminator(c) || is_irregular_line_terminator(c)
}

/// The lines of a text, each without its line terminator; CARRIAGE RETURN and the LINE FEED behind it are one
/// terminator. Behind a last terminator there is no empty line, and an empty text has none.
#[derive(Drop)]
pub struct LineTerminatorSplitter<'a> {
    text: &'a str,
}

impl<'a> LineTerminatorSplitter<'a> {
    /// The lines of this text.
    pub fn new(text: &'a str) -> Self
        ensures { spec.text_left result ≡ text.now }
    {
        LineTerminatorSplitter { text }
    }
}

impl<'a> Iterator for LineTerminatorSplitter<'a> {
    type Item = &'a str;

    ghost next_gives = { YieldsFirstBy (λ line. chars line.now) spec.lines_left };

    ghost remaining = { item_count spec.lines_left };

    fn next(&mut self) -> Option<&'a str> {
        if self.text.is_empty() {
            return None;
        }
        let (line, rest) = split_line(self.text);
        self.text = rest;
        Some(line)
    }
}

impl<'a> FusedIterator for LineTerminatorSplitter<'a> {}

// The first line of a text, and the text behind it and its terminator.
fn split_line(text: &str) -> (&str, &str)
    requires { length text.now ≢ 0 }
    ensures { spec.lines_of (chars text.now)
        ≡ chars result.0.now ∷ spec.lines_of (chars result.1.now) }
{
    let mut end = 0;
    let mut chars = text.chars();
    while let Some(c) = chars.next() {
        if is_line_terminator(c) {
            return (&text[..end], past_terminator(c, chars.as_str()));
        }
        end += c.len_utf8();
    }
    (text, "")
}

// The text behind a line terminator, of which `c` is the first character and `rest` what follows it.
fn past_terminator(c: char, rest: &str) -> &str
    requires { spec.is_line_terminator c ≡ true }
    ensures { spec.parts_of (chars result.now) ≡ drop 1 (spec.parts_of (c ∷ chars rest.now)) }
{
    if c == CR {
        past_line_feed(rest).unwrap_or(rest)
    } else {
        rest
    }
}

// The text behind a LINE FEED, if it begins with one.
fn past_line_feed(text: &str) -> Option<&str>
    ensures { MatchOption result (spec.begins_with_line_feed (chars text.now) ≡ false)
        (λ rest. chars text.now ≡ 10 ∷ chars rest.now) }
{
    let mut chars = text.chars();
    match chars.next() {
        Some(c) if c == LF => Some(chars.as_str()),
        _ => None,
    }
}

/// The law that the parts of a text with their terminators join to the text, that no line terminator stands in
/// a line, and that each part but a last one is ended by a whole line terminator.
pub fn lines_join_to_the_text()
    ensures join { (cs : List ℕ) → flat_map spec.whole (spec.parts_of cs) ≡ cs }
    ensures free { (cs : List ℕ) → IsTrue (list_all spec.is_line (spec.lines_of cs)) }
    ensures ended { (cs : List ℕ) → IsTrue (spec.are_ended (spec.parts_of cs)) }
{}
