//! A text with its lines, and places in it by byte offset or by line and column.

ghost use Rattle.std.specs.Prelude.{◌≡◌, ◌+◌, ◌^◌, ◌<◌, length, nat_le, IfOk};
ghost use Rattle.std.specs.Str.{IsCharBoundary, IsUtf8, chars};
ghost use Rattle.oxc_data_structures.specs.Rope.{IsFittingLen, IsOffsetOf, OffsetIsFoundAgain, column_of, ends_line, is_line_break, line_end, line_of, line_start, line_starts, line_text, units_of};

use std::alloc::{AllocError, Global};
use std::marker::Model;

/// A text with its lines.
///
/// A line ends behind LF, VT, FF, CR, U+0085, U+2028 or U+2029, where CR and LF together are one
/// break. The last line has no break.
#[derive(Drop)]
pub struct Rope {
    /// The whole text, with its breaks.
    text: String,
    /// The offset at which each line starts.
    starts: Vec<u32>,
}

impl Model for Rope {
    ghost use Rattle.std.specs.Prelude.{◌≡◌, ℕ, ◌^◌, ◌<◌, List, length, string_bytes};
    ghost use Rattle.oxc_data_structures.specs.Rope.{line_starts};

    ghost Value = { List ℕ };

    ghost view = { λ r. string_bytes r.text };

    ghost invariant = { λ r. (r.starts.items ≡ line_starts (string_bytes r.text))
        × (length (string_bytes r.text) < 2 ^ 32) };
}

impl Rope {
    /// The rope of a text of at most `u32::MAX` bytes.
    pub fn from_str(alloc: Global, text: &str) -> Result<Rope, AllocError>
        requires { length text.now < 2 ^ 32 }
        ensures { IfOk result (λ r. r ≡ text.now) }
    {
        let starts = find_line_starts(alloc, text)?;
        let text = String::from_str(alloc, text)?;
        Ok(Rope { text, starts })
    }

    /// How many lines it has: one more than it has line breaks.
    pub fn len_lines(&self) -> usize
        ensures { result ≡ length (line_starts self.now) }
    {
        self.starts.len()
    }

    // The line of an offset.
    fn line_at(&self, offset: u32) -> usize
        ensures line { result ≡ line_of self.now offset }
        ensures in_range { result < length (line_starts self.now) }
    {
        let started = self.starts.as_slice().partition_point(
            |start: &u32| -> bool
                ensures { result ≡ nat_le start.now offset }
            { *start <= offset },
        );
        started - 1
    }

    // The offset at which a line starts.
    fn start_of(&self, line: usize) -> u32
        requires { line < length (line_starts self.now) }
        ensures { result ≡ line_start self.now line }
    {
        self.starts[line]
    }

    // The offset at which a line ends, its break included.
    fn end_of(&self, line: usize) -> usize
        requires { line < length (line_starts self.now) }
        ensures { result ≡ line_end self.now line }
    {
        match self.starts.get(line + 1) {
            Some(next) => *next as usize,
            None => self.text.len(),
        }
    }

    // The text of a line, its break included.
    fn text_of(&self, line: usize) -> &str
        requires { line < length (line_starts self.now) }
        ensures text { result.now ≡ line_text self.now line }
        ensures in_range { line_start self.now line + length result.now < 2 ^ 32 }
        ensures utf8 { IsUtf8 self.now }
    {
        let start = self.start_of(line) as usize;
        let end = self.end_of(line);
        &self.text[start..end]
    }
}

/// The line and column of an offset: the line counts from 0, and the column is the number of
/// UTF-16 code units from the line's start.
///
/// An offset between CR and LF is in the line that they end.
pub fn get_line_column(rope: &Rope, offset: u32, source_text: &str) -> (u32, u32)
    requires own_text { source_text.now ≡ rope.now }
    requires boundary { IsCharBoundary rope.now offset }
    ensures line { result.0 ≡ line_of rope.now offset }
    ensures column { result.1 ≡ column_of rope.now offset }
{
    let line = rope.line_at(offset);
    let start = rope.start_of(line) as usize;
    let column = count_units(&source_text[start..offset as usize]);
    (line as u32, column)
}

/// The offset of a line and a column: the greatest one of that line, its break included, that is a
/// character boundary and at most `column` UTF-16 code units from the line's start.
///
/// So a column within a character is that character's start, and one past the line is its end.
pub fn get_offset_from_line_and_column(rope: &Rope, line: u32, column: u32) -> u32
    requires { line < length (line_starts rope.now) }
    ensures { IsOffsetOf rope.now line column result }
{
    let line = line as usize;
    rope.start_of(line) + fitting_len(rope.text_of(line), column)
}

/// The law that the way back undoes the way there: an offset at a character boundary is the one of
/// its own line and column, and the only one.
pub fn offset_is_found_again()
    ensures { OffsetIsFoundAgain }
{}

// How many UTF-16 code units a text takes.
fn count_units(text: &str) -> u32
    requires { length text.now < 2 ^ 32 }
    ensures { result ≡ units_of text.now }
{
    let mut units = 0u32;
    let mut chars = text.chars();
    while let Some(ch) = chars.next() {
        units += ch.len_utf16() as u32;
    }
    units
}

// The length in bytes of the longest beginning of a text that takes at most so many UTF-16 code
// units.
fn fitting_len(text: &str, units: u32) -> u32
    requires { length text.now < 2 ^ 32 }
    ensures { IsFittingLen text.now units result }
{
    let mut len = 0u32;
    let mut left = units;
    let mut chars = text.chars();
    while let Some(ch) = chars.next() {
        let needed = ch.len_utf16() as u32;
        if needed > left {
            break;
        }
        left -= needed;
        len += ch.len_utf8() as u32;
    }
    len
}

// The offsets at which the lines of a text start.
fn find_line_starts(alloc: Global, text: &str) -> Result<Vec<u32>, AllocError>
    requires { length text.now < 2 ^ 32 }
    ensures { IfOk result (λ starts. starts.items ≡ line_starts text.now) }
{
    let mut starts = vec![in alloc; 0u32]?;
    let mut offset = 0u32;
    let mut chars = text.chars();
    while let Some(ch) = chars.next() {
        offset += ch.len_utf8() as u32;
        if is_end_of_line(ch, chars.as_str()) {
            starts.push(offset)?;
        }
    }
    Ok(starts)
}

// Whether a line ends behind a character that `rest` follows.
fn is_end_of_line(ch: char, rest: &str) -> bool
    ensures { result ≡ ends_line ch (chars rest.now) }
{
    is_break(ch) && !(ch == '\r' && rest.chars().next() == Some('\n'))
}

// Whether a character is a line break, or the first part of one.
fn is_break(ch: char) -> bool
    ensures { result ≡ is_line_break ch }
{
    matches!(ch, '\n'..='\r' | '\u{85}' | '\u{2028}' | '\u{2029}')
}
