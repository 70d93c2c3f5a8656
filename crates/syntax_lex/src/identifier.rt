//! Format controls, white space and identifier names (ECMA-262, 12.1, 12.2 and 12.7).

ghost use Rattle.std.specs.List.{list_all, list_any};
ghost use Rattle.std.specs.Prelude.{◌&&◌, ◌<◌, ◌≡◌, ◌≤◌, length, not, slice_index, take, true};
ghost use Rattle.std.specs.Str.{IsAscii, chars};
ghost use Rattle.syntax_lex.specs.Identifier as spec;
ghost use Rattle.syntax_lex.specs.WhiteSpace as space;

use crate::line_terminator::{CR, LF, LS, PS};
use unicode::properties::{is_id_continue, is_id_start};

/// U+0000 NULL, which stands for the end of a text.
pub const EOF: char = '\0';

/// U+200C ZERO WIDTH NON-JOINER, which may stand within an identifier name.
pub const ZWNJ: char = '\u{200c}';

/// U+200D ZERO WIDTH JOINER, which may stand within an identifier name.
pub const ZWJ: char = '\u{200d}';

/// U+FEFF ZERO WIDTH NO-BREAK SPACE, which is white space.
pub const ZWNBSP: char = '\u{feff}';

/// U+0009 CHARACTER TABULATION.
pub const TAB: char = '\u{9}';

/// U+000B LINE TABULATION.
pub const VT: char = '\u{b}';

/// U+000C FORM FEED.
pub const FF: char = '\u{c}';

/// U+0020 SPACE.
pub const SP: char = '\u{20}';

/// U+00A0 NO-BREAK SPACE.
pub const NBSP: char = '\u{a0}';

// U+0085 NEXT LINE.
const NEL: char = '\u{85}';

// U+1680 OGHAM SPACE MARK.
const OGHAM_SPACE_MARK: char = '\u{1680}';

// U+2000 EN QUAD, the first of a run of spaces.
const EN_QUAD: char = '\u{2000}';

// U+200B ZERO WIDTH SPACE, the last of that run.
const ZWSP: char = '\u{200b}';

// U+202F NARROW NO-BREAK SPACE.
const NNBSP: char = '\u{202f}';

// U+205F MEDIUM MATHEMATICAL SPACE.
const MMSP: char = '\u{205f}';

// U+3000 IDEOGRAPHIC SPACE.
const IDEOGRAPHIC_SPACE: char = '\u{3000}';

// U+30FB KATAKANA MIDDLE DOT.
const KATAKANA_MIDDLE_DOT: char = '\u{30fb}';

// U+FF65 HALFWIDTH KATAKANA MIDDLE DOT.
const HALFWIDTH_KATAKANA_MIDDLE_DOT: char = '\u{ff65}';

// The bit of [`ASCII_ID_FLAGS`] that marks the characters with which an identifier name may begin.
const ID_START: u8 = 1;

// The bit that marks those with which it may go on.
const ID_CONTINUE: u8 = 2;

fn is_unicode_space_separator(c: char) -> bool
    ensures { result ≡ space.is_space_separator c }
{
    c.is_whitespace() && !matches!(c, TAB | LF | VT | FF | CR | NEL | LS | PS)
}

/// Whether a character is white space.
pub fn is_white_space(c: char) -> bool
    ensures { result ≡ space.is_white_space c }
{
    matches!(c, TAB | VT | FF | ZWNBSP) || is_unicode_space_separator(c)
}

/// Whether a character is white space, or taken for it, that is unusual in source text.
pub fn is_irregular_whitespace(c: char) -> bool
    ensures { result ≡ space.is_irregular_whitespace c }
{
    matches!(
        c,
        VT | FF | NBSP | ZWNBSP | NEL | OGHAM_SPACE_MARK | EN_QUAD..=ZWSP
            | NNBSP
            | MMSP
            | IDEOGRAPHIC_SPACE
    )
}

/// Whether a character is white space that ends no line, NEXT LINE among it.
pub fn is_white_space_single_line(c: char) -> bool
    ensures { result ≡ space.is_white_space_single_line c }
{
    matches!(c, SP | TAB) || is_irregular_whitespace(c)
}

/// A value that lies on a cache line of its own in oxc; here only its type says so.
pub struct Align64<T>(pub T);

impl Align64<[u8; 128]> {
    /// The entry of an ASCII character.
    pub fn get(&self, i: usize) -> u8
        requires { i < 128 }
        ensures { result ≡ slice_index self.now.0 i }
    {
        self.0[i]
    }
}

/// For each ASCII character 1 where an identifier name may begin with it, and 2 where it may go on with it.
#[rattlefmt::skip]
pub const ASCII_ID_FLAGS: Align64<[u8; 128]> = Align64([
    0, 0, 0, 0, 0, 0, 0, 0, 0, 0, 0, 0, 0, 0, 0, 0,
    0, 0, 0, 0, 0, 0, 0, 0, 0, 0, 0, 0, 0, 0, 0, 0,
    0, 0, 0, 0, 3, 0, 0, 0, 0, 0, 0, 0, 0, 0, 0, 0,
    2, 2, 2, 2, 2, 2, 2, 2, 2, 2, 0, 0, 0, 0, 0, 0,
    0, 3, 3, 3, 3, 3, 3, 3, 3, 3, 3, 3, 3, 3, 3, 3,
    3, 3, 3, 3, 3, 3, 3, 3, 3, 3, 3, 0, 0, 0, 0, 3,
    0, 3, 3, 3, 3, 3, 3, 3, 3, 3, 3, 3, 3, 3, 3, 3,
    3, 3, 3, 3, 3, 3, 3, 3, 3, 3, 3, 0, 0, 0, 0, 0,
]);

/// The law that each entry of the table is the one that the rule gives.
pub fn ascii_id_flags_by_rule(i: u8)
    requires { i < 128 }
    ensures { slice_index ASCII_ID_FLAGS.0 i ≡ spec.ascii_id_flags i }
{}

/// Whether an identifier name may begin with this character.
pub fn is_identifier_start(c: char) -> bool
    ensures { result ≡ spec.is_identifier_start c }
{
    if c.is_ascii() {
        is_identifier_start_ascii(c)
    } else {
        is_identifier_start_unicode(c)
    }
}

/// Whether an identifier name may begin with this ASCII character.
pub fn is_identifier_start_ascii(c: char) -> bool
    requires { c < 128 }
    ensures { result ≡ spec.is_identifier_start c }
{
    ASCII_ID_FLAGS.get(c as usize) & ID_START != 0
}

/// Whether an identifier name may begin with this character, which is past ASCII.
pub fn is_identifier_start_unicode(c: char) -> bool
    requires { 128 ≤ c }
    ensures { result ≡ spec.is_identifier_start c }
{
    is_id_start(c)
}

/// Whether an identifier name may go on with this character.
pub fn is_identifier_part(c: char) -> bool
    ensures { result ≡ spec.is_identifier_part c }
{
    if c.is_ascii() {
        is_identifier_part_ascii(c)
    } else {
        is_identifier_part_unicode(c)
    }
}

/// Whether an identifier name may go on with this ASCII character.
pub fn is_identifier_part_ascii(c: char) -> bool
    requires { c < 128 }
    ensures { result ≡ spec.is_identifier_part c }
{
    ASCII_ID_FLAGS.get(c as usize) & ID_CONTINUE != 0
}

/// Whether an identifier name may go on with this character, which is past ASCII.
pub fn is_identifier_part_unicode(c: char) -> bool
    requires { 128 ≤ c }
    ensures { result ≡ spec.is_identifier_part c }
{
    is_id_continue(c) || c == ZWNJ || c == ZWJ
}

/// Whether a text is an identifier name: a start, and then parts only. The empty text is none.
pub fn is_identifier_name(name: &str) -> bool
    ensures { result ≡ spec.is_identifier_name name.now }
{
    is_identifier_name_impl(name, false)
}

/// Whether a text is an identifier name in which no middle dot of Katakana stands: these are parts of names in
/// some versions of Unicode alone, so that older engines take no name with one.
pub fn is_identifier_name_patched(name: &str) -> bool
    ensures { result
        ≡ (spec.is_identifier_name name.now
        && not (list_any spec.is_katakana_middle_dot (chars name.now))) }
{
    is_identifier_name_impl(name, true)
}

fn is_identifier_name_impl(name: &str, patched: bool) -> bool
    ensures { result
        ≡ (spec.is_identifier_name name.now
        && list_all (spec.is_taken patched) (chars name.now)) }
{
    let mut chars = name.chars();
    match chars.next() {
        Some(first) => is_taken_start(first, patched) && are_taken_parts(chars.as_str(), patched),
        None => false,
    }
}

// Whether an identifier name may go on with this text: by blocks of bytes in front, then by characters.
fn are_taken_parts(text: &str, patched: bool) -> bool
    ensures { result ≡ list_all (spec.is_taken_part patched) (chars text.now) }
{
    let len = ascii_parts_len(text.as_bytes());
    are_taken_characters(&text[len..], patched)
}

fn are_taken_characters(text: &str, patched: bool) -> bool
    ensures { result ≡ list_all (spec.is_taken_part patched) (chars text.now) }
{
    for c in text.chars() {
        if !is_taken_part(c, patched) {
            return false;
        }
    }
    true
}

// The length of a run of ASCII parts in front, as far as blocks of eight bytes and then one of four show it.
fn ascii_parts_len(bytes: &[u8]) -> usize
    ensures within { result ≤ length bytes.now }
    ensures parts { list_all spec.is_ascii_part (take result bytes.now) ≡ true }
{
    let mut len = 0;
    while begins_with_8_parts(&bytes[len..]) {
        len += 8;
    }
    if begins_with_4_parts(&bytes[len..]) {
        len += 4;
    }
    len
}

// Whether the first eight bytes are ASCII parts. Their bits together show whether they are ASCII.
fn begins_with_8_parts(bytes: &[u8]) -> bool
    ensures { result ≡ true → spec.BeginsWithParts 8 bytes.now }
{
    match bytes {
        [a, b, c, d, e, f, g, h, ..] => {
            (a | b | c | d | e | f | g | h).is_ascii() && are_ascii_parts(&bytes[..8])
        }
        _ => false,
    }
}

// The same of the first four bytes.
fn begins_with_4_parts(bytes: &[u8]) -> bool
    ensures { result ≡ true → spec.BeginsWithParts 4 bytes.now }
{
    match bytes {
        [a, b, c, d, ..] => (a | b | c | d).is_ascii() && are_ascii_parts(&bytes[..4]),
        _ => false,
    }
}

fn are_ascii_parts(bytes: &[u8]) -> bool
    requires { IsAscii bytes.now }
    ensures { result ≡ list_all spec.is_ascii_part bytes.now }
{
    for byte in bytes {
        if !is_identifier_part_ascii(*byte as char) {
            return false;
        }
    }
    true
}

// Whether an identifier name may begin with this character.
fn is_taken_start(c: char, patched: bool) -> bool
    ensures { result ≡ (spec.is_identifier_start c && spec.is_taken patched c) }
{
    is_identifier_start(c) && is_taken(c, patched)
}

// Whether an identifier name may go on with this character.
fn is_taken_part(c: char, patched: bool) -> bool
    ensures { result ≡ spec.is_taken_part patched c }
{
    is_identifier_part(c) && is_taken(c, patched)
}

// Whether names with this character are taken: where patched, with no middle dot of Katakana.
fn is_taken(c: char, patched: bool) -> bool
    ensures { result ≡ spec.is_taken patched c }
{
    !(patched && is_katakana_middle_dot(c))
}

fn is_katakana_middle_dot(c: char) -> bool
    ensures { result ≡ spec.is_katakana_middle_dot c }
{
    c == KATAKANA_MIDDLE_DOT || c == HALFWIDTH_KATAKANA_MIDDLE_DOT
}
