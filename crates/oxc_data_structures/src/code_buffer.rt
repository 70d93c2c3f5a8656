//! A buffer for text that is being printed.

ghost use Rattle.std.specs.Prelude.{◌≡◌, ◌+◌, ◌*◌, ◌^◌, ◌<◌, ◌≤◌, ◌↔◌, ◌∷◌, ◌++◌, [], encode_utf8, length, replicate, reverse, slice_get, IfOk, IsOk, IsTrue, OnErr, OnOk, string_bytes};
ghost use Rattle.std.specs.Str.{chars, IsAscii};
ghost use Rattle.std.specs.String.{string_capacity, string_len};
ghost use Rattle.oxc_data_structures.specs.declared.code_buffer.IndentChar.TheVariants.{Tab};
ghost use Rattle.oxc_data_structures.specs.declared.code_buffer.TheConstants.{DEFAULT_INDENT_WIDTH};

use std::alloc::{AllocError, Global};
use std::marker::Model;
use std::str;

/// How many indent characters one level of indent has, where nothing else is asked for.
pub const DEFAULT_INDENT_WIDTH: usize = 1;

/// What an indent is made of.
#[derive(Clone, Copy, Debug, PartialEq, Eq, Default)]
pub enum IndentChar {
    /// A tab, byte 09.
    #[default]
    Tab,
    /// A space, byte 20.
    Space,
}

impl IndentChar {
    ghost use Rattle.oxc_data_structures.specs.CodeBuffer.{indent_byte};

    // The character, which is ASCII.
    fn byte(self) -> u8
        ensures byte { result ≡ indent_byte self }
        ensures ascii { result < 128 }
    {
        match self {
            IndentChar::Tab => b'\t',
            IndentChar::Space => b' ',
        }
    }
}

/// The law that `==` holds exactly between indent characters that are the same, and that a tab is the
/// default.
pub fn indent_chars_are_equal_exactly(a: IndentChar, b: IndentChar)
    ensures equal { IsTrue (⟦<IndentChar as PartialEq>⟧.eq a b) ↔ (a ≡ b) }
    ensures tab_by_default { ⟦<IndentChar as Default>⟧.is_default a → a ≡ Tab }
{}

/// Text that grows at its end: bytes that are UTF-8, with an indent character and an indent width.
///
/// A print that is refused for want of memory leaves the buffer as it was. A print of one text for which
/// there is room is never refused.
#[derive(Drop)]
pub struct CodeBuffer {
    /// What was printed so far.
    text: String,
    /// What an indent is made of.
    indent_char: IndentChar,
    /// How many of them one level of indent has.
    indent_width: usize,
}

impl Model for CodeBuffer {
    ghost use Rattle.std.specs.Prelude.{string_bytes};
    ghost use Rattle.std.specs.String.{string_capacity};
    ghost use Rattle.oxc_data_structures.specs.CodeBuffer.{Buffer};

    ghost Value = { Buffer };

    ghost view = { λ b. record {
      bytes = string_bytes b.text;
      indent_char = b.indent_char;
      indent_width = b.indent_width;
      capacity = string_capacity b.text;
    } };
}

impl CodeBuffer {
    ghost use Rattle.oxc_data_structures.specs.CodeBuffer.{Appends, IsEmptyWith, IsUnchanged, indent_byte};

    /// An empty buffer that indents with one tab a level.
    pub fn new(alloc: Global) -> Self
        ensures bytes { result.bytes ≡ [] }
        ensures indent_char { result.indent_char ≡ Tab }
        ensures indent_width { result.indent_width ≡ DEFAULT_INDENT_WIDTH }
    {
        Self::with_indent(alloc, IndentChar::Tab, DEFAULT_INDENT_WIDTH)
    }

    /// An empty buffer that indents with `indent_width` characters `indent_char` a level.
    pub fn with_indent(alloc: Global, indent_char: IndentChar, indent_width: usize) -> Self
        ensures { IsEmptyWith result indent_char indent_width }
    {
        CodeBuffer {
            text: String::new(alloc),
            indent_char,
            indent_width,
        }
    }

    /// An empty buffer that indents with one tab a level, with room for `capacity` bytes.
    pub fn with_capacity(alloc: Global, capacity: usize) -> Result<Self, AllocError>
        ensures empty { IfOk result (λ b. IsEmptyWith b Tab DEFAULT_INDENT_WIDTH) }
        ensures room { IfOk result (λ b. capacity ≤ b.capacity) }
    {
        Self::with_capacity_and_indent(alloc, capacity, IndentChar::Tab, DEFAULT_INDENT_WIDTH)
    }

    /// An empty buffer with room for `capacity` bytes, that indents with `indent_width` characters
    /// `indent_char` a level.
    pub fn with_capacity_and_indent(
        alloc: Global,
        capacity: usize,
        indent_char: IndentChar,
        indent_width: usize,
    ) -> Result<Self, AllocError>
        ensures empty { IfOk result (λ b. IsEmptyWith b indent_char indent_width) }
        ensures room { IfOk result (λ b. capacity ≤ b.capacity) }
    {
        Ok(CodeBuffer {
            text: String::with_capacity(alloc, capacity)?,
            indent_char,
            indent_width,
        })
    }

    /// How many bytes it holds.
    pub fn len(&self) -> usize
        ensures { result ≡ length self.now.bytes }
    {
        self.text.len()
    }

    /// How many bytes it has room for.
    pub fn capacity(&self) -> usize
        ensures { result ≡ self.now.capacity }
    {
        self.text.capacity()
    }

    /// Whether it holds no byte.
    pub fn is_empty(&self) -> bool
        ensures { IsTrue result ↔ (self.now.bytes ≡ []) }
    {
        self.text.is_empty()
    }

    /// Makes room for `additional` bytes behind those that it holds.
    pub fn reserve(&mut self, additional: usize) -> Result<(), AllocError>
        ensures unchanged { IsUnchanged self.old self.new }
        ensures room { OnOk result (length self.new.bytes + additional ≤ self.new.capacity) }
    {
        self.text.reserve(additional)
    }

    /// The `n`-th character from the end, where 0 is the last one.
    ///
    /// `None` where it holds no more than `n` characters.
    pub fn peek_nth_char_back(&self, n: usize) -> Option<char>
        ensures { result ≡ slice_get (reverse (chars self.now.bytes)) n }
    {
        self.text.as_str().chars().nth_back(n)
    }

    /// The `n`-th byte from the end, where 0 is the last one.
    ///
    /// `None` where it holds no more than `n` bytes.
    pub fn peek_nth_byte_back(&self, n: usize) -> Option<u8>
        ensures { result ≡ slice_get (reverse self.now.bytes) n }
    {
        self.text.as_bytes().iter().rev().nth(n).copied()
    }

    /// The last byte. `None` where it is empty.
    pub fn last_byte(&self) -> Option<u8>
        ensures { result ≡ slice_get (reverse self.now.bytes) 0 }
    {
        self.peek_nth_byte_back(0)
    }

    /// The last character. `None` where it is empty.
    pub fn last_char(&self) -> Option<char>
        ensures { result ≡ slice_get (reverse (chars self.now.bytes)) 0 }
    {
        self.peek_nth_char_back(0)
    }

    /// Appends an ASCII byte.
    pub fn print_ascii_byte(&mut self, byte: u8) -> Result<(), AllocError>
        requires { byte < 128 }
        ensures ok { OnOk result (Appends self.old self.new (byte ∷ [])) }
        ensures err { OnErr result (IsUnchanged self.old self.new) }
        ensures succeeds { length self.old.bytes < self.old.capacity → IsOk result }
    {
        self.text.push(char::from(byte))
    }

    /// Appends a character.
    pub fn print_char(&mut self, ch: char) -> Result<(), AllocError>
        ensures ok { OnOk result (Appends self.old self.new (encode_utf8 ch)) }
        ensures err { OnErr result (IsUnchanged self.old self.new) }
        ensures succeeds { length self.old.bytes + length (encode_utf8 ch) ≤ self.old.capacity → IsOk result }
    {
        self.text.push(ch)
    }

    /// Appends a text.
    pub fn print_str(&mut self, s: &str) -> Result<(), AllocError>
        ensures ok { OnOk result (Appends self.old self.new s.now) }
        ensures err { OnErr result (IsUnchanged self.old self.new) }
        ensures succeeds { length self.old.bytes + length s.now ≤ self.old.capacity → IsOk result }
    {
        self.text.push_str(s)
    }

    /// Appends a text that is mostly a few bytes long.
    pub fn print_str_short(&mut self, s: &str) -> Result<(), AllocError>
        ensures ok { OnOk result (Appends self.old self.new s.now) }
        ensures err { OnErr result (IsUnchanged self.old self.new) }
        ensures succeeds { length self.old.bytes + length s.now ≤ self.old.capacity → IsOk result }
    {
        self.text.push_str(s)
    }

    /// Appends ASCII bytes.
    pub fn print_ascii_bytes(&mut self, bytes: &[u8]) -> Result<(), AllocError>
        requires { IsAscii bytes.now }
        ensures ok { OnOk result (Appends self.old self.new bytes.now) }
        ensures err { OnErr result (IsUnchanged self.old self.new) }
        ensures succeeds { length self.old.bytes + length bytes.now ≤ self.old.capacity → IsOk result }
    {
        // ASCII is UTF-8.
        let text = unsafe { str::from_utf8_unchecked(bytes) };
        self.text.push_str(text)
    }

    /// Appends two texts, or neither.
    pub fn print_strs2(&mut self, a: &str, b: &str) -> Result<(), AllocError>
        ensures ok { OnOk result (Appends self.old self.new (a.now ++ b.now)) }
        ensures err { OnErr result (IsUnchanged self.old self.new) }
    {
        let len = a.len().checked_add(b.len()).ok_or(AllocError)?;
        self.text.reserve(len)?;
        self.text.push_str(a)?;
        self.text.push_str(b)
    }

    /// Appends three texts, or none of them.
    pub fn print_strs3(&mut self, a: &str, b: &str, c: &str) -> Result<(), AllocError>
        ensures ok { OnOk result (Appends self.old self.new (a.now ++ b.now ++ c.now)) }
        ensures err { OnErr result (IsUnchanged self.old self.new) }
    {
        let two = a.len().checked_add(b.len()).ok_or(AllocError)?;
        let len = two.checked_add(c.len()).ok_or(AllocError)?;
        self.text.reserve(len)?;
        self.text.push_str(a)?;
        self.text.push_str(b)?;
        self.text.push_str(c)
    }

    /// Appends the indent of `depth` levels, or nothing.
    ///
    /// The indent is at most `isize::MAX` characters long.
    pub fn print_indent(&mut self, depth: usize) -> Result<(), AllocError>
        requires { depth * self.old.indent_width < 2 ^ 63 }
        ensures ok { OnOk result (Appends self.old self.new
            (replicate (depth * self.old.indent_width) (indent_byte self.old.indent_char))) }
        ensures err { OnErr result (IsUnchanged self.old self.new) }
    {
        push_times(
            &mut self.text,
            self.indent_char.byte(),
            depth * self.indent_width,
        )
    }

    /// The bytes so far.
    pub fn as_bytes(&self) -> &[u8]
        ensures { result.now ≡ self.now.bytes }
    {
        self.text.as_bytes()
    }

    /// The text so far.
    pub fn as_str(&self) -> &str
        ensures { result.now ≡ self.now.bytes }
    {
        self.text.as_str()
    }

    /// The text, as a `String`.
    pub fn into_string(self) -> String
        ensures { string_bytes result ≡ self.bytes }
    {
        self.text
    }
}

// Appends an ASCII byte `count` times, or not at all.
fn push_times(text: &mut String, byte: u8, count: usize) -> Result<(), AllocError>
    requires { byte < 128 }
    ensures ok { OnOk result (string_bytes text.new ≡ string_bytes text.old ++ replicate count byte) }
    ensures err { OnErr result (string_bytes text.new ≡ string_bytes text.old) }
    ensures capacity { string_capacity text.old ≤ string_capacity text.new }
{
    text.reserve(count)?;
    for _ in 0..count {
        text.push(char::from(byte))?;
    }
    Ok(())
}
