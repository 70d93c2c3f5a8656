//! Strings as text to be read.

ghost use Rattle.std.specs.Fmt.{WritesOnOk};
ghost use Rattle.std.specs.Prelude.{◌≡◌, true, Some};
ghost use Rattle.std.specs.Str.{chars};
ghost use Rattle.json_text.specs.Strings.{unit_escape};
ghost use Rattle.oxc_str.specs.JSStr.{js_bytes};
ghost use Rattle.oxc_str.specs.JSStrDisplay.{shown, shown_char, shown_string};
ghost use Rattle.oxc_str.specs.Wtf8.{is_surrogate};

use crate::{JSChar, JSStr};
use std::fmt;

/// Shows a [`JSStr`]: each character as it is, and each surrogate that stands alone as `\u` and four
/// hexadecimal digits in lower case. It is for people: two strings may be shown alike.
#[derive(Clone, Copy)]
pub struct JSStrDisplay<'a> {
    string: JSStr<'a>,
}

impl<'a> JSStr<'a> {
    /// Shows it to people.
    pub fn display(self) -> JSStrDisplay<'a>
        ensures { shown_string result ≡ js_bytes self.entry }
    {
        JSStrDisplay { string: self }
    }
}

impl<'a> fmt::Display for JSStrDisplay<'a> {
    ghost output = { λ d. Some (shown (chars (shown_string d))) };

    fn fmt<W: fmt::Write>(&self, f: &mut fmt::Formatter<W>) -> fmt::Result {
        let mut chars = self.string.chars();
        while let Some(c) = chars.next() {
            write_char(c, f)?;
        }
        Ok(())
    }
}

fn write_char<W: fmt::Write>(c: JSChar, f: &mut fmt::Formatter<W>) -> fmt::Result
    ensures { WritesOnOk W.write_str_gives f.old result (shown_char c) f.new }
{
    match c.to_char() {
        Some(c) => f.write_char(c),
        None => write_escape(c.to_u32(), f),
    }
}

fn write_escape<W: fmt::Write>(unit: u32, f: &mut fmt::Formatter<W>) -> fmt::Result
    requires { is_surrogate unit ≡ true }
    ensures { WritesOnOk W.write_str_gives f.old result (unit_escape unit) f.new }
{
    write!(f, "\\u{unit:04x}")
}
