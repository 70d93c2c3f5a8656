//! The line and the column of each offset of a text, found by one walk.

ghost use Rattle.std.specs.Prelude.{◌≡◌, ◌+◌, ◌++◌, ◌<◌, ◌^◌, IfOk, OnOk, length, replicate};
ghost use Rattle.std.specs.Str.{chars};
ghost use Rattle.oxc_data_structures.specs.Rope as rope;
ghost use Rattle.oxc_data_structures.specs.Rope.{ends_line, is_line_break};
ghost use Rattle.scope_report.specs.Positions.{ArePositions, position_past};

use std::alloc::{AllocError, Global};

/// A line and a column, in UTF-16 code units, both from 0.
#[derive(Clone, Copy)]
pub struct Position {
    pub line: u32,
    pub column: u32,
}

/// Of each offset of a text and of its end, at which a character starts or the text ends, its position. Err is want
/// of memory.
pub fn positions(alloc: Global, text: &str) -> Result<Vec<Position>, AllocError>
    requires { length text.now < 2 ^ 32 }
    ensures { IfOk result (λ ps. ArePositions text.now ps.items) }
{
    let mut positions = Vec::with_capacity(alloc, text.len() + 1)?;
    let mut at = Position { line: 0, column: 0 };
    let mut chars = text.chars();
    while let Some(ch) = chars.next() {
        push_times(&mut positions, at, ch.len_utf8())?;
        at = position_past(at, ch, chars.as_str());
    }
    positions.push(at)?;
    Ok(positions)
}

// Appends the position so many times.
fn push_times(
    positions: &mut Vec<Position>,
    position: Position,
    count: usize,
) -> Result<(), AllocError>
    ensures { OnOk result (positions.new.items ≡ positions.old.items ++ replicate count position) }
{
    for _i in 0..count {
        positions.push(position)?;
    }
    Ok(())
}

// The position behind a character that `rest` follows.
#[tactic(auto, unfolding(crate::specs::Positions::position_past))]
fn position_past(at: Position, ch: char, rest: &str) -> Position
    requires line { at.line + 1 < 2 ^ 32 }
    requires column { at.column + rope.len_utf16 ch < 2 ^ 32 }
    ensures { result ≡ position_past at ch (chars rest.now) }
{
    if ends_line(ch, rest) {
        Position {
            line: at.line + 1,
            column: 0,
        }
    } else {
        Position {
            line: at.line,
            column: at.column + ch.len_utf16() as u32,
        }
    }
}

// Whether a line ends behind a character that `rest` follows.
fn ends_line(ch: char, rest: &str) -> bool
    ensures { result ≡ ends_line ch (chars rest.now) }
{
    is_line_break(ch) && !(ch == '\r' && rest.chars().next() == Some('\n'))
}

// Whether a character is a line break, or the first part of one.
fn is_line_break(ch: char) -> bool
    ensures { result ≡ is_line_break ch }
{
    matches!(ch, '\n'..='\r' | '\u{85}' | '\u{2028}' | '\u{2029}')
}
