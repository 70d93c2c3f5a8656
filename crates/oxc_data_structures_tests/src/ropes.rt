ghost use Rattle.std.specs.Prelude.{◌≡◌};

use oxc_data_structures::rope::{Rope, get_line_column, get_offset_from_line_and_column};
use std::test::Fail;

#[test]
fn lines_of_a_text(rt: HostRuntime) -> Result<(), Fail> {
    for (text, lines) in [
        ("", 1),
        ("a", 1),
        ("foo\nbar\nblahblahblah", 3),
        ("\n", 2),
        ("a\r\nb", 2),
        ("a\n\rb", 3),
        ("a\r\r\nb", 3),
        ("\u{b}\u{c}\u{85}\u{2028}\u{2029}", 6),
    ] {
        let rope = Rope::from_str(rt.alloc(), text)?;
        assert!(rt; rope.len_lines() == lines, "{text}");
    }
    Ok(())
}

fn offset_at(rope: &Rope, line: u32, column: u32) -> Option<u32> {
    if (line as usize) < rope.len_lines() {
        Some(get_offset_from_line_and_column(rope, line, column))
    } else {
        None
    }
}

// The line and column of an offset between characters, and the offset to which they lead back.
fn there_and_back(rope: &Rope, text: &str, offset: u32) -> Option<(u32, u32, u32)>
    requires { text.now ≡ rope.now }
{
    if text.is_char_boundary(offset as usize) {
        let (line, column) = get_line_column(rope, offset, text);
        Some((line, column, offset_at(rope, line, column)?))
    } else {
        None
    }
}

#[test]
fn places_in_a_text(rt: HostRuntime) -> Result<(), Fail> {
    for (text, places) in [
        (
            "foo\nbar\nblahblahblah",
            [(0, 0, 0), (3, 0, 3), (4, 1, 0), (12, 2, 4), (20, 2, 12)],
        ),
        (
            "\u{1f344}abc",
            [(0, 0, 0), (4, 0, 2), (5, 0, 3), (6, 0, 4), (7, 0, 5)],
        ),
        (
            "\u{e9}\r\nx\u{2028}",
            [(2, 0, 1), (3, 0, 2), (4, 1, 0), (5, 1, 1), (8, 2, 0)],
        ),
    ] {
        let rope = Rope::from_str(rt.alloc(), text)?;
        for (offset, line, column) in places {
            let found = there_and_back(&rope, text, offset);
            assert!(rt; found == Some((line, column, offset)), "{text} at {offset}");
        }
    }
    Ok(())
}

#[test]
fn columns_that_no_character_has(rt: HostRuntime) -> Result<(), Fail> {
    let rope = Rope::from_str(rt.alloc(), "a\u{1f344}\r\nb")?;
    for (line, column, offset) in [
        (0, 1, 1),
        (0, 2, 1),
        (0, 3, 5),
        (0, 4, 6),
        (0, 5, 7),
        (0, 9, 7),
        (1, 9, 8),
    ] {
        assert!(rt;
            offset_at(&rope, line, column) == Some(offset),
            "at {line}, {column}"
        );
    }
    Ok(())
}
