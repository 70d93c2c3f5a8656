use oxc_data_structures::code_buffer::{CodeBuffer, DEFAULT_INDENT_WIDTH, IndentChar};
use std::alloc::AllocError;
use std::test::Fail;

// Each print once, but of an indent.
fn print_each(buffer: &mut CodeBuffer) -> Result<(), AllocError> {
    buffer.print_ascii_byte(b'f')?;
    buffer.print_char('\u{e9}')?;
    buffer.print_str("oo")?;
    buffer.print_str_short("!")?;
    buffer.print_strs2("a", "b")?;
    buffer.print_strs3("x", "", "y")?;
    buffer.print_ascii_bytes(b"12")
}

const PRINTED: &str = "  f\u{e9}oo!abxy12";

#[test]
fn a_buffer_has_what_was_printed(rt: HostRuntime) -> Result<(), Fail> {
    let mut buffer = CodeBuffer::with_indent(rt.alloc(), IndentChar::Space, 2);
    buffer.print_indent(0)?;
    buffer.print_indent(1)?;
    print_each(&mut buffer)?;
    assert_eq!(rt; buffer.as_str(), PRINTED);
    assert!(rt; buffer.as_bytes() == PRINTED.as_bytes() && buffer.len() == 14);
    assert!(rt; buffer.into_string().as_str() == PRINTED);
    Ok(())
}

type Ends = (Option<u8>, Option<char>, bool);

fn ends(buffer: &CodeBuffer) -> Ends {
    (buffer.last_byte(), buffer.last_char(), buffer.is_empty())
}

#[test]
fn a_buffer_is_read_from_its_end(rt: HostRuntime) -> Result<(), Fail> {
    let mut buffer = CodeBuffer::new(rt.alloc());
    assert!(rt; ends(&buffer) == (None, None, true));
    buffer.print_str("f\u{e9}")?;
    assert!(rt; ends(&buffer) == (Some(0xa9), Some('\u{e9}'), false));
    for (n, byte, ch) in [
        (0, Some(0xa9), Some('\u{e9}')),
        (1, Some(0xc3), Some('f')),
        (2, Some(b'f'), None),
        (3, None, None),
    ] {
        assert!(rt; buffer.peek_nth_byte_back(n) == byte, "byte {n}");
        assert!(rt; buffer.peek_nth_char_back(n) == ch, "character {n}");
    }
    Ok(())
}

// How many bytes there is room for after nine more bytes are reserved.
fn more_room(buffer: &mut CodeBuffer) -> Result<usize, AllocError> {
    buffer.reserve(9)?;
    Ok(buffer.capacity())
}

#[test]
fn a_buffer_has_room(rt: HostRuntime) -> Result<(), Fail> {
    let mut buffer = CodeBuffer::with_capacity(rt.alloc(), 9)?;
    assert!(rt; buffer.capacity() >= 9);
    buffer.print_indent(2)?;
    assert!(rt; buffer.as_str() == "\t\t");
    assert!(rt; more_room(&mut buffer)? >= 11);
    Ok(())
}

#[test]
fn a_buffer_has_room_and_an_indent(rt: HostRuntime) -> Result<(), Fail> {
    let mut buffer = CodeBuffer::with_capacity_and_indent(rt.alloc(), 9, IndentChar::Space, 3)?;
    assert!(rt; buffer.capacity() >= 9);
    buffer.print_indent(1)?;
    assert!(rt; buffer.as_str() == "   ");
    assert!(rt; IndentChar::default() == IndentChar::Tab && DEFAULT_INDENT_WIDTH == 1);
    Ok(())
}
