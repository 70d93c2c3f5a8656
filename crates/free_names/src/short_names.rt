//! Short names by their number.

ghost use Rattle.std.specs.Prelude.{◌≡◌, ◌<◌, get_or};
ghost use Rattle.name_rules.specs.ShortNames.{characters, short};

use oxc_data_structures::inline_string::InlineString;

// The characters of names; a name begins with one of the first 54.
const BASE54_CHARS: [u8; 64] = *b"etnriaoscludfpmhg_vybxSCwTEDOkAjMNPFILRzBVHUWGKqJYXZQ$1024368579";

/// The name with the number `n`, from 0: the shortest ones come first. It is a name by its characters alone,
/// and may be a reserved keyword, `eval` or `arguments`.
pub fn base54(n: u32) -> InlineString<7, u8>
    ensures { result ≡ short n }
{
    let mut name = InlineString::new();
    name.push(character(n % 54));
    let mut left = n / 54;
    while left > 0 {
        left -= 1;
        name.push(character(left % 64));
        left /= 64;
    }
    name
}

// The character for a digit of a name's number.
fn character(digit: u32) -> u8
    requires { digit < 64 }
    ensures is { result ≡ get_or characters digit 0 }
    ensures ascii { result < 128 }
{
    BASE54_CHARS[digit as usize]
}
