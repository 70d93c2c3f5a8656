//! Commands.

ghost use Rattle.std.specs.Prelude.{◌≡◌, None, Err, IfOk};
ghost use Rattle.tool_words.specs.Words as spec;
ghost use Rattle.tool_words.specs.Words.{IsAsked, IsInRange, command_of};

use crate::command::{Command, WordError};
use crate::made_number::made_number;
use crate::options::read_options;
use oxc_str::CompactStr;
use std::alloc::Global;

/// What the words of a command line ask for, read from left to right.
///
/// `BadArgument` comes exactly where they aren't understood; `Memory` may come at any words.
pub fn read_words(alloc: Global, words: &[CompactStr]) -> Result<Command, WordError>
    ensures asked { IfOk result (λ c. IsAsked (command_of words.now) c) }
    ensures range { IfOk result IsInRange }
    ensures bad { result ≡ Err WordError.BadArgument → command_of words.now ≡ None }
{
    if makes(words) {
        return match made_number(words[1].as_str()) {
            Some(number) => Ok(Command::Make(number)),
            None => Err(WordError::BadArgument),
        };
    }
    let (options, layout) = read_options(alloc, words, true)?;
    Ok(Command::Mangle(options, layout))
}

// Whether there are two words, of which the first is `--make`.
fn makes(words: &[CompactStr]) -> bool
    ensures { result ≡ spec.makes words.now }
{
    words.len() == 2 && words[0].as_str() == "--make"
}
