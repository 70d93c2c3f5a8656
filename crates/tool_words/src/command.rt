//! What words ask for.

use mangle_options::MangleOptions;
use std::alloc::AllocError;

/// Where white space stands in the tree of an answer.
#[derive(Clone, Copy, Debug, PartialEq, Eq)]
pub enum Layout {
    /// Nowhere.
    Compact,
    /// Each field and each element stands on a line of its own, by two spaces a level, and one space
    /// behind each colon.
    Pretty,
}

/// What the words of a command line ask for.
#[derive(Drop)]
pub enum Command {
    /// To mangle the input under these options, and to answer in this layout.
    Mangle(MangleOptions, Layout),
    /// To mangle a made input of so many functions, 1 to 2,000, and to tell both lengths.
    Make(u32),
}

/// Why words ask for nothing.
#[derive(Clone, Copy, Debug, PartialEq, Eq)]
pub enum WordError {
    /// They aren't understood.
    BadArgument,
    /// Memory ran out.
    Memory,
}

impl From<AllocError> for WordError {
    ghost use Rattle.std.specs.Prelude.{◌≡◌};
    ghost use Rattle.tool_words.specs.declared.command.WordError.{WordError};

    ghost from_gives = { λ _ e. e ≡ WordError.Memory };

    fn from(_error: AllocError) -> Self {
        WordError::Memory
    }
}
