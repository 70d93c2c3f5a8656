//! Why an input has no answer.

ghost use Rattle.std.specs.Prelude.{◌≡◌};
ghost use Rattle.mangle_tool.specs.Answer.{read_refusal};
ghost use Rattle.mangle_tool.specs.declared.estree.error.MangleError.{MangleError};

use std::alloc::AllocError;
use std::fmt;
use tree_core::ReadError;

/// Why an input has no answer, in the order in which it is tested.
#[derive(Clone, Copy, Debug, PartialEq, Eq)]
pub enum MangleError {
    /// The input is not JSON, or nests deeper than 127 levels.
    NotJson,
    /// The input is JSON that passes a limit on its size.
    TooLarge,
    /// The input is JSON, but no tree that the mangler takes.
    BadTree,
    /// The scopes of the tree have a fault, as a name that two `let` declare in one scope.
    BadScope,
    /// Memory ran out.
    Memory,
}

impl fmt::Display for MangleError {
    ghost use Rattle.std.specs.Prelude.{Some};
    ghost use Rattle.mangle_tool.specs.Answer.{error_text};

    ghost output = { λ error. Some (error_text error) };

    fn fmt<W: fmt::Write>(&self, f: &mut fmt::Formatter<W>) -> fmt::Result {
        f.write_str(match self {
            MangleError::NotJson => "not JSON",
            MangleError::TooLarge => "too large",
            MangleError::BadTree => "bad tree",
            MangleError::BadScope => "bad scope",
            MangleError::Memory => "out of memory",
        })
    }
}

impl From<AllocError> for MangleError {
    ghost from_gives = { λ _ e. e ≡ MangleError.Memory };

    fn from(_error: AllocError) -> Self {
        MangleError::Memory
    }
}

impl From<ReadError> for MangleError {
    ghost from_gives = { λ error e. e ≡ read_refusal error };

    fn from(error: ReadError) -> Self {
        match error {
            ReadError::TooLarge => MangleError::TooLarge,
            ReadError::BadTree => MangleError::BadTree,
            ReadError::Memory => MangleError::Memory,
        }
    }
}
