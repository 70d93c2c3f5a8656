//! How a run of the program ends.

ghost use Rattle.std.specs.Prelude.{◌≡◌};
ghost use Rattle.mangle_tool.specs.Answer.{refused_status};
ghost use Rattle.mangle_tool.specs.Run.{ended};
ghost use Rattle.mangle_tool.specs.Status.{line_of, number_of, read_status, word_status};

use crate::estree::MangleError;
use crate::read_all::ReadAllError;
use tool_outside::work::Outcome;
use tool_words::WordError;

/// How a run ended.
#[derive(Clone, Copy, Debug, PartialEq, Eq)]
pub enum Status {
    /// The whole answer was written and settled.
    Done,
    /// The words of the command line are not understood.
    BadArgument,
    /// The input is not JSON.
    NotJson,
    /// The input is JSON that passes a limit on its size.
    TooLarge,
    /// The input is JSON, but no tree that the mangler takes.
    BadTree,
    /// The scopes of the tree have a fault, as a name that two `let` declare in one scope.
    BadScope,
    /// The input has more bytes than are taken.
    InputTooLong,
    /// The source failed.
    ReadFault,
    /// The sink failed.
    WriteFault,
    /// Memory ran out.
    Memory,
}

impl Status {
    /// The exit code of the program. No status has 1.
    pub fn number(self) -> u8
        ensures { result ≡ number_of self }
    {
        match self {
            Status::Done => 0,
            Status::BadArgument => 2,
            Status::NotJson => 3,
            Status::TooLarge => 4,
            Status::BadTree => 5,
            Status::BadScope => 6,
            Status::InputTooLong => 7,
            Status::ReadFault => 8,
            Status::WriteFault => 9,
            Status::Memory => 10,
        }
    }
}

impl From<ReadAllError> for Status {
    ghost from_gives = { λ error status. status ≡ read_status error };

    fn from(error: ReadAllError) -> Self {
        match error {
            ReadAllError::Failed => Status::ReadFault,
            ReadAllError::TooLong => Status::InputTooLong,
            ReadAllError::Memory => Status::Memory,
        }
    }
}

impl From<WordError> for Status {
    ghost from_gives = { λ error status. status ≡ word_status error };

    fn from(error: WordError) -> Self {
        match error {
            WordError::BadArgument => Status::BadArgument,
            WordError::Memory => Status::Memory,
        }
    }
}

impl From<MangleError> for Status {
    ghost from_gives = { λ error status. status ≡ refused_status error };

    fn from(error: MangleError) -> Self {
        match error {
            MangleError::NotJson => Status::NotJson,
            MangleError::TooLarge => Status::TooLarge,
            MangleError::BadTree => Status::BadTree,
            MangleError::BadScope => Status::BadScope,
            MangleError::Memory => Status::Memory,
        }
    }
}

impl From<Outcome<MangleError>> for Status {
    ghost from_gives = { λ outcome status. status ≡ ended outcome };

    fn from(outcome: Outcome<MangleError>) -> Self {
        match outcome {
            Outcome::Done => Status::Done,
            Outcome::Unread(error) => Status::from(error),
            Outcome::Refused(error) => Status::from(error),
            Outcome::Unwritten => Status::WriteFault,
        }
    }
}

/// What the program says of a status on standard error: nothing where it is done.
pub fn status_line(status: Status) -> &'static str
    ensures { result.now ≡ line_of status }
{
    match status {
        Status::Done => "",
        Status::BadArgument => "mangle: bad argument",
        Status::NotJson => "mangle: not JSON",
        Status::TooLarge => "mangle: too large",
        Status::BadTree => "mangle: bad tree",
        Status::BadScope => "mangle: bad scope",
        Status::InputTooLong => "mangle: input too long",
        Status::ReadFault => "mangle: read fault",
        Status::WriteFault => "mangle: write fault",
        Status::Memory => "mangle: out of memory",
    }
}
