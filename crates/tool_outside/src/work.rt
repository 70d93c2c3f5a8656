//! What a tool makes of an input.

ghost use Rattle.std.specs.Prelude.{ℕ, List, IfErr, IfOk, string_bytes};

use crate::read_all::ReadAllError;
use std::alloc::Global;

/// A piece of work: which text answers an input, and why an input has no answer.
pub trait Work {
    /// Why an input has no answer.
    type Refusal;

    /// Whether a text answers an input.
    ghost Answers: { Self → List ℕ → List ℕ → Type 0 };

    /// What a refusal says of an input.
    ghost Refuses: { Self → Self.Refusal → List ℕ → Type 0 };

    /// The answer to an input. Err says why there is none.
    fn answer(&self, alloc: Global, input: &[u8]) -> Result<String, Self::Refusal>
        ensures answer { IfOk result (λ text. Answers self.now input.now (string_bytes text)) }
        ensures refusal { IfErr result (λ e. Refuses self.now e input.now) };
}

/// How a piece of work ended.
#[derive(Drop)]
pub enum Outcome<E> {
    /// The whole answer was written and settled.
    Done,
    /// The input wasn't read whole, so there is no answer.
    Unread(ReadAllError),
    /// The input was read, and has no answer.
    Refused(E),
    /// The answer wasn't written whole.
    Unwritten,
}
