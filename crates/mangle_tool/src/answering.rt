//! What a run makes of an input.

use crate::estree::{Layout, MangleError, MangleOptions, mangle_estree};
use crate::make::{lengths_line, usual_answer};
use std::alloc::Global;
use tool_outside::work::Work;

/// Answers an input under options and in a layout.
#[derive(Drop)]
pub struct Mangling {
    pub options: MangleOptions,
    pub layout: Layout,
}

impl Work for Mangling {
    ghost use Rattle.std.specs.Prelude.{length};
    ghost use Rattle.mangle_options.specs.Settings.{reserved_in};
    ghost use Rattle.mangle_tool.specs.Answer.{IsAnswer, IsCauseOf};
    ghost use Rattle.mangle_tool.specs.Asked.{asked_by};

    type Refusal = MangleError;

    ghost Answers = { λ m. IsAnswer (asked_by m.options m.layout) };

    ghost Refuses = { λ m. IsCauseOf (length (reserved_in m.options)) };

    fn answer(&self, alloc: Global, input: &[u8]) -> Result<String, MangleError> {
        mangle_estree(alloc, input, &self.options, self.layout)
    }
}

/// Answers a made input of so many functions under the default options, in the compact layout, and tells both
/// lengths.
#[derive(Drop)]
pub struct Making {
    pub functions: u32,
}

impl Work for Making {
    ghost use Rattle.mangle_tool.specs.Answer.{IsCauseOf};
    ghost use Rattle.mangle_tool.specs.Make.{HasLengths};

    type Refusal = MangleError;

    ghost Answers = { λ m. HasLengths m.functions };

    ghost Refuses = { λ _. IsCauseOf 0 };

    fn answer(&self, alloc: Global, input: &[u8]) -> Result<String, MangleError> {
        let answer = usual_answer(alloc, input)?;
        Ok(lengths_line(alloc, self.functions, input.len(), answer.len())?)
    }
}
