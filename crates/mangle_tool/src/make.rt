//! What `--make` makes and tells.

ghost use Rattle.std.specs.Prelude.{◌≡◌, ◌≢◌, ◌<◌, ◌≤◌, ◌⊎◌, IfErr, IfOk, IsTrue, string_bytes};
ghost use Rattle.made_input.specs.Made.{made_text};
ghost use Rattle.mangle_tool.specs.declared.estree.error.MangleError.{MangleError};
ghost use Rattle.mangle_tool.specs.Answer.{IsAnswer, IsCauseOf, refused_status};
ghost use Rattle.mangle_tool.specs.Asked.{usual};
ghost use Rattle.mangle_tool.specs.Make as spec;
ghost use Rattle.mangle_tool.specs.Make.{HasLengths};
ghost use Rattle.tool_outside.specs.Failures.{Rose};
ghost use Rattle.tool_outside.specs.Outside.{HasBegun, HasWritten};

use crate::answering::Making;
use crate::estree::{Layout, MangleError, MangleOptions, mangle_estree};
use crate::sink::Sink;
use crate::status::Status;
use made_input::{made_texts_are_read, make_input};
use std::alloc::{AllocError, Global};
use tool_outside::carry_out::answer_into;

// Mangles a made input of so many functions, and writes a line on both lengths.
pub(crate) fn make<K: Sink>(alloc: Global, functions: u32, sink: &mut K) -> Status
    requires some { 1 ≤ functions }
    requires most { functions ≤ 2000 }
    ensures done { result ≡ Status.Done
        → HasWritten (HasLengths functions (made_text functions)) (K.held sink.old) (K.held sink.new) }
    ensures settled { result ≡ Status.Done → IsTrue (K.settled sink.new) }
    ensures no_fault { result ≡ Status.Done → K.faults sink.new ≡ K.faults sink.old }
    ensures begun { result ≡ Status.WriteFault
        → HasBegun (HasLengths functions (made_text functions)) (K.held sink.old) (K.held sink.new) }
    ensures refused { (e : MangleError) → result ≡ refused_status e → result ≢ Status.Memory
        → IsCauseOf 0 e (made_text functions) }
    ensures untouched { result ≢ Status.Done → result ≢ Status.WriteFault → sink.new ≡ sink.old }
    ensures unread { (result ≢ Status.ReadFault) × (result ≢ Status.InputTooLong) }
    ensures no_argument { result ≢ Status.BadArgument }
    ensures write_fault { result ≡ Status.WriteFault → Rose (K.faults sink.old) (K.faults sink.new) }
    ensures write_fault_told { K.faults sink.old < K.faults sink.new → result ≡ Status.WriteFault }
    ensures complete { ¬ Rose (K.faults sink.old) (K.faults sink.new)
        → (result ≡ Status.Done) ⊎ (result ≡ Status.Memory) }
{
    made_texts_are_read();
    let input = match make_input(alloc, functions) {
        Ok(input) => input,
        Err(_) => return Status::Memory,
    };
    let work = Making { functions };
    Status::from(answer_into(alloc, &work, input.as_bytes(), sink))
}

// The answer under the default options, in the compact layout.
pub(crate) fn usual_answer(alloc: Global, input: &[u8]) -> Result<String, MangleError>
    ensures answer { IfOk result (λ text. IsAnswer usual input.now (string_bytes text)) }
    ensures cause { IfErr result (λ e. IsCauseOf 0 e input.now) }
{
    let options = MangleOptions::new(alloc);
    mangle_estree(alloc, input, &options, Layout::Compact)
}

// The line on a made input of so many functions and its answer, by their lengths.
pub(crate) fn lengths_line(
    alloc: Global,
    functions: u32,
    input: usize,
    output: usize,
) -> Result<String, AllocError>
    ensures { IfOk result (λ s. string_bytes s ≡ spec.lengths_line functions input output) }
{
    format!(in alloc; "functions {functions}, input bytes {input}, output bytes {output}\n")
}
