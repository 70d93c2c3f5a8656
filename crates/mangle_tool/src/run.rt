//! The whole program, over any source and sink.

ghost use Rattle.std.specs.Prelude.{◌≡◌, ◌≢◌, ◌+◌, ◌-◌, ◌<◌, ◌≤◌, ◌↔◌, ◌⊎◌, None, false, length, true, IfSome, IsTrue};
ghost use Rattle.mangle_tool.specs.declared.estree.error.MangleError.{MangleError};
ghost use Rattle.mangle_tool.specs.Answer.{refused_status};
ghost use Rattle.mangle_tool.specs.Run.{HasBegunTo, HasDone, IsAnswerable, IsMaking, WasRefused, reads};
ghost use Rattle.tool_outside.specs.declared.carry_out.TheConstants.{INPUT_LIMIT};
ghost use Rattle.tool_outside.specs.Failures.{Rose};
ghost use Rattle.tool_outside.specs.Source.{LosesFront};
ghost use Rattle.tool_words.specs.Words.{command_of};

use crate::answering::Mangling;
use crate::estree::CompactStr;
use crate::make::make;
use crate::sink::Sink;
use crate::source::Source;
use crate::status::Status;
use std::alloc::Global;
pub use tool_outside::carry_out::INPUT_LIMIT;
use tool_outside::carry_out::carry_out;
use tool_words::{Command, read_words};

/// Does what the words of a command line ask for: reads an ESTree in JSON from `source` to its end, writes the
/// answer to `sink` and settles it; or, with `--make`, reads nothing, mangles a made input, and writes the lengths of
/// both texts.
///
/// Nothing is written before the whole text is ready: at any status but `Done` and `WriteFault` the sink
/// is as it was.
pub fn run<S: Source, K: Sink>(
    alloc: Global,
    words: &[CompactStr],
    source: &mut S,
    sink: &mut K,
) -> Status
    // What the words ask for, if they are understood; nothing is read where they ask for no mangling of an input.
    ensures bad_argument { result ≡ Status.BadArgument → command_of words.now ≡ None }
    ensures bad_argument_exactly { command_of words.now ≡ None
        → result ≢ Status.Memory → result ≡ Status.BadArgument }
    ensures nothing_read { reads (command_of words.now) ≡ false → source.new ≡ source.old }

    // What was read, and what was written.
    ensures done { result ≡ Status.Done
        → HasDone (command_of words.now) (S.left source.old) (S.left source.new) (S.given source.old)
        (S.given source.new) (K.held sink.old) (K.held sink.new) }
    ensures settled { result ≡ Status.Done → IsTrue (K.settled sink.new) }
    ensures no_faults { result ≡ Status.Done
        → (S.faults source.new ≡ S.faults source.old) × (K.faults sink.new ≡ K.faults sink.old) }
    ensures begun { result ≡ Status.WriteFault
        → HasBegunTo (command_of words.now) (S.left source.old) (S.left source.new) (S.given source.old)
        (S.given source.new) (K.held sink.old) (K.held sink.new) }
    ensures refused { (e : MangleError) → result ≡ refused_status e → result ≢ Status.Memory
        → WasRefused (command_of words.now) (S.left source.old) (S.left source.new) (S.given source.old)
        (S.given source.new) e }
    ensures untouched { result ≢ Status.Done → result ≢ Status.WriteFault → sink.new ≡ sink.old }

    // The failures of the outside.
    ensures read_fault { result ≡ Status.ReadFault → Rose (S.faults source.old) (S.faults source.new) }
    ensures read_fault_told { S.faults source.old < S.faults source.new
        → (result ≡ Status.ReadFault) ⊎ (result ≡ Status.Memory) }
    ensures too_long { result ≡ Status.InputTooLong
        → S.given source.new ≡ S.given source.old + (INPUT_LIMIT + 1) }
    ensures too_long_exactly { reads (command_of words.now) ≡ true → result ≢ Status.Memory
        → ¬ Rose (S.faults source.old) (S.faults source.new)
        → IfSome (S.left source.old)
        (λ left. (result ≡ Status.InputTooLong) ↔ (INPUT_LIMIT < length left)) }
    ensures never_unread { reads (command_of words.now) ≡ false
        → (result ≢ Status.ReadFault) × (result ≢ Status.InputTooLong) }
    ensures write_fault { result ≡ Status.WriteFault → Rose (K.faults sink.old) (K.faults sink.new) }
    ensures write_fault_told { K.faults sink.old < K.faults sink.new → result ≡ Status.WriteFault }

    // At any end the source has lost what it gave.
    ensures given_never_falls { S.given source.old ≤ S.given source.new }
    ensures at_most { S.given source.new ≤ S.given source.old + (INPUT_LIMIT + 1) }
    ensures rest { IfSome (S.left source.old)
        (LosesFront (S.left source.new) (S.given source.new - S.given source.old)) }

    // Where nothing fails, a valid input is answered, and so is each made one.
    ensures complete { ¬ Rose (S.faults source.old) (S.faults source.new)
        → ¬ Rose (K.faults sink.old) (K.faults sink.new)
        → IsAnswerable (command_of words.now) (S.left source.old)
        → (result ≡ Status.Done) ⊎ (result ≡ Status.Memory) }
    ensures complete_made { ¬ Rose (K.faults sink.old) (K.faults sink.new)
        → IsMaking (command_of words.now)
        → (result ≡ Status.Done) ⊎ (result ≡ Status.Memory) }
{
    let command = match read_words(alloc, words) {
        Ok(command) => command,
        Err(error) => return Status::from(error),
    };
    match command {
        Command::Mangle(options, layout) => {
            let work = Mangling { options, layout };
            Status::from(carry_out(alloc, &work, source, sink))
        }
        Command::Make(functions) => make(alloc, functions, sink),
    }
}
