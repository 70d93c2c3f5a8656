//! A piece of work from a source to a sink.

ghost use Rattle.std.specs.Prelude.{◌≡◌, ◌≢◌, ◌+◌, ◌-◌, ◌<◌, ◌≤◌, ◌↔◌, ◌⊎◌, length, IfSome, IsTrue};
ghost use Rattle.tool_outside.specs.declared.carry_out.TheConstants.{INPUT_LIMIT};
ghost use Rattle.tool_outside.specs.declared.read_all.ReadAllError.{ReadAllError};
ghost use Rattle.tool_outside.specs.Failures.{Rose};
ghost use Rattle.tool_outside.specs.Outside.{EndsUnlessRefused, HasAnswered, HasBegun, HasBegunAnswer, HasRefused, HasWritten};
ghost use Rattle.tool_outside.specs.Source.{LosesFront};

use crate::read_all::read_all;
use crate::sink::Sink;
use crate::source::{Failed, Source};
use crate::work::{Outcome, Work};
use crate::write_whole::write_whole;
use std::alloc::Global;

/// The most bytes that an input may have.
pub const INPUT_LIMIT: usize = 268_435_456;

/// Writes the answer to `input` to `sink` and settles it. It never ends as `Unread`.
///
/// Nothing is written before the whole answer is ready: where there is none the sink is as it was.
pub fn answer_into<W: Work, K: Sink>(
    alloc: Global,
    work: &W,
    input: &[u8],
    sink: &mut K,
) -> Outcome<W::Refusal>
    // What was written.
    ensures done { result ≡ Outcome.Done
        → HasWritten (W.Answers work.now input.now) (K.held sink.old) (K.held sink.new) }
    ensures settled { result ≡ Outcome.Done → IsTrue (K.settled sink.new) }
    ensures no_fault { result ≡ Outcome.Done → K.faults sink.new ≡ K.faults sink.old }
    ensures begun { result ≡ Outcome.Unwritten
        → HasBegun (W.Answers work.now input.now) (K.held sink.old) (K.held sink.new) }
    ensures untouched { result ≢ Outcome.Done → result ≢ Outcome.Unwritten → sink.new ≡ sink.old }

    // When it is not.
    ensures refused { (e : W.Refusal) → result ≡ Outcome.Refused e → W.Refuses work.now e input.now }
    ensures read { (e : ReadAllError) → result ≢ Outcome.Unread e }
    ensures write_fault { result ≡ Outcome.Unwritten → Rose (K.faults sink.old) (K.faults sink.new) }
    ensures write_fault_told { K.faults sink.old < K.faults sink.new → result ≡ Outcome.Unwritten }
{
    let text = match work.answer(alloc, input) {
        Ok(text) => text,
        Err(refusal) => return Outcome::Refused(refusal),
    };
    match write_whole(sink, text.as_bytes()) {
        Ok(()) => Outcome::Done,
        Err(Failed) => Outcome::Unwritten,
    }
}

/// Reads `source` to its end, at most [`INPUT_LIMIT`] bytes, writes the answer to `sink` and settles it.
///
/// Nothing is written before the whole answer is ready: where there is none the sink is as it was.
#[tactic(auto, using(crate::proofs::ToldBytes::nothing_is_left))]
pub fn carry_out<W: Work, S: Source, K: Sink>(
    alloc: Global,
    work: &W,
    source: &mut S,
    sink: &mut K,
) -> Outcome<W::Refusal>
    // What was read, and what was written.
    ensures done { result ≡ Outcome.Done
        → HasAnswered (W.Answers work.now) (S.left source.old) (S.left source.new) (S.given source.old)
        (S.given source.new) (K.held sink.old) (K.held sink.new) }
    ensures settled { result ≡ Outcome.Done → IsTrue (K.settled sink.new) }
    ensures no_faults { result ≡ Outcome.Done
        → (S.faults source.new ≡ S.faults source.old) × (K.faults sink.new ≡ K.faults sink.old) }
    ensures begun { result ≡ Outcome.Unwritten
        → HasBegunAnswer (W.Answers work.now) (S.left source.old) (S.left source.new) (S.given source.old)
        (S.given source.new) (K.held sink.old) (K.held sink.new) }
    ensures refused { (e : W.Refusal) → result ≡ Outcome.Refused e
        → HasRefused (W.Refuses work.now e) (S.left source.old) (S.left source.new) (S.given source.old)
        (S.given source.new) }
    ensures untouched { result ≢ Outcome.Done → result ≢ Outcome.Unwritten → sink.new ≡ sink.old }

    // The failures of the outside.
    ensures read_fault { result ≡ Outcome.Unread ReadAllError.Failed
        → Rose (S.faults source.old) (S.faults source.new) }
    ensures read_fault_told { S.faults source.old < S.faults source.new
        → (result ≡ Outcome.Unread ReadAllError.Failed)
        ⊎ (result ≡ Outcome.Unread ReadAllError.Memory) }
    ensures too_long { result ≡ Outcome.Unread ReadAllError.TooLong
        → S.given source.new ≡ S.given source.old + (INPUT_LIMIT + 1) }
    ensures too_long_exactly { result ≢ Outcome.Unread ReadAllError.Memory
        → ¬ Rose (S.faults source.old) (S.faults source.new)
        → IfSome (S.left source.old)
        (λ left. (result ≡ Outcome.Unread ReadAllError.TooLong) ↔ (INPUT_LIMIT < length left)) }
    ensures write_fault { result ≡ Outcome.Unwritten → Rose (K.faults sink.old) (K.faults sink.new) }
    ensures write_fault_told { K.faults sink.old < K.faults sink.new → result ≡ Outcome.Unwritten }

    // At any end the source has lost what it gave.
    ensures given_never_falls { S.given source.old ≤ S.given source.new }
    ensures at_most { S.given source.new ≤ S.given source.old + (INPUT_LIMIT + 1) }
    ensures rest { IfSome (S.left source.old)
        (LosesFront (S.left source.new) (S.given source.new - S.given source.old)) }

    // Where nothing fails, an input within the limit is answered, unless it is refused for its cause.
    ensures complete { ¬ Rose (S.faults source.old) (S.faults source.new)
        → ¬ Rose (K.faults sink.old) (K.faults sink.new)
        → IfSome (S.left source.old) (λ left. length left ≤ INPUT_LIMIT
        → EndsUnlessRefused (λ e. W.Refuses work.now e left) result) }
{
    match read_all(alloc, source, INPUT_LIMIT) {
        Ok(input) => answer_into(alloc, work, input.as_slice(), sink),
        Err(error) => Outcome::Unread(error),
    }
}
