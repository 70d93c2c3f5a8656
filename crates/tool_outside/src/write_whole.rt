//! Writing a whole text into a sink.

ghost use Rattle.std.specs.Prelude.{IsTrue, OnErr, OnOk};
ghost use Rattle.std.specs.Io.KnownBytes.{Appends};
ghost use Rattle.tool_outside.specs.Failures.{CountsFaults};
ghost use Rattle.tool_outside.specs.Sink.{AppendsPrefix};

use crate::sink::Sink;
use crate::source::Failed;

/// Writes all of `bytes`, and then settles the sink.
///
/// Where the sink fails, it got some first bytes of `bytes`, and nothing is tried after that.
#[tactic(auto, using(crate::proofs::ToldBytes::appends_take_more))]
pub fn write_whole<K: Sink>(sink: &mut K, bytes: &[u8]) -> Result<(), Failed>
    ensures whole { OnOk result (Appends (K.held sink.old) (K.held sink.new) bytes.now) }
    ensures settled { OnOk result (IsTrue (K.settled sink.new)) }
    ensures prefix { OnErr result
        (AppendsPrefix (K.held sink.old) (K.held sink.new) bytes.now) }
    ensures faults { CountsFaults (K.faults sink.old) (K.faults sink.new) result }
{
    let mut written = 0;
    while written < bytes.len() {
        written += sink.write(&bytes[written..])?;
    }
    sink.finish()
}
