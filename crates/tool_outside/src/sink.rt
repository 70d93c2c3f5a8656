//! Where bytes go.

ghost use Rattle.std.specs.Prelude.{◌≡◌, ◌<◌, ℕ, Bool, false, List, length, IfOk, IsTrue, OnOk};
ghost use Rattle.std.specs.declared.option.Option.{Option};
ghost use Rattle.std.specs.Io.{WritesAtMost};
ghost use Rattle.std.specs.Io.KnownBytes.{Keeps, WriteAppends};
ghost use Rattle.tool_outside.specs.Failures.{CountsFaults};

use crate::source::Failed;

/// Where bytes go.
///
/// An `Ok` leaves the count of faults. `Failed` comes only where that rose, or stands at its last
/// value, and appends nothing.
pub trait Sink {
    /// The bytes held, where the sink tells them. Told bytes stay told.
    ghost held: { Self → Option (List ℕ) };

    /// Whether all that was written is settled: nothing waits to be sent on.
    ghost settled: { Self → Bool };

    /// How often it has failed, up to 2^64 - 1.
    ghost faults: { Self → ℕ };

    /// Appends the first bytes of `piece`, and answers how many it took.
    ///
    /// Of a piece that isn't empty it takes at least one byte, and isn't settled then.
    fn write(&mut self, piece: &[u8]) -> Result<usize, Failed>
        ensures bound { WritesAtMost result piece.now }
        ensures takes_some { 0 < length piece.now → IfOk result (λ n. 0 < n) }
        ensures bytes { WriteAppends (held self.old) (held self.new) result piece.now }
        ensures unsettled { 0 < length piece.now → OnOk result (settled self.new ≡ false) }
        ensures faults { CountsFaults (faults self.old) (faults self.new) result };

    /// Settles what was written.
    fn finish(&mut self) -> Result<(), Failed>
        ensures settled { OnOk result (IsTrue (settled self.new)) }
        ensures bytes { Keeps (held self.old) (held self.new) }
        ensures faults { CountsFaults (faults self.old) (faults self.new) result };
}
