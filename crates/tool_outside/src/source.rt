//! Where bytes come from.

ghost use Rattle.std.specs.Prelude.{ℕ, List};
ghost use Rattle.std.specs.declared.option.Option.{Option};
ghost use Rattle.std.specs.Io.{ReadsAtMost};
ghost use Rattle.std.specs.Io.KnownBytes.{ReadConsumes};
ghost use Rattle.tool_outside.specs.Failures.{CountsFaults};
ghost use Rattle.tool_outside.specs.Source.{CountsGiven};

/// A source or a sink failed. Why it did is not told.
#[derive(Clone, Copy, Debug, PartialEq, Eq)]
pub struct Failed;

/// Where bytes come from.
///
/// An `Ok` leaves the count of faults. `Failed` comes only where that rose, or stands at its last
/// value, and takes no byte.
pub trait Source {
    /// The bytes left, where the source tells them. Told bytes stay told.
    ghost left: { Self → Option (List ℕ) };

    /// How many bytes it has given.
    ghost given: { Self → ℕ };

    /// How often it has failed, up to 2^64 - 1.
    ghost faults: { Self → ℕ };

    /// Fills the first bytes of `buf` with the next bytes, and answers how many it filled.
    ///
    /// Of a buffer that isn't empty it fills none only at the end, where nothing is left.
    fn read(&mut self, buf: &mut [u8]) -> Result<usize, Failed>
        ensures bound { ReadsAtMost result buf.new }
        ensures bytes { ReadConsumes (left self.old) (left self.new) result buf.new }
        ensures given { CountsGiven (given self.old) (given self.new) result }
        ensures faults { CountsFaults (faults self.old) (faults self.new) result };
}
