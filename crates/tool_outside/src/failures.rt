//! How the sources and sinks of this crate count their failures.

ghost use Rattle.tool_outside.specs.Failures.{next_count, Rose};
ghost use Rattle.std.specs.Prelude.{◌≡◌, ◌≤◌};

use crate::source::Failed;

// Counts a failure, up to the last value of the count, and gives the error to answer.
pub(crate) fn fail(faults: &mut u64) -> Failed
    ensures next { faults.new ≡ next_count faults.old }
    ensures never_falls { faults.old ≤ faults.new }
    ensures rose { Rose faults.old faults.new }
{
    *faults = faults.saturating_add(1);
    Failed
}
