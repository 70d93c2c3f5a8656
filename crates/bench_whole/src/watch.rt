//! How long stages take.

use std::time::Instant;

/// Now; None where the clock fails.
pub fn now(rt: &HostRuntime) -> Option<Instant> {
    Instant::now(rt).ok()
}

/// Tells how long a stage took that began then; None where that fails.
pub fn tell(rt: &HostRuntime, stage: &str, start: Instant) -> Option<()> {
    let taken = start.elapsed(rt).ok()?.as_micros();
    eprintln!(rt; "{} {}", stage, taken).ok()
}
