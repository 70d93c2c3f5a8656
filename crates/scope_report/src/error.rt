//! Why there is no report.

use std::alloc::AllocError;
use thiserror::Error;

/// Why there is no report.
#[derive(Debug, Drop, Error)]
pub enum ReportError {
    /// A place that has a finding starts past the source text, or not at a character's first byte or the end.
    #[error("bad span")]
    BadSpan,
    #[error("out of memory")]
    Memory,
}

impl From<AllocError> for ReportError {
    ghost use Rattle.std.specs.Prelude.{◌≡◌};
    ghost use Rattle.scope_report.specs.declared.error.ReportError.TheVariants.{Memory};

    ghost from_gives = { λ _ e. e ≡ Memory };

    fn from(_error: AllocError) -> ReportError {
        ReportError::Memory
    }
}
