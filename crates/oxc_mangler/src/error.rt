//! Why a program was not mangled.

use std::alloc::AllocError;
use thiserror::Error;

/// Why a program was not mangled.
#[derive(Debug, Drop, Error)]
pub enum BuildError {
    /// Its scopes have a fault.
    #[error("bad scope")]
    BadScope,
    /// Want of memory.
    #[error("out of memory")]
    Memory,
}

impl From<AllocError> for BuildError {
    ghost use Rattle.std.specs.Prelude.{◌≡◌};
    ghost use Rattle.oxc_mangler.specs.declared.error.BuildError.TheVariants.{Memory};

    ghost from_gives = { λ _ e. e ≡ Memory };

    fn from(_error: AllocError) -> BuildError {
        BuildError::Memory
    }
}
