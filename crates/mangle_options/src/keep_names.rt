//! Whether functions and classes keep their names.

ghost use Rattle.std.specs.Prelude.{◌≡◌, false, true};

/// Whether functions keep their names, and whether classes do.
#[derive(Clone, Copy, Debug, Default, PartialEq, Eq)]
pub struct MangleOptionsKeepNames {
    pub function: bool,
    pub class: bool,
}

impl MangleOptionsKeepNames {
    /// Neither do.
    pub fn all_false() -> Self
        ensures function { result.function ≡ false }
        ensures class { result.class ≡ false }
    {
        Self::from(false)
    }

    /// Both do.
    pub fn all_true() -> Self
        ensures function { result.function ≡ true }
        ensures class { result.class ≡ true }
    {
        Self::from(true)
    }
}

/// Both do, or neither.
impl From<bool> for MangleOptionsKeepNames {
    ghost from_gives = { λ keep names. (names.function ≡ keep) × (names.class ≡ keep) };

    fn from(keep: bool) -> Self {
        MangleOptionsKeepNames {
            function: keep,
            class: keep,
        }
    }
}
