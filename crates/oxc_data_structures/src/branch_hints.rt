//! `likely` and `unlikely` branch prediction hint functions.

ghost use Rattle.std.specs.Prelude.{◌≡◌};

/// The condition, which is mostly `true`.
pub fn likely(cond: bool) -> bool
    ensures { result ≡ cond }
{
    cond
}

/// The condition, which is mostly `false`.
pub fn unlikely(cond: bool) -> bool
    ensures { result ≡ cond }
{
    cond
}
