//! Texts that live as long as an arena.

ghost use Rattle.std.specs.Prelude.{◌≡◌, ◌++◌, IfOk};

use bumpalo::Bump;
use bumpalo::collections::into_bump_str;
use std::alloc::AllocError;

/// A copy of `s` in the arena.
pub fn alloc_str<'a>(arena: &'a Bump, s: &str) -> Result<&'a str, AllocError>
    ensures { IfOk result (λ text. text.now ≡ s.now) }
{
    Ok(arena.try_alloc_str(s)?)
}

/// `a` followed by `b`, in the arena.
pub fn concat_strs<'a>(arena: &'a Bump, a: &str, b: &str) -> Result<&'a str, AllocError>
    ensures { IfOk result (λ text. text.now ≡ a.now ++ b.now) }
{
    let mut both = String::from_str(arena, a)?;
    both.push_str(b)?;
    Ok(into_bump_str(both))
}
