//! The id of the busiest scope.

ghost use Rattle.std.specs.Prelude.{◌≡◌, ◌<◌, IfOk};
ghost use Rattle.syntax_sem.specs.ScopeId.{number_of};

use std::alloc::AllocError;
use syntax_sem::scope::ScopeId;

// The scope of this number, or the root where there are no slots. Err is want of numbers: there are so many
// scopes, and ids have numbers below 2^32 - 1.
pub(crate) fn busiest_scope(number: u32, slots: usize, scopes: usize) -> Result<ScopeId, AllocError>
    ensures within { IfOk result (λ s. number_of s < scopes) }
    ensures used { IfOk result (λ s. 0 < slots → number_of s ≡ number) }
    ensures root { IfOk result (λ s. slots ≡ 0 → number_of s ≡ 0) }
{
    let number = if slots == 0 { 0 } else { number as usize };
    if number >= scopes || number >= 4_294_967_295 {
        return Err(AllocError);
    }
    Ok(ScopeId::from_usize(number))
}
