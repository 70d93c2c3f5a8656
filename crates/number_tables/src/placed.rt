//! Numbers by the indices at which they stand.

ghost use Rattle.std.specs.Prelude.{◌≡◌, ◌<◌, ℕ, IfOk, None, get_or, length};
ghost use Rattle.std.specs.List.{AllByRecursion};
ghost use Rattle.number_tables.specs.PlacedNumbers.{RiseFrom, number_at};

use std::alloc::{AllocError, Global};

/// A row of so many entries: at each of these indices the number beside it, and none at the others. Err is
/// want of memory.
pub fn place_numbers(
    alloc: Global,
    count: usize,
    indices: &[u32],
    numbers: &[Option<u32>],
) -> Result<Vec<Option<u32>>, AllocError>
    requires below { AllByRecursion (λ n. n < count) indices.now }
    requires rising { RiseFrom 0 indices.now }
    requires same { length numbers.now ≡ length indices.now }
    ensures len { IfOk result (λ v. length v.items ≡ count) }
    ensures numbers { IfOk result (λ v. (n : ℕ) → get_or v.items n None ≡ number_at n indices.now numbers.now) }
{
    let mut row = no_numbers(alloc, count)?;
    for i in 0..indices.len() {
        row[indices[i] as usize] = numbers[i];
    }
    Ok(row)
}

// So many entries without a number.
fn no_numbers(alloc: Global, count: usize) -> Result<Vec<Option<u32>>, AllocError>
    ensures len { IfOk result (λ v. length v.items ≡ count) }
    ensures none { IfOk result (λ v. (n : ℕ) → get_or v.items n None ≡ None) }
{
    let mut row = Vec::new(alloc);
    for _ in 0..count {
        row.push(None)?;
    }
    Ok(row)
}
