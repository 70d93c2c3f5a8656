//! Reading a source to its end.

ghost use Rattle.std.specs.Prelude.{◌≡◌, ◌≢◌, ◌+◌, ◌-◌, ◌<◌, ◌≤◌, ◌↔◌, ◌⊎◌, Some, Err, length, IfOk, IfSome, IsErrOf, OnOk, vec_len};
ghost use Rattle.std.specs.Io.KnownBytes.{IsAtEnd};
ghost use Rattle.tool_outside.specs.declared.read_all.ReadAllError.{ReadAllError};
ghost use Rattle.tool_outside.specs.Failures.{Rose};
ghost use Rattle.tool_outside.specs.Source.{LosesFront};

use crate::source::{Failed, Source};
use std::alloc::{AllocError, Global};

// How many bytes are asked for at once, at most.
const CHUNK: usize = 8192;

/// Why a source wasn't read to its end.
#[derive(Clone, Copy, Debug, PartialEq, Eq)]
pub enum ReadAllError {
    /// The source failed.
    Failed,
    /// The source has more bytes than the limit.
    TooLong,
    /// Memory ran out.
    Memory,
}

impl From<Failed> for ReadAllError {
    ghost from_gives = { λ _ e. e ≡ ReadAllError.Failed };

    fn from(_failed: Failed) -> Self {
        ReadAllError::Failed
    }
}

impl From<AllocError> for ReadAllError {
    ghost from_gives = { λ _ e. e ≡ ReadAllError.Memory };

    fn from(_error: AllocError) -> Self {
        ReadAllError::Memory
    }
}

/// All bytes of `source` to its end, at most `limit` of them.
///
/// It takes no more than `limit + 1` bytes: one past the limit shows that there are too many, and
/// is `TooLong`. `Failed` comes where the source fails, and `Memory` where memory ran out.
pub fn read_all<S: Source>(
    alloc: Global,
    source: &mut S,
    limit: usize,
) -> Result<Vec<u8>, ReadAllError>
    requires { limit < usize.MAX }

    // The answer is all that was left.
    ensures whole { IfOk result (λ bytes.
        IfSome (S.left source.old) (λ left. bytes.items ≡ left)) }
    ensures at_end { OnOk result (IsAtEnd (S.left source.new)) }
    ensures len { IfOk result (λ bytes. vec_len bytes ≤ limit) }
    ensures given { IfOk result (λ bytes.
        S.given source.new ≡ S.given source.old + vec_len bytes) }

    // When each error comes; `Memory` may come at any time.
    ensures failed { IsErrOf result ReadAllError.Failed
        → Rose (S.faults source.old) (S.faults source.new) }
    ensures too_long { IsErrOf result ReadAllError.TooLong
        → S.given source.new ≡ S.given source.old + (limit + 1) }
    ensures too_long_exactly { result ≢ Err ReadAllError.Memory
        → ¬ Rose (S.faults source.old) (S.faults source.new)
        → IfSome (S.left source.old) (λ left.
        IsErrOf result ReadAllError.TooLong ↔ (limit < length left)) }

    // Where the source failed, only `Failed` or `Memory` comes.
    ensures faults_never_fall { S.faults source.old ≤ S.faults source.new }
    ensures fault_told { S.faults source.old < S.faults source.new
        → (IsErrOf result ReadAllError.Failed ⊎ IsErrOf result ReadAllError.Memory) }

    // At any end the source has lost what it gave.
    ensures given_never_falls { S.given source.old ≤ S.given source.new }
    ensures at_most { S.given source.new ≤ S.given source.old + (limit + 1) }
    ensures rest { IfSome (S.left source.old)
        (LosesFront (S.left source.new) (S.given source.new - S.given source.old)) }
{
    let mut bytes = Vec::new(alloc);
    let mut chunk = [0u8; CHUNK];
    loop {
        let room = (limit + 1 - bytes.len()).min(CHUNK);
        let count = source.read(&mut chunk[..room])?;
        if count == 0 {
            return Ok(bytes);
        }
        if count > limit - bytes.len() {
            return Err(ReadAllError::TooLong);
        }
        bytes.extend_from_slice(&chunk[..count])?;
    }
}
