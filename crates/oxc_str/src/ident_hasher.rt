//! The hash of an identifier's bytes, and a hasher whose state follows from it.

ghost use Rattle.std.specs.Prelude.{◌≡◌, ◌+◌, ◌≤◌, length};
ghost use Rattle.oxc_str.specs.Ident.{hasher_state};
ghost use Rattle.oxc_str.specs.IdentHash as spec;

use std::hash::{BuildHasher, Hasher};

const SEED1: u32 = 0x9E37_79B9;

const SEED2: u32 = 0x85EB_CA6B;

// The four bytes from `i` on, the lowest first.
fn read_u32(s: &[u8], i: usize) -> u32
    requires { i + 4 ≤ length s.now }
    ensures { result ≡ spec.read_u32 s.now i }
{
    u32::from_le_bytes([s[i], s[i + 1], s[i + 2], s[i + 3]])
}

// The low half of the product, xor its high half.
fn mix(a: u32, b: u32) -> u32
    ensures { result ≡ spec.mix a b }
{
    let product = u64::from(a) * u64::from(b);
    (product % 0x1_0000_0000) as u32 ^ (product / 0x1_0000_0000) as u32
}

/// The hash of an identifier's bytes: up to 8 bytes all of them count, of more the first, the last and
/// some between. It is 0 where there are none, and may be 0 elsewhere too.
#[tactic(auto, unfolding(crate::specs::IdentHash::ident_hash))]
pub fn ident_hash(s: &[u8]) -> u32
    ensures { result ≡ spec.ident_hash s.now }
{
    let len = s.len();
    if len == 0 {
        return 0;
    }
    if len < 4 {
        let packed = u32::from(s[0]) * 0x1_0000
            + u32::from(s[len / 2]) * 0x100
            + u32::from(s[len - 1]);
        return mix(packed ^ SEED1, packed ^ SEED2);
    }
    let head = read_u32(s, 0);
    let tail = read_u32(s, len - 4);
    if len < 9 {
        mix(head ^ SEED1, tail ^ SEED2)
    } else if len < 17 {
        let middle = read_u32(s, len / 2 - 2);
        mix(head ^ middle ^ SEED1, tail ^ SEED2)
    } else {
        let third = read_u32(s, len / 3);
        let two_thirds = read_u32(s, 2 * len / 3);
        mix(head ^ third ^ SEED1, two_thirds ^ tail ^ SEED2)
    }
}

// The state of a text of this length and hash. Its upper half is the hash, and its lower half has the
// hash in it too, for tables that take their place from the low bits.
#[tactic(auto, unfolding(crate::specs::IdentHash::state_of))]
fn hashbrown_state(len: usize, hash: u32) -> u64
    ensures { result ≡ spec.state_of len hash }
{
    let low = hash ^ ((len % 0x1_0000_0000) as u32).rotate_left(16);
    u64::from(low) + u64::from(hash) * 0x1_0000_0000
}

/// A hasher of identifiers: each write sets its state to one that follows from the bytes alone,
/// whatever was written before. So it is for keys that are hashed by one write, as [`Ident`](crate::Ident) is.
#[derive(Clone, Copy, Debug)]
pub struct IdentHasher {
    state: u64,
}

impl Hasher for IdentHasher {
    ghost write = { λ _ bytes. record { state = spec.written bytes } };

    ghost finish = { λ hasher. hasher_state hasher };

    fn finish(&self) -> u64 {
        self.state
    }

    fn write(&mut self, bytes: &[u8]) {
        self.state = hashbrown_state(bytes.len(), ident_hash(bytes));
    }
}

/// Makes hashers of identifiers, whose state is 0 at first.
#[derive(Clone, Copy, Debug, Default)]
pub struct IdentBuildHasher;

impl BuildHasher for IdentBuildHasher {
    type Hasher = IdentHasher;

    ghost build_hasher = { λ _. record { state = 0 } };

    fn build_hasher(&self) -> IdentHasher {
        IdentHasher { state: 0 }
    }
}
