//! Bytes that need an escape in a JSON string, looked for eight at a time.

ghost use Rattle.std.specs.Prelude.{◌≡◌, ◌+◌, ◌/◌, ◌≤◌, drop, length};
ghost use Rattle.std.specs.Int.{from_le_bytes, trailing_zeros, w64};
ghost use Rattle.std.specs.List.{position_or_len};
ghost use Rattle.oxc_estree.specs.Escapes.{escapes_mask, needs_escape};

const ONES: u64 = 0x0101_0101_0101_0101;

const SPACES: u64 = 0x2020_2020_2020_2020;

const QUOTES: u64 = 0x2222_2222_2222_2222;

const BACKSLASHES: u64 = 0x5c5c_5c5c_5c5c_5c5c;

const TOP_BITS: u64 = 0x8080_8080_8080_8080;

/// Marks bytes that need an escape in a JSON string by the top bit of their place in the answer, the
/// first byte the lowest.
///
/// The lowest mark is that of the first byte that needs one, and 0 says that none does. Above the
/// lowest mark a byte may be marked that needs none.
pub fn get_escapes_mask(bytes: [u8; 8]) -> u64
    ensures value { result ≡ escapes_mask (from_le_bytes w64 bytes) }
    // 0 has 64 trailing zeros.
    ensures lowest { trailing_zeros w64 result / 8 ≡ position_or_len needs_escape bytes }
{
    let n = u64::from_le_bytes(bytes);
    let controls = n.wrapping_sub(SPACES);
    let quotes = (n ^ QUOTES).wrapping_sub(ONES);
    let backslashes = (n ^ BACKSLASHES).wrapping_sub(ONES);
    (controls | quotes | backslashes) & !n & TOP_BITS
}

/// The place of the first byte from `from` on that needs an escape, or the length.
pub(crate) fn plain_end(bytes: &[u8], from: usize) -> usize
    requires { from ≤ length bytes.now }
    ensures { result ≡ from + position_or_len needs_escape (drop from bytes.now) }
{
    let mut at = from;
    while let Some(word) = bytes[at..].first_chunk::<8>() {
        let mask = get_escapes_mask(*word);
        if mask != 0 {
            return at + mask.trailing_zeros() as usize / 8;
        }
        at += 8;
    }
    plain_end_by_bytes(bytes, at)
}

fn plain_end_by_bytes(bytes: &[u8], from: usize) -> usize
    requires { from ≤ length bytes.now }
    ensures { result ≡ from + position_or_len needs_escape (drop from bytes.now) }
{
    let mut at = from;
    while at < bytes.len() && !needs_escape(bytes[at]) {
        at += 1;
    }
    at
}

fn needs_escape(byte: u8) -> bool
    ensures { result ≡ needs_escape byte }
{
    matches!(byte, 0..=0x1f | b'"' | b'\\')
}
