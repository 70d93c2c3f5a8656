//! Code point ranges and byte values of [WTF-8](https://wtf-8.codeberg.page/): surrogates, generalized
//! UTF-8, and the bytes of surrogates.

/// The largest code point.
pub const CODE_POINT_MAX: u32 = 0x10_FFFF;

/// The first lead surrogate.
pub const LEAD_SURROGATE_MIN: u32 = 0xD800;

/// The last lead surrogate.
pub const LEAD_SURROGATE_MAX: u32 = 0xDBFF;

/// The first trail surrogate.
pub const TRAIL_SURROGATE_MIN: u32 = 0xDC00;

/// The last trail surrogate.
pub const TRAIL_SURROGATE_MAX: u32 = 0xDFFF;

/// The first code point that is a pair of surrogates in UTF-16.
pub const SUPPLEMENTARY_MIN: u32 = 0x1_0000;

/// The bits that each half of a pair carries.
pub const SURROGATE_PAYLOAD_MASK: u32 = 0x3FF;

/// The last code point of one byte.
pub const ONE_BYTE_CODE_POINT_MAX: u32 = 0x7F;

/// The first code point of two bytes.
pub const TWO_BYTE_CODE_POINT_MIN: u32 = 0x80;

/// The last code point of two bytes.
pub const TWO_BYTE_CODE_POINT_MAX: u32 = 0x7FF;

/// The first code point of three bytes.
pub const THREE_BYTE_CODE_POINT_MIN: u32 = 0x800;

/// The last code point of three bytes.
pub const THREE_BYTE_CODE_POINT_MAX: u32 = 0xFFFF;

/// The tag of a byte that goes on with a code point.
pub const CONT_TAG: u8 = 0x80;

/// The bits that such a byte carries.
pub const CONT_MASK: u8 = 0x3F;

/// The tag of the first of two bytes.
pub const TWO_BYTE_TAG: u8 = 0xC0;

/// The bits that the first of two bytes carries.
pub const TWO_BYTE_MASK: u8 = 0x1F;

/// The tag of the first of three bytes.
pub const THREE_BYTE_TAG: u8 = 0xE0;

/// The bits that the first of three bytes carries.
pub const THREE_BYTE_MASK: u8 = 0x0F;

/// The tag of the first of four bytes.
pub const FOUR_BYTE_TAG: u8 = 0xF0;

/// The bits that the first of four bytes carries.
pub const FOUR_BYTE_MASK: u8 = 0x07;

/// The first byte of each surrogate.
pub const SURROGATE_FIRST_BYTE: u8 = 0xED;

/// The least second byte of a surrogate. Characters that begin with [`SURROGATE_FIRST_BYTE`] have less.
pub const SURROGATE_SECOND_BYTE_MIN: u8 = 0xA0;

/// The least second byte of a lead surrogate.
pub const LEAD_SURROGATE_SECOND_BYTE_MIN: u8 = 0xA0;

/// The greatest second byte of a lead surrogate.
pub const LEAD_SURROGATE_SECOND_BYTE_MAX: u8 = 0xAF;

/// The least second byte of a trail surrogate.
pub const TRAIL_SURROGATE_SECOND_BYTE_MIN: u8 = 0xB0;

/// How many bytes a surrogate has.
pub const SURROGATE_BYTE_LEN: usize = 3;
