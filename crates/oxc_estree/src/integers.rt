//! Integers as JSON numbers.

ghost use Rattle.std.specs.Prelude.{◌≡◌, OnErr, OnOk, pos};
ghost use Rattle.json_text.specs.Json.{whole};
ghost use Rattle.oxc_data_structures.specs.CodeBuffer.{Appends, IsUnchanged};
ghost use Rattle.oxc_estree.specs.Out.{plain};

use crate::{ESTree, Serializer};
use itoa::Integer;
use oxc_data_structures::code_buffer::CodeBuffer;
use std::alloc::AllocError;

fn print_integer<I: Integer>(buffer: &mut CodeBuffer, n: I) -> Result<(), AllocError>
    ensures ok { OnOk result (Appends buffer.old buffer.new (I.text n)) }
    ensures refused { OnErr result (IsUnchanged buffer.old buffer.new) }
{
    let mut digits = itoa::Buffer::new();
    buffer.print_str(digits.format(n))
}

impl ESTree for u8 {
    ghost meaning = { λ n _. plain (whole (pos n)) };

    fn serialize<S: Serializer>(&self, serializer: &mut S) -> Result<(), AllocError> {
        print_integer::<u8>(serializer.buffer_mut(), *self)
    }
}

impl ESTree for u16 {
    ghost meaning = { λ n _. plain (whole (pos n)) };

    fn serialize<S: Serializer>(&self, serializer: &mut S) -> Result<(), AllocError> {
        print_integer::<u16>(serializer.buffer_mut(), *self)
    }
}

impl ESTree for u32 {
    ghost meaning = { λ n _. plain (whole (pos n)) };

    fn serialize<S: Serializer>(&self, serializer: &mut S) -> Result<(), AllocError> {
        print_integer::<u32>(serializer.buffer_mut(), *self)
    }
}

impl ESTree for u64 {
    ghost meaning = { λ n _. plain (whole (pos n)) };

    fn serialize<S: Serializer>(&self, serializer: &mut S) -> Result<(), AllocError> {
        print_integer::<u64>(serializer.buffer_mut(), *self)
    }
}

impl ESTree for u128 {
    ghost meaning = { λ n _. plain (whole (pos n)) };

    fn serialize<S: Serializer>(&self, serializer: &mut S) -> Result<(), AllocError> {
        print_integer::<u128>(serializer.buffer_mut(), *self)
    }
}

impl ESTree for usize {
    ghost meaning = { λ n _. plain (whole (pos n)) };

    fn serialize<S: Serializer>(&self, serializer: &mut S) -> Result<(), AllocError> {
        print_integer::<usize>(serializer.buffer_mut(), *self)
    }
}

impl ESTree for i8 {
    ghost meaning = { λ n _. plain (whole n) };

    fn serialize<S: Serializer>(&self, serializer: &mut S) -> Result<(), AllocError> {
        print_integer::<i8>(serializer.buffer_mut(), *self)
    }
}

impl ESTree for i16 {
    ghost meaning = { λ n _. plain (whole n) };

    fn serialize<S: Serializer>(&self, serializer: &mut S) -> Result<(), AllocError> {
        print_integer::<i16>(serializer.buffer_mut(), *self)
    }
}

impl ESTree for i32 {
    ghost meaning = { λ n _. plain (whole n) };

    fn serialize<S: Serializer>(&self, serializer: &mut S) -> Result<(), AllocError> {
        print_integer::<i32>(serializer.buffer_mut(), *self)
    }
}

impl ESTree for i64 {
    ghost meaning = { λ n _. plain (whole n) };

    fn serialize<S: Serializer>(&self, serializer: &mut S) -> Result<(), AllocError> {
        print_integer::<i64>(serializer.buffer_mut(), *self)
    }
}

impl ESTree for i128 {
    ghost meaning = { λ n _. plain (whole n) };

    fn serialize<S: Serializer>(&self, serializer: &mut S) -> Result<(), AllocError> {
        print_integer::<i128>(serializer.buffer_mut(), *self)
    }
}

impl ESTree for isize {
    ghost meaning = { λ n _. plain (whole n) };

    fn serialize<S: Serializer>(&self, serializer: &mut S) -> Result<(), AllocError> {
        print_integer::<isize>(serializer.buffer_mut(), *self)
    }
}
