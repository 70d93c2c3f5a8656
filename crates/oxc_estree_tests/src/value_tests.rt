//! What the texts of values look like.

ghost use Rattle.std.specs.Prelude.{◌∷◌, [], pos};
ghost use Rattle.json_text.specs.Json.{whole};
ghost use Rattle.oxc_estree.specs.Out.{plain};

use oxc_estree::{
    CompactSerializer, Concat2, Concat3, ConcatElement, ESTree, JsonSlice, SequenceSerializer,
};
use std::alloc::{AllocError, Global};
use std::test::Fail;

pub(crate) fn compact<T: ESTree>(alloc: Global, value: &T) -> Result<String, AllocError> {
    let mut serializer = CompactSerializer::new(alloc, false, false)?;
    value.serialize(&mut serializer)?;
    Ok(serializer.into_string())
}

// Whether a value is written so. (A test that has the text itself carries what is known of it into each later assertion.)
pub(crate) fn is_written<T: ESTree>(
    alloc: Global,
    value: &T,
    text: &str,
) -> Result<bool, AllocError> {
    Ok(compact(alloc, value)?.as_str() == text)
}

#[test]
fn small_values(rt: HostRuntime) -> Result<(), Fail> {
    let alloc = rt.alloc();
    let rows = [
        ("[]", JsonSlice(&[])),
        ("[true]", JsonSlice(&[Some(true)])),
        ("[null,false]", JsonSlice(&[None, Some(false)])),
    ];
    for (want, value) in rows {
        assert!(rt; is_written(alloc, &value, want)?);
    }
    assert!(rt; is_written(alloc, &(), "null")?);
    assert!(rt; is_written(alloc, &[1u8, 2, 3], "[1,2,3]")?);
    assert!(rt; is_written(alloc, &[&5u8, &6], "[5,6]")?);
    let mut number = 5u8;
    assert!(rt; is_written(alloc, &[&mut number], "[5]")?);
    Ok(())
}

#[test]
fn unsigned_integers(rt: HostRuntime) -> Result<(), Fail> {
    let alloc = rt.alloc();
    assert!(rt; is_written(alloc, &u8::MAX, "255")?);
    assert!(rt; is_written(alloc, &u16::MAX, "65535")?);
    assert!(rt; is_written(alloc, &u32::MAX, "4294967295")?);
    assert!(rt; is_written(alloc, &u64::MAX, "18446744073709551615")?);
    assert!(rt; is_written(alloc, &u128::MAX, "340282366920938463463374607431768211455")?);
    assert!(rt; is_written(alloc, &0usize, "0")?);
    Ok(())
}

#[test]
fn signed_integers(rt: HostRuntime) -> Result<(), Fail> {
    let alloc = rt.alloc();
    assert!(rt; is_written(alloc, &i8::MIN, "-128")?);
    assert!(rt; is_written(alloc, &i16::MIN, "-32768")?);
    assert!(rt; is_written(alloc, &i32::MIN, "-2147483648")?);
    assert!(rt; is_written(alloc, &i64::MIN, "-9223372036854775808")?);
    assert!(rt;
        is_written(
            alloc,
            &i128::MIN,
            "-170141183460469231731687303715884105728"
        )?
    );
    assert!(rt; is_written(alloc, &-1isize, "-1")?);
    Ok(())
}

// A part of the tests' own.
#[derive(Drop)]
struct Twice(u8);

impl ConcatElement for Twice {
    ghost elements = { λ t _. plain (whole (pos t.0)) ∷ plain (whole (pos t.0)) ∷ [] };

    fn push_to_sequence<S: SequenceSerializer>(&self, seq: &mut S) -> Result<(), AllocError> {
        seq.serialize_element(&self.0)?;
        seq.serialize_element(&self.0)
    }
}

#[test]
fn lists_put_together(rt: HostRuntime) -> Result<(), Fail> {
    let alloc = rt.alloc();
    let one = Some(1u8);
    let none: Option<u8> = None;
    let more = [2u8, 3];
    let more = JsonSlice(&more);
    assert!(rt; is_written(alloc, &Concat2(&one, &none), "[1]")?);
    assert!(rt; is_written(alloc, &Concat2(&none, &none), "[]")?);
    assert!(rt; is_written(alloc, &Concat3(&more, &none, &one), "[2,3,1]")?);
    assert!(rt; is_written(alloc, &Concat2(&Twice(7), &one), "[7,7,1]")?);
    Ok(())
}
