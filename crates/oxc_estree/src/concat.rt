//! Lists that are written one after another, as one.

ghost use Rattle.std.specs.Prelude.{◌≡◌, ◌++◌, List, OnErr, OnOk, map};
ghost use Rattle.oxc_estree.specs.Open.{add_elements, list_of};
ghost use Rattle.oxc_estree.specs.Out.{Flags, Meaning, flags};
ghost use Rattle.oxc_estree.specs.Refused.{IsCutShort};
ghost use Rattle.oxc_estree.specs.Values.{option_elements};

use crate::{ESTree, ESTreeSequenceSerializer, JsonSlice, SequenceSerializer, Serializer};
use std::alloc::AllocError;

/// What can be a part of a list that is put together.
pub trait ConcatElement {
    // The elements that it stands for.
    ghost elements: { Self → Flags → List Meaning };

    /// Writes its elements, in order.
    ///
    /// A call that is refused for want of memory leaves the text as it was, with a first part of
    /// what it was to append.
    fn push_to_sequence<S: SequenceSerializer>(&self, seq: &mut S) -> Result<(), AllocError>
        ensures ok { OnOk result (S.state seq.new
            ≡ add_elements (S.state seq.old) (elements self.now (flags (S.state seq.old).out))) }
        ensures refused { OnErr result (IsCutShort (S.state seq.old).out (S.state seq.new).out
            (add_elements (S.state seq.old) (elements self.now (flags (S.state seq.old).out))).out) }
        ensures same_reference { S.place seq.new ≡ S.place seq.old };
}

/// `None` gives no element.
impl<T: ESTree> ConcatElement for Option<T> {
    ghost elements = { λ o f. option_elements (λ v. T.meaning v f) o };

    fn push_to_sequence<S: SequenceSerializer>(&self, seq: &mut S) -> Result<(), AllocError> {
        match self {
            Some(value) => seq.serialize_element(value),
            None => Ok(()),
        }
    }
}

impl<'a, T: ESTree> ConcatElement for JsonSlice<'a, T> {
    ghost elements = { λ v f. map (λ x. T.meaning x f) v.0.now };

    fn push_to_sequence<S: SequenceSerializer>(&self, seq: &mut S) -> Result<(), AllocError> {
        for element in self.0 {
            seq.serialize_element(element)?;
        }
        Ok(())
    }
}

/// The elements of two parts, as one list.
#[derive(Debug)]
#[derive_where(Clone, Copy)]
pub struct Concat2<'t, C1, C2>(pub &'t C1, pub &'t C2);

impl<'t, C1: ConcatElement, C2: ConcatElement> ESTree for Concat2<'t, C1, C2> {
    ghost meaning = { λ v f. list_of (C1.elements v.0.now f ++ C2.elements v.1.now f) };

    fn serialize<S: Serializer>(&self, serializer: &mut S) -> Result<(), AllocError> {
        let mut seq = ESTreeSequenceSerializer::new(serializer)?;
        self.0.push_to_sequence(&mut seq)?;
        self.1.push_to_sequence(&mut seq)?;
        seq.end()
    }
}

/// The elements of three parts, as one list.
#[derive(Debug)]
#[derive_where(Clone, Copy)]
pub struct Concat3<'t, C1, C2, C3>(pub &'t C1, pub &'t C2, pub &'t C3);

impl<'t, C1: ConcatElement, C2: ConcatElement, C3: ConcatElement> ESTree
    for Concat3<'t, C1, C2, C3> {
    ghost meaning = { λ v f.
        list_of (C1.elements v.0.now f ++ (C2.elements v.1.now f ++ C3.elements v.2.now f)) };

    fn serialize<S: Serializer>(&self, serializer: &mut S) -> Result<(), AllocError> {
        let mut seq = ESTreeSequenceSerializer::new(serializer)?;
        self.0.push_to_sequence(&mut seq)?;
        self.1.push_to_sequence(&mut seq)?;
        self.2.push_to_sequence(&mut seq)?;
        seq.end()
    }
}
