//! The text of a program beside a map.

ghost use Rattle.std.specs.Prelude.{◌≡◌, ◌++◌, IfOk, codes, map, string_bytes};
ghost use Rattle.json_text.specs.Layout.{compact};
ghost use Rattle.json_text.specs.Text.{text_of};
ghost use Rattle.name_map.specs.Undoing.{old_name};
ghost use Rattle.tool_commands.specs.Mapped as spec;
ghost use Rattle.tool_commands.specs.Mapped.{plain_flags};

use name_map::{NameMap, PlaceNames};
use oxc_estree::{CompactSerializer, Concat2, ESTree, JsonSlice, JsonStr, Serializer};
use std::alloc::{AllocError, Global};
use tree_core::Program;

// The name that a place had, as a list of both.
#[derive(Clone, Copy)]
struct OldPair<'m> {
    place: u32,
    name: &'m str,
}

impl<'m> ESTree for OldPair<'m> {
    ghost use Rattle.std.specs.Prelude.{[], ◌∷◌};
    ghost use Rattle.json_text.specs.Json.{string};
    ghost use Rattle.json_text.specs.Units.{units_of};
    ghost use Rattle.oxc_estree.specs.Open.{list_of, number};
    ghost use Rattle.oxc_estree.specs.Out.{plain};

    ghost meaning = { λ p _. list_of (number p.place ∷ plain (string (units_of p.name.now)) ∷ []) };

    fn serialize<S: Serializer>(&self, serializer: &mut S) -> Result<(), AllocError> {
        Concat2(&Some(self.place), &Some(JsonStr(self.name))).serialize(serializer)
    }
}

// The text of a program and a map in one object: `{"node":`, a line feed, the program, a line feed, `,"map":`, the
// map, `}`, with no other white space.
pub(crate) fn mapped_text(
    alloc: Global,
    program: &Program,
    map: &NameMap,
) -> Result<String, AllocError>
    ensures { IfOk result (λ s. string_bytes s ≡ spec.mapped_text program.now map.now) }
{
    let pairs = old_pairs(alloc, map.names())?;
    let node = value_text(alloc, program)?;
    let names = value_text(alloc, &JsonSlice(pairs.as_slice()))?;
    let marks = value_text(alloc, &JsonSlice(map.marks()))?;
    joined(alloc, node.as_str(), names.as_str(), marks.as_str())
}

// The text of these three.
fn joined(alloc: Global, node: &str, names: &str, marks: &str) -> Result<String, AllocError>
    ensures { IfOk result (λ s. string_bytes s ≡ codes "{\"node\":\n" ++ (node.now
        ++ (codes "\n,\"map\":{\"names\":" ++ (names.now ++ (codes ",\"marks\":" ++ (marks.now ++ codes "}}")))))) }
{
    format!(in alloc; "{{\"node\":\n{node}\n,\"map\":{{\"names\":{names},\"marks\":{marks}}}}}")
}

// The names, each with its place.
fn old_pairs<'m>(alloc: Global, names: &'m PlaceNames) -> Result<Vec<OldPair<'m>>, AllocError>
    ensures { IfOk result (λ v. map (λ p. old_name p.place p.name.now) v.items ≡ names.now) }
{
    let mut pairs = Vec::with_capacity(alloc, names.len())?;
    for i in 0..names.len() {
        let Some((place, name)) = names.get(i) else {
            break;
        };
        pairs.push(OldPair { place, name })?;
    }
    Ok(pairs)
}

// The text of a value, with no white space.
fn value_text<T: ESTree>(alloc: Global, value: &T) -> Result<String, AllocError>
    ensures { IfOk result (λ s. string_bytes s ≡ text_of compact (T.meaning value.now plain_flags).value) }
{
    let mut serializer = CompactSerializer::new(alloc, false, false)?;
    value.serialize(&mut serializer)?;
    Ok(serializer.into_string())
}
