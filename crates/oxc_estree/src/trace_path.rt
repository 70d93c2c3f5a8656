//! Where in the output a serializer is.

ghost use Rattle.std.specs.Prelude.{◌≡◌, OnErr, OnOk};
ghost use Rattle.oxc_estree.specs.Out.{path_inside, path_outside};
ghost use Rattle.oxc_estree.specs.TracePathPart.{ComparesByPart, part_of, path_of};

use std::alloc::AllocError;

/// A step of the path from the root of the output to the value that is being written.
#[derive(Clone, Copy, Debug, PartialEq, Eq, Drop)]
pub enum TracePathPart {
    /// The field of this name.
    Key(&'static str),
    /// The element at this index.
    Index(usize),
}

impl TracePathPart {
    /// A part that stands for none.
    pub const DUMMY: TracePathPart = TracePathPart::Index(0);
}

/// The law that two parts are equal exactly where both are fields of one name or both are elements of
/// one index.
pub fn trace_path_parts_compare_by_part()
    ensures { ComparesByPart ⟦<TracePathPart as PartialEq>⟧.eq }
{}

/// Steps into a field or an element. No path is kept where none is recorded.
pub(crate) fn step_in(
    trace_path: &mut Vec<TracePathPart>,
    records: bool,
    part: TracePathPart,
) -> Result<(), AllocError>
    ensures ok { OnOk result (path_of trace_path.new.items
        ≡ path_inside records (path_of trace_path.old.items) (part_of part)) }
    ensures refused { OnErr result (path_of trace_path.new.items ≡ path_of trace_path.old.items) }
{
    if !records {
        return Ok(());
    }
    trace_path.push(part)?;
    Ok(())
}

/// Steps out of a field or an element.
pub(crate) fn step_out(trace_path: &mut Vec<TracePathPart>, records: bool)
    ensures { path_of trace_path.new.items ≡ path_outside records (path_of trace_path.old.items) }
{
    if records {
        let _ = trace_path.pop();
    }
}
