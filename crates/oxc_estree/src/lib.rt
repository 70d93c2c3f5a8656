//! JSON output of ESTree trees.
#![tactic(auto)]

ghost use Rattle.oxc_estree.specs.Envelope.{EnvelopeReadsAlone};

mod code_points;
mod concat;
mod config;
mod estree_serializer;
mod formatter;
mod integers;
mod pieces;
mod scan;
mod sequences;
mod serializer;
mod strings;
mod structs;
mod trace_path;
mod values;

pub use code_points::{CodePoints, LoneSurrogatesString};
pub use concat::{Concat2, Concat3, ConcatElement};
pub use config::{Config, ConfigFixes, ConfigNoFixes};
pub use estree_serializer::{
    CompactFixesSerializer, CompactSerializer, ESTreeSerializer, PrettyFixesSerializer,
    PrettySerializer,
};
pub use formatter::{CompactFormatter, Formatter, PrettyFormatter};
pub use scan::get_escapes_mask;
pub use sequences::{ESTreeSequenceSerializer, SequenceSerializer};
pub use serializer::{ESTree, Serializer};
pub use structs::{
    ESTreeSpan, ESTreeStructSerializer, Fields, FlatStructSerializer, StructSerializer,
};
pub use trace_path::{TracePathPart, trace_path_parts_compare_by_part};
pub use values::{JsonSafeString, JsonSlice, JsonStr};

/// The law that the text of a node with its fix paths, as
/// [`serialize_with_fixes`](ESTreeSerializer::serialize_with_fixes) gives it, reads as the object of
/// `node` and `fixes` (RFC 8259), and as no other value.
pub fn envelope_reads_alone()
    ensures { EnvelopeReadsAlone }
{
    json_text::text_reads_alone();
    json_text::reads_one_value();
}
