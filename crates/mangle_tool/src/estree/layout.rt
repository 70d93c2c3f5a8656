//! Where white space stands in the text of an answer.

ghost use Rattle.std.specs.Prelude.{◌≡◌, IfOk, string_bytes};
ghost use Rattle.json_text.specs.Layout.{compact, pretty};
ghost use Rattle.oxc_estree.specs.Envelope.{envelope};
ghost use Rattle.tree_core.specs.Values.{meaning_of};
ghost use Rattle.mangle_tool.specs.Asked.{layout_of};

use oxc_estree::{CompactFormatter, ConfigFixes, ESTreeSerializer, PrettyFormatter};
use std::alloc::{AllocError, Global};
use tool_words::Layout;
use tree_core::Program;

/// The text of a program's tree and of the paths to its literals. Err is want of memory.
pub fn text_in(alloc: Global, program: &Program, layout: Layout) -> Result<String, AllocError>
    ensures { IfOk result
        (λ s. string_bytes s ≡ envelope (layout_of layout) (meaning_of program.now)) }
{
    match layout {
        Layout::Compact => compact_text(alloc, program),
        Layout::Pretty => pretty_text(alloc, program),
    }
}

fn compact_text(alloc: Global, program: &Program) -> Result<String, AllocError>
    ensures { IfOk result (λ s. string_bytes s ≡ envelope compact (meaning_of program.now)) }
{
    let serializer = ESTreeSerializer::<ConfigFixes, CompactFormatter>::new(alloc, false, false)?;
    serializer.serialize_with_fixes(program)
}

fn pretty_text(alloc: Global, program: &Program) -> Result<String, AllocError>
    ensures { IfOk result (λ s. string_bytes s ≡ envelope (pretty 0) (meaning_of program.now)) }
{
    let serializer = ESTreeSerializer::<ConfigFixes, PrettyFormatter>::new(alloc, false, false)?;
    serializer.serialize_with_fixes(program)
}
