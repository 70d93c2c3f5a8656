//! A visitor of a module record sees each span once, in order.

ghost use Rattle.std.specs.Prelude.{◌+◌, ◌%◌, ◌^◌};

use crate::module_records::{at, imported, name};
use oxc_str::Str;
use std::alloc::AllocError;
use std::test::Fail;
use syntax_module::module_record::{
    DynamicImport, ExportEntry, ExportExportName, ExportLocalName, ModuleRecord,
    VisitMutModuleRecord,
};
use syntax_sem::span::Span;

// Numbers the spans in the order of its visits.
#[derive(Drop)]
struct Numbering {
    next: u32,
}

impl VisitMutModuleRecord for Numbering {
    ghost step = { λ visitor span.
        (record { next = (visitor.next + 1) % 2 ^ 32 }, record span { end = visitor.next }) };

    fn visit_span(&mut self, span: &mut Span) {
        span.end = self.next;
        self.next = self.next.wrapping_add(1);
    }
}

// The ends of the spans of an import entry, in the order of the visits.
fn import_ends(module: &ModuleRecord<'static>, place: usize) -> [u32; 3] {
    match module.import_entries.get(place) {
        Some(entry) => [
            entry.statement_span.end,
            entry.module_request.span.end,
            entry.local_name.span.end,
        ],
        None => [0, 0, 0],
    }
}

fn export() -> ExportEntry<'static> {
    let mut export = ExportEntry::default();
    export.module_request = Some(name("m", 13));
    export.export_name = ExportExportName::Name(name("x", 14));
    export.local_name = ExportLocalName::Name(name("y", 15));
    export
}

fn push_others(record: &mut ModuleRecord<'static>) -> Result<(), AllocError> {
    record.local_export_entries.push(export())?;
    record.exported_bindings.push((Str::new_const("x"), at(0)))?;
    record.dynamic_imports.push(DynamicImport {
        span: at(17),
        module_request: at(16),
    })?;
    record.import_metas.push(at(18))
}

// The ends of the spans of the dynamic import, in the order of the visits, and of the exported binding.
fn other_ends(record: &ModuleRecord<'static>) -> Option<[u32; 3]> {
    let call = record.dynamic_imports.get(0)?;
    let (_, span) = record.exported_bindings.get(0)?;
    Some([call.module_request.end, call.span.end, span.end])
}

// Whether the visitor numbers the spans from 1 to 18.
fn is_numbered(record: &mut ModuleRecord<'static>) -> bool {
    let mut visitor = Numbering { next: 1 };
    visitor.visit_module_record(record);
    visitor.next == 19
}

#[test]
fn each_span_is_visited_once(rt: HostRuntime) -> Result<(), Fail> {
    let mut record = ModuleRecord::new(rt.alloc())?;
    imported(rt.alloc(), &mut record)?;
    push_others(&mut record)?;
    assert!(rt; is_numbered(&mut record));
    assert!(rt; import_ends(&record, 0) == [3, 4, 5] && import_ends(&record, 1) == [7, 8, 9]);
    assert!(rt; other_ends(&record) == Some([16, 17, 0]));
    Ok(())
}
