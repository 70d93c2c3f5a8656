//! Module records and their entries.

use oxc_str::Str;
use std::alloc::{AllocError, Global};
use std::test::Fail;
use syntax_module::module_record::{
    ExportEntry, ExportExportName, ExportImportName, ExportLocalName, ImportEntry,
    ImportImportName, ModuleRecord, NameSpan, RecordList, RequestedModule,
};
use syntax_sem::span::Span;

/// An empty span at an offset.
pub fn at(start: u32) -> Span {
    Span::new(start, 0)
}

/// A name at an offset.
pub fn name(text: &'static str, start: u32) -> NameSpan<'static> {
    NameSpan::new(Str::new_const(text), at(start))
}

/// `import d, { a as b } from "m"`, with a span of its own for each part.
pub fn imported(alloc: Global, module: &mut ModuleRecord<'static>) -> Result<(), AllocError> {
    let mut requests = RecordList::new(alloc);
    requests.push(RequestedModule {
        statement_span: at(2),
        span: at(1),
        is_type: false,
        is_import: true,
    })?;
    module
        .requested_modules
        .push((Str::new_const("m"), requests))?;
    module.import_entries.push(ImportEntry {
        statement_span: at(3),
        module_request: name("m", 4),
        import_name: ImportImportName::Default(at(6)),
        local_name: name("d", 5),
        is_type: false,
    })?;
    module.import_entries.push(ImportEntry {
        statement_span: at(7),
        module_request: name("m", 8),
        import_name: ImportImportName::Name(name("a", 10)),
        local_name: name("b", 9),
        is_type: false,
    })
}

// Of an import entry: whether it is of a type, of the default export, and of all exports.
fn told(record: &ModuleRecord<'static>, place: usize) -> Option<(bool, bool, bool)> {
    let entry = record.import_entries.get(place)?;
    let name = &entry.import_name;
    Some((entry.is_type, name.is_default(), name.is_namespace_object()))
}

fn make_first_a_type(record: &mut ModuleRecord<'static>) {
    if let Some(entry) = record.import_entries.get_mut(0) {
        entry.is_type = true;
    }
}

#[test]
fn entries(rt: HostRuntime) -> Result<(), Fail> {
    let mut record = ModuleRecord::new(rt.alloc())?;
    imported(rt.alloc(), &mut record)?;
    make_first_a_type(&mut record);
    assert!(rt; told(&record, 0) == Some((true, true, false)));
    assert!(rt; told(&record, 1) == Some((false, false, false)));
    assert!(rt; record.import_entries.len() == 2 && told(&record, 2).is_none());
    assert!(rt; record.exported_bindings.get(0).is_none());
    Ok(())
}

#[test]
fn an_empty_record(rt: HostRuntime) -> Result<(), Fail> {
    let record = ModuleRecord::new(rt.alloc())?;
    assert!(rt; !record.has_module_syntax && record.import_entries.len() == 0);
    assert!(rt; record.exported_bindings.get(0).is_none());
    assert!(rt; ImportImportName::NamespaceObject.is_namespace_object());
    Ok(())
}

#[test]
fn names_of_what_is_exported(rt: HostRuntime) {
    assert!(rt; ExportImportName::All.is_all() && !ExportImportName::All.is_all_but_default());
    assert!(rt; ExportImportName::AllButDefault.is_all_but_default());
    assert!(rt; !ExportImportName::default().is_all());
}

#[test]
fn names_of_exports(rt: HostRuntime) {
    let default = ExportExportName::Default(at(1));
    assert!(rt; default.is_default() && !default.is_null());
    assert!(rt; default.span() == Some(at(1)) && default.default_export_span() == Some(at(1)));
    let none = ExportExportName::default();
    assert!(rt; none.is_null() && none.span().is_none() && none.default_export_span().is_none());
}

#[test]
fn names_of_exports_by_text(rt: HostRuntime) {
    let named = ExportExportName::Name(name("default", 2));
    assert!(rt; !named.is_default() && named.default_export_span() == Some(at(2)));
    let other = ExportExportName::Name(name("defaults", 3));
    assert!(rt; other.span() == Some(at(3)) && other.default_export_span().is_none());
}

#[test]
fn local_names_of_exports(rt: HostRuntime) {
    let local = ExportLocalName::Default(name("f", 4));
    assert!(rt; local.is_default() && local.name() == Some(Str::new_const("f")));
    assert!(rt; ExportLocalName::default().is_null() && ExportLocalName::Null.name().is_none());
    let entry = ExportEntry::default();
    assert!(rt; entry.span == at(0) && entry.module_request.is_none() && !entry.is_type);
}
