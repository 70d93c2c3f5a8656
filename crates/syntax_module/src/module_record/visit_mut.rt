//! Visits of the spans of a module record.

ghost use Rattle.std.specs.Prelude.{◌≡◌};
ghost use Rattle.syntax_module.specs.Visits as spec;
ghost use Rattle.syntax_sem.specs.declared.span.Span.{Span as SpanValue};

use super::{
    DynamicImport, ExportEntry, ExportExportName, ExportImportName, ExportLocalName, ImportEntry,
    ImportImportName, ModuleRecord, NameSpan, RecordList, RequestedModule,
};
use oxc_str::Str;
use syntax_sem::span::Span;

/// What goes over the spans of a module record and may change them.
///
/// A type writes [`visit_span`](VisitMutModuleRecord::visit_span); each other call visits the spans of what it
/// is handed, one after the other and each once, and leaves all else as it was. A type that writes another call
/// itself keeps this.
pub trait VisitMutModuleRecord {
    // What a visit of a span leaves, of the visitor and of the span.
    ghost step: { Self → SpanValue → Self × SpanValue };

    /// Visits a span.
    fn visit_span(&mut self, span: &mut Span)
        ensures { (self.new, span.new) ≡ step self.old span.old };

    /// Visits where a name stands.
    fn visit_name_span(&mut self, name_span: &mut NameSpan<'_>)
        ensures { (self.new, name_span.new) ≡ spec.on_name_span step self.old name_span.old }
    {
        self.visit_span(&mut name_span.span);
    }

    /// Visits the specifier, then the declaration.
    fn visit_requested_module(&mut self, requested_module: &mut RequestedModule)
        ensures { (self.new, requested_module.new)
            ≡ spec.on_requested_module step self.old requested_module.old }
    {
        self.visit_span(&mut requested_module.span);
        self.visit_span(&mut requested_module.statement_span);
    }

    /// Visits the argument, then the call.
    fn visit_dynamic_import(&mut self, dynamic_import: &mut DynamicImport)
        ensures { (self.new, dynamic_import.new)
            ≡ spec.on_dynamic_import step self.old dynamic_import.old }
    {
        self.visit_span(&mut dynamic_import.module_request);
        self.visit_span(&mut dynamic_import.span);
    }

    /// Visits where the name stands, if it is one that does.
    fn visit_import_import_name(&mut self, import_import_name: &mut ImportImportName<'_>)
        ensures { (self.new, import_import_name.new)
            ≡ spec.on_import_import_name step self.old import_import_name.old }
    {
        match import_import_name {
            ImportImportName::Name(name_span) => self.visit_name_span(name_span),
            ImportImportName::NamespaceObject => {}
            ImportImportName::Default(span) => self.visit_span(span),
        }
    }

    /// Visits the declaration, the specifier, the bound name and what is imported.
    fn visit_import_entry(&mut self, import_entry: &mut ImportEntry<'_>)
        ensures { (self.new, import_entry.new)
            ≡ spec.on_import_entry step self.old import_entry.old }
    {
        self.visit_span(&mut import_entry.statement_span);
        self.visit_name_span(&mut import_entry.module_request);
        self.visit_name_span(&mut import_entry.local_name);
        self.visit_import_import_name(&mut import_entry.import_name);
    }

    /// Visits where the name stands, if it is one that does.
    fn visit_export_import_name(&mut self, export_import_name: &mut ExportImportName<'_>)
        ensures { (self.new, export_import_name.new)
            ≡ spec.on_export_import_name step self.old export_import_name.old }
    {
        match export_import_name {
            ExportImportName::Name(name_span) => self.visit_name_span(name_span),
            ExportImportName::All | ExportImportName::AllButDefault | ExportImportName::Null => {}
        }
    }

    /// Visits where the name stands, if it is one that does.
    fn visit_export_export_name(&mut self, export_export_name: &mut ExportExportName<'_>)
        ensures { (self.new, export_export_name.new)
            ≡ spec.on_export_export_name step self.old export_export_name.old }
    {
        match export_export_name {
            ExportExportName::Name(name_span) => self.visit_name_span(name_span),
            ExportExportName::Default(span) => self.visit_span(span),
            ExportExportName::Null => {}
        }
    }

    /// Visits where the name stands, if it is one that does.
    fn visit_export_local_name(&mut self, export_local_name: &mut ExportLocalName<'_>)
        ensures { (self.new, export_local_name.new)
            ≡ spec.on_export_local_name step self.old export_local_name.old }
    {
        match export_local_name {
            ExportLocalName::Name(name_span) => self.visit_name_span(name_span),
            ExportLocalName::Default(name_span) => self.visit_name_span(name_span),
            ExportLocalName::Null => {}
        }
    }

    /// Visits the declaration, the entry, the specifier if there is one, and the three names.
    fn visit_export_entry(&mut self, export_entry: &mut ExportEntry<'_>)
        ensures { (self.new, export_entry.new)
            ≡ spec.on_export_entry step self.old export_entry.old }
    {
        self.visit_span(&mut export_entry.statement_span);
        self.visit_span(&mut export_entry.span);
        if let Some(module_request) = &mut export_entry.module_request {
            self.visit_name_span(module_request);
        }
        self.visit_export_import_name(&mut export_entry.import_name);
        self.visit_export_export_name(&mut export_entry.export_name);
        self.visit_export_local_name(&mut export_entry.local_name);
    }

    /// Visits the requests of each module, in order.
    fn visit_requested_modules(
        &mut self,
        requested_modules: &mut RecordList<(Str<'_>, RecordList<RequestedModule>)>,
    )
        ensures { (self.new, requested_modules.new)
            ≡ spec.on_each (spec.on_requests step) self.old requested_modules.old }
    {
        for i in 0..requested_modules.len() {
            let Some(requests) = requested_modules.get_mut(i) else {
                return
            };
            self.visit_requests(&mut requests.1);
        }
    }

    /// Visits each request, in order.
    fn visit_requests(&mut self, requests: &mut RecordList<RequestedModule>)
        ensures { (self.new, requests.new)
            ≡ spec.on_each (spec.on_requested_module step) self.old requests.old }
    {
        for i in 0..requests.len() {
            let Some(request) = requests.get_mut(i) else {
                return
            };
            self.visit_requested_module(request);
        }
    }

    /// Visits each entry, in order.
    fn visit_import_entries(&mut self, import_entries: &mut RecordList<ImportEntry<'_>>)
        ensures { (self.new, import_entries.new)
            ≡ spec.on_each (spec.on_import_entry step) self.old import_entries.old }
    {
        for i in 0..import_entries.len() {
            let Some(entry) = import_entries.get_mut(i) else {
                return
            };
            self.visit_import_entry(entry);
        }
    }

    /// Visits each entry, in order.
    fn visit_export_entries(&mut self, export_entries: &mut RecordList<ExportEntry<'_>>)
        ensures { (self.new, export_entries.new)
            ≡ spec.on_each (spec.on_export_entry step) self.old export_entries.old }
    {
        for i in 0..export_entries.len() {
            let Some(entry) = export_entries.get_mut(i) else {
                return
            };
            self.visit_export_entry(entry);
        }
    }

    /// Visits each call, in order.
    fn visit_dynamic_imports(&mut self, dynamic_imports: &mut RecordList<DynamicImport>)
        ensures { (self.new, dynamic_imports.new)
            ≡ spec.on_each (spec.on_dynamic_import step) self.old dynamic_imports.old }
    {
        for i in 0..dynamic_imports.len() {
            let Some(import) = dynamic_imports.get_mut(i) else {
                return
            };
            self.visit_dynamic_import(import);
        }
    }

    /// Visits each span, in order.
    fn visit_spans(&mut self, spans: &mut RecordList<Span>)
        ensures { (self.new, spans.new)
            ≡ spec.on_each step self.old spans.old }
    {
        for i in 0..spans.len() {
            let Some(span) = spans.get_mut(i) else { return };
            self.visit_span(span);
        }
    }

    /// Visits the requested modules, the import entries, the local, indirect and star export entries, the calls of
    /// `import` and the places of `import.meta`, and not the exported bindings.
    fn visit_module_record(&mut self, module_record: &mut ModuleRecord<'_>)
        ensures { (self.new, module_record.new)
            ≡ spec.on_module_record step self.old module_record.old }
    {
        self.visit_requested_modules(&mut module_record.requested_modules);
        self.visit_import_entries(&mut module_record.import_entries);
        self.visit_export_entries(&mut module_record.local_export_entries);
        self.visit_export_entries(&mut module_record.indirect_export_entries);
        self.visit_export_entries(&mut module_record.star_export_entries);
        self.visit_dynamic_imports(&mut module_record.dynamic_imports);
        self.visit_spans(&mut module_record.import_metas);
    }
}
