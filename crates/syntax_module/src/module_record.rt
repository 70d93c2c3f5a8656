//! Module records: what a module imports and exports, with where each of it stands (ECMA-262, 16.2.1.6).

ghost use Rattle.std.specs.Prelude.{◌≡◌, Ok};
ghost use Rattle.syntax_module.specs.ModuleRecord as spec;

mod entries;
pub mod laws;
mod record_list;
mod visit_mut;

pub use entries::{
    DynamicImport, ExportEntry, ExportExportName, ExportImportName, ExportLocalName, ImportEntry,
    ImportImportName, NameSpan, RequestedModule,
};
use oxc_str::Str;
pub use record_list::RecordList;
use std::alloc::{AllocError, Global};
use syntax_sem::span::Span;
pub use visit_mut::VisitMutModuleRecord;

/// What a module imports and exports. Of equal keys in a list of pairs each stands, in the order in which they
/// were pushed.
#[derive(Drop)]
pub struct ModuleRecord<'a> {
    /// Whether the module has an import or export declaration, or `import.meta`.
    pub has_module_syntax: bool,

    /// The modules that are asked for, by their specifiers, with each place where that is done.
    pub requested_modules: RecordList<(Str<'a>, RecordList<RequestedModule>)>,

    /// The names that are imported.
    pub import_entries: RecordList<ImportEntry<'a>>,

    /// What is exported of the module itself.
    pub local_export_entries: RecordList<ExportEntry<'a>>,

    /// What is exported of another module, by name.
    pub indirect_export_entries: RecordList<ExportEntry<'a>>,

    /// The `export * from`.
    pub star_export_entries: RecordList<ExportEntry<'a>>,

    /// The names that are exported, with where each is.
    pub exported_bindings: RecordList<(Str<'a>, Span)>,

    /// The calls of `import`.
    pub dynamic_imports: RecordList<DynamicImport>,

    /// The places of `import.meta`.
    pub import_metas: RecordList<Span>,
}

impl<'a> ModuleRecord<'a> {
    /// A record of nothing. This is never refused.
    pub fn new(alloc: Global) -> Result<Self, AllocError>
        ensures { result ≡ Ok spec.empty_record }
    {
        Ok(ModuleRecord {
            has_module_syntax: false,
            requested_modules: RecordList::new(alloc),
            import_entries: RecordList::new(alloc),
            local_export_entries: RecordList::new(alloc),
            indirect_export_entries: RecordList::new(alloc),
            star_export_entries: RecordList::new(alloc),
            exported_bindings: RecordList::new(alloc),
            dynamic_imports: RecordList::new(alloc),
            import_metas: RecordList::new(alloc),
        })
    }
}
