//! Laws of the entries, each the contract of a function that does nothing.

ghost use Rattle.oxc_str.specs.Equality.{ComparesBy};
ghost use Rattle.std.specs.Prelude.{◌≡◌};
ghost use Rattle.syntax_module.specs.Contents as contents;
ghost use Rattle.syntax_module.specs.Entries.{default_entry};

use super::{
    ExportEntry, ExportExportName, ExportImportName, ExportLocalName, ImportEntry,
    ImportImportName, NameSpan,
};
use syntax_sem::span::spans_are_equal_exactly;

/// Two names are equal exactly where their texts and their places are.
pub fn name_spans_compare_by_content()
    ensures { ComparesBy contents.name_span ⟦<NameSpan<'static> as PartialEq>⟧.eq }
{}

/// Two names of an import are equal exactly where they are of one kind, with the same text and place.
pub fn import_names_compare_by_content()
    ensures { ComparesBy contents.import_import_name ⟦<ImportImportName<'static> as PartialEq>⟧.eq }
{}

/// Two names of what an export takes are equal exactly where they are of one kind, with the same text and place.
pub fn taken_names_compare_by_content()
    ensures { ComparesBy contents.export_import_name ⟦<ExportImportName<'static> as PartialEq>⟧.eq }
{}

/// Two names of exports are equal exactly where they are of one kind, with the same text and place.
pub fn export_names_compare_by_content()
    ensures { ComparesBy contents.export_export_name ⟦<ExportExportName<'static> as PartialEq>⟧.eq }
{}

/// Two local names are equal exactly where they are of one kind, with the same text and place.
pub fn local_names_compare_by_content()
    ensures { ComparesBy contents.export_local_name ⟦<ExportLocalName<'static> as PartialEq>⟧.eq }
{}

/// Two entries of imports are equal exactly where all their fields are, names by their texts and places.
pub fn import_entries_compare_by_content()
    ensures { ComparesBy contents.import_entry ⟦<ImportEntry<'static> as PartialEq>⟧.eq }
{
    spans_are_equal_exactly();
    name_spans_compare_by_content();
    import_names_compare_by_content();
}

/// Two entries of exports are equal exactly where all their fields are, names by their texts and places.
pub fn export_entries_compare_by_content()
    ensures { ComparesBy contents.export_entry ⟦<ExportEntry<'static> as PartialEq>⟧.eq }
{
    spans_are_equal_exactly();
    name_spans_compare_by_content();
    taken_names_compare_by_content();
    export_names_compare_by_content();
    local_names_compare_by_content();
}

/// The default of an entry is an entry of nothing, and of a name that there is none.
pub fn defaults_are_null(
    entry: ExportEntry<'static>,
    import_name: ExportImportName<'static>,
    export_name: ExportExportName<'static>,
    local_name: ExportLocalName<'static>,
)
    ensures entry { ⟦<ExportEntry<'static> as Default>⟧.is_default entry.entry → entry.entry ≡ default_entry }
    ensures import_name { ⟦<ExportImportName<'static> as Default>⟧.is_default import_name.entry → import_name.entry ≡ ExportImportName.Null }
    ensures export_name { ⟦<ExportExportName<'static> as Default>⟧.is_default export_name.entry → export_name.entry ≡ ExportExportName.Null }
    ensures local_name { ⟦<ExportLocalName<'static> as Default>⟧.is_default local_name.entry → local_name.entry ≡ ExportLocalName.Null }
{}
