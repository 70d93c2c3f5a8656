//! The entries of a module record.

ghost use Rattle.std.specs.Option.{option_map};
ghost use Rattle.std.specs.Prelude.{◌≡◌};
ghost use Rattle.oxc_str.specs.Str.{text_of};
ghost use Rattle.syntax_module.specs.Entries as spec;

use oxc_str::Str;
use syntax_sem::span::Span;

/// A name and where it stands.
#[derive(Clone, Debug, PartialEq, Eq, Drop)]
pub struct NameSpan<'a> {
    /// The text of the name.
    pub name: Str<'a>,

    /// Where it stands.
    pub span: Span,
}

impl<'a> NameSpan<'a> {
    /// The name that stands there.
    pub fn new(name: Str<'a>, span: Span) -> Self
        ensures { result ≡ record { name = name.entry; span = span } }
    {
        NameSpan { name, span }
    }
}

/// A name that is imported.
#[derive(Clone, Debug, PartialEq, Eq, Drop)]
pub struct ImportEntry<'a> {
    /// Where the declaration stands.
    pub statement_span: Span,

    /// The specifier of the module that it is imported from.
    pub module_request: NameSpan<'a>,

    /// What is imported of that module.
    pub import_name: ImportImportName<'a>,

    /// The name that is bound to it.
    pub local_name: NameSpan<'a>,

    /// Whether it is imported as a type.
    pub is_type: bool,
}

/// What is imported of a module.
#[derive(Clone, Debug, PartialEq, Eq, Drop)]
pub enum ImportImportName<'a> {
    /// A name.
    Name(NameSpan<'a>),
    /// The whole module, by `* as`.
    NamespaceObject,
    /// The default export, and where its name stands.
    Default(Span),
}

impl<'a> ImportImportName<'a> {
    /// Whether it is the default export.
    pub fn is_default(&self) -> bool
        ensures { result ≡ spec.is_default_import self.now }
    {
        matches!(self, Self::Default(_))
    }

    /// Whether it is the whole module.
    pub fn is_namespace_object(&self) -> bool
        ensures { result ≡ spec.is_namespace_object self.now }
    {
        matches!(self, Self::NamespaceObject)
    }
}

/// A name that is exported.
#[derive(Clone, Debug, PartialEq, Eq, Drop)]
pub struct ExportEntry<'a> {
    /// Where the declaration stands.
    pub statement_span: Span,

    /// Where the entry stands in it.
    pub span: Span,

    /// The specifier of the module that it comes from, if it comes from another one.
    pub module_request: Option<NameSpan<'a>>,

    /// What is taken of that module.
    pub import_name: ExportImportName<'a>,

    /// The name that it is exported under.
    pub export_name: ExportExportName<'a>,

    /// The name that it has in the module itself.
    pub local_name: ExportLocalName<'a>,

    /// Whether it is exported as a type.
    pub is_type: bool,
}

impl<'a> Default for ExportEntry<'a> {
    ghost is_default = { λ entry. entry ≡ spec.default_entry };

    fn default() -> Self {
        ExportEntry {
            statement_span: Span::new(0, 0),
            span: Span::new(0, 0),
            module_request: None,
            import_name: ExportImportName::Null,
            export_name: ExportExportName::Null,
            local_name: ExportLocalName::Null,
            is_type: false,
        }
    }
}

/// What an export takes of another module.
#[derive(Clone, Debug, Default, PartialEq, Eq, Drop)]
pub enum ExportImportName<'a> {
    /// A name.
    Name(NameSpan<'a>),
    /// The whole module, by `* as`.
    All,
    /// All of it but its default export, by `*`.
    AllButDefault,
    /// No name.
    #[default]
    Null,
}

impl<'a> ExportImportName<'a> {
    /// Whether it is the whole module.
    pub fn is_all(&self) -> bool
        ensures { result ≡ spec.is_all self.now }
    {
        matches!(self, Self::All)
    }

    /// Whether it is all of the module but its default export.
    pub fn is_all_but_default(&self) -> bool
        ensures { result ≡ spec.is_all_but_default self.now }
    {
        matches!(self, Self::AllButDefault)
    }
}

/// The name under which something is exported.
#[derive(Clone, Debug, Default, PartialEq, Eq, Drop)]
pub enum ExportExportName<'a> {
    /// A name.
    Name(NameSpan<'a>),
    /// `default`, and where it stands.
    Default(Span),
    /// No name.
    #[default]
    Null,
}

impl<'a> ExportExportName<'a> {
    /// Whether it is the default export of `export default`.
    pub fn is_default(&self) -> bool
        ensures { result ≡ spec.is_default_export self.now }
    {
        matches!(self, Self::Default(_))
    }

    /// Whether there is no name.
    pub fn is_null(&self) -> bool
        ensures { result ≡ spec.is_null_export self.now }
    {
        matches!(self, Self::Null)
    }

    /// Where the name stands; `None` where there is no name.
    pub fn span(&self) -> Option<Span>
        ensures { result ≡ spec.export_span self.now }
    {
        match self {
            Self::Name(name) => Some(name.span),
            Self::Default(span) => Some(*span),
            Self::Null => None,
        }
    }

    /// Where the name stands if it is `default`; else `None`.
    pub fn default_export_span(&self) -> Option<Span>
        ensures { result ≡ spec.default_export_span self.now }
    {
        match self {
            Self::Default(span) => Some(*span),
            Self::Name(name) if name.name.as_str() == "default" => Some(name.span),
            _ => None,
        }
    }
}

/// The name in the module of what is exported.
#[derive(Clone, Debug, Default, PartialEq, Eq, Drop)]
pub enum ExportLocalName<'a> {
    /// A name.
    Name(NameSpan<'a>),
    /// The name of a function or class that is exported by `export default`.
    Default(NameSpan<'a>),
    /// No name.
    #[default]
    Null,
}

impl<'a> ExportLocalName<'a> {
    /// Whether it is exported by `export default`.
    pub fn is_default(&self) -> bool
        ensures { result ≡ spec.is_default_local self.now }
    {
        matches!(self, Self::Default(_))
    }

    /// Whether there is no name.
    pub fn is_null(&self) -> bool
        ensures { result ≡ spec.is_null_local self.now }
    {
        matches!(self, Self::Null)
    }

    /// The name; `None` where there is none.
    pub fn name(&self) -> Option<Str<'a>>
        ensures { option_map text_of result ≡ spec.local_text self.now }
    {
        match self {
            Self::Name(name) | Self::Default(name) => Some(name.name),
            Self::Null => None,
        }
    }
}

/// A place where a module is asked for.
#[derive(Clone, Copy, Debug)]
pub struct RequestedModule {
    /// Where the declaration stands.
    pub statement_span: Span,

    /// Where its specifier stands.
    pub span: Span,

    /// Whether it is asked for types alone.
    pub is_type: bool,

    /// Whether it is an import, not an export.
    pub is_import: bool,
}

/// A call of `import`.
#[derive(Clone, Copy, Debug)]
pub struct DynamicImport {
    /// Where the call stands.
    pub span: Span,

    /// Where its argument stands.
    pub module_request: Span,
}
