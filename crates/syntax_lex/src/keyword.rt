//! Reserved words (ECMA-262, 12.7.2) and value properties of the global object (ECMA-262, 19.1).

ghost use Rattle.std.specs.Prelude.{◌||◌, ◌≡◌, IsTrue, map};
ghost use Rattle.syntax_lex.specs.Keyword as spec;

/// The reserved words, also those that are reserved in some contexts or by strict mode alone, sorted.
pub const RESERVED_KEYWORDS: [&str; 46] = [
    "await",
    "break",
    "case",
    "catch",
    "class",
    "const",
    "continue",
    "debugger",
    "default",
    "delete",
    "do",
    "else",
    "enum",
    "export",
    "extends",
    "false",
    "finally",
    "for",
    "function",
    "if",
    "implements",
    "import",
    "in",
    "instanceof",
    "interface",
    "let",
    "new",
    "null",
    "package",
    "private",
    "protected",
    "public",
    "return",
    "static",
    "super",
    "switch",
    "this",
    "throw",
    "true",
    "try",
    "typeof",
    "var",
    "void",
    "while",
    "with",
    "yield",
];

/// The value properties of the global object, sorted.
pub const GLOBAL_OBJECTS: [&str; 4] = ["Infinity", "NaN", "globalThis", "undefined"];

/// Whether a text is a reserved word.
pub fn is_reserved_keyword(s: &str) -> bool
    ensures { result ≡ spec.is_reserved_keyword s.now }
{
    RESERVED_KEYWORDS.contains(&s)
}

/// Whether a text names a value property of the global object.
pub fn is_global_object(s: &str) -> bool
    ensures { result ≡ spec.is_global_object s.now }
{
    GLOBAL_OBJECTS.contains(&s)
}

/// Whether a text is a reserved word or names a value property of the global object.
pub fn is_reserved_keyword_or_global_object(s: &str) -> bool
    ensures { result ≡ (spec.is_reserved_keyword s.now || spec.is_global_object s.now) }
{
    is_reserved_keyword(s) || is_global_object(s)
}

/// The law that the word arrays hold the words in order, each once.
pub fn words_are_sorted()
    ensures reserved { map (λ word. word.now) RESERVED_KEYWORDS ≡ spec.reserved_keywords }
    ensures global { map (λ word. word.now) GLOBAL_OBJECTS ≡ spec.global_objects }
    ensures reserved_rise { IsTrue (spec.are_rising spec.reserved_keywords) }
    ensures global_rise { IsTrue (spec.are_rising spec.global_objects) }
{}
