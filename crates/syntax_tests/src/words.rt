//! Reserved words and value properties of the global object.

use syntax_lex::keyword::{
    GLOBAL_OBJECTS, RESERVED_KEYWORDS, is_global_object, is_reserved_keyword,
    is_reserved_keyword_or_global_object,
};

#[test]
fn words(rt: HostRuntime) {
    for word in RESERVED_KEYWORDS {
        assert!(rt; is_reserved_keyword(word) && !is_global_object(word));
    }
    for word in GLOBAL_OBJECTS {
        assert!(rt; is_global_object(word) && !is_reserved_keyword(word));
    }
    for word in [
        "async",
        "of",
        "eval",
        "arguments",
        "Await",
        "le",
        "lett",
        "",
        "undefinedd",
    ] {
        assert!(rt; !is_reserved_keyword_or_global_object(word), "{word}");
    }
    for word in ["with", "await", "yield", "let", "NaN", "undefined"] {
        assert!(rt; is_reserved_keyword_or_global_object(word), "{word}");
    }
}
