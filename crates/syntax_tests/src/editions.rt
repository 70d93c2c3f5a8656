//! Editions of the language, and the words for them.

use std::alloc::{AllocError, Global};
use std::test::Fail;
use syntax_lex::es_target::ESTarget;

#[test]
fn editions(rt: HostRuntime) -> Result<(), Fail> {
    assert!(rt; ESTarget::ES2015 < ESTarget::ES2026 && ESTarget::ES2026 < ESTarget::ESNext);
    assert!(rt; ESTarget::default() == ESTarget::ESNext);
    for (target, word) in [
        (ESTarget::ES2015, "es2015"),
        (ESTarget::ES2026, "es2026"),
        (ESTarget::ESNext, "esnext"),
    ] {
        assert!(rt; format!(in rt.alloc(); "{target}")?.as_str() == word);
    }
    Ok(())
}

// What is said of a word for an edition.
fn told(alloc: Global, word: &str) -> Result<String, AllocError> {
    match ESTarget::from_str(alloc, word) {
        Ok(target) => format!(in alloc; "{target}"),
        Err(fault) => format!(in alloc; "{fault}"),
    }
}

#[test]
fn words_for_editions(rt: HostRuntime) -> Result<(), Fail> {
    let alloc = rt.alloc();
    for (word, expected) in [
        ("es6", "es2015"),
        ("ES6", "es2015"),
        ("es2015", "es2015"),
        ("ES2016", "es2016"),
        ("eS2021", "es2021"),
        ("es2026", "es2026"),
        ("ESNext", "esnext"),
        ("es5", "ES5 is not yet supported."),
        ("ES5", "ES5 is not yet supported."),
        ("ES7", "Invalid target \"ES7\"."),
        ("es2027", "Invalid target \"es2027\"."),
        ("", "Invalid target \"\"."),
    ] {
        assert!(rt; told(alloc, word)?.as_str() == expected);
    }
    Ok(())
}
