//! Editions of the language that a program may be written for.

ghost use Rattle.std.specs.Ordering.{nat_cmp};
ghost use Rattle.std.specs.Prelude.{◌≡◌, IfErr, IfOk, None, Some};
ghost use Rattle.std.specs.Str.{str_to_ascii_lowercase};
ghost use Rattle.syntax_lex.specs.ESTarget as spec;
ghost use Rattle.oxc_str.specs.Equality.{DecidesEquality};
ghost use Rattle.syntax_lex.specs.declared.es_target.TargetError.TheVariants.{Memory};

use oxc_str::CompactStr;
use std::alloc::{AllocError, Global};
use std::fmt;

/// An edition of ECMA-262, in order; the default is what comes after the last one.
#[derive(Clone, Copy, Debug, Default, PartialEq, Eq, PartialOrd, Ord)]
pub enum ESTarget {
    /// ECMAScript 2015.
    ES2015,
    /// ECMAScript 2016.
    ES2016,
    /// ECMAScript 2017.
    ES2017,
    /// ECMAScript 2018.
    ES2018,
    /// ECMAScript 2019.
    ES2019,
    /// ECMAScript 2020.
    ES2020,
    /// ECMAScript 2021.
    ES2021,
    /// ECMAScript 2022.
    ES2022,
    /// ECMAScript 2023.
    ES2023,
    /// ECMAScript 2024.
    ES2024,
    /// ECMAScript 2025.
    ES2025,
    /// ECMAScript 2026.
    ES2026,
    /// What comes after the last edition.
    #[default]
    ESNext,
}

// The editions in order.
const TARGETS: [ESTarget; 13] = [
    ESTarget::ES2015,
    ESTarget::ES2016,
    ESTarget::ES2017,
    ESTarget::ES2018,
    ESTarget::ES2019,
    ESTarget::ES2020,
    ESTarget::ES2021,
    ESTarget::ES2022,
    ESTarget::ES2023,
    ESTarget::ES2024,
    ESTarget::ES2025,
    ESTarget::ES2026,
    ESTarget::ESNext,
];

impl ESTarget {
    /// The edition that a word names, whatever the case of its letters: `es2015` to `es2026`, `esnext`, and
    /// `es6` for the first of these. For `es5` the answer is [`TargetError::Es5`], for another word
    /// [`TargetError::Invalid`], and for want of memory [`TargetError::Memory`].
    pub fn from_str(alloc: Global, s: &str) -> Result<ESTarget, TargetError>
        ensures ok { IfOk result (λ target. spec.target_of (str_to_ascii_lowercase s.now) ≡ Some target) }
        ensures err { IfErr result (λ fault. spec.IsFault s.now fault) }
    {
        let mut lower = String::from_str(alloc, s)?;
        lower.make_ascii_lowercase();
        match target_of(lower.as_str()) {
            Some(target) => Ok(target),
            None => Err(fault_of(alloc, s, lower.as_str())),
        }
    }
}

// The edition that a word in lower case names.
fn target_of(word: &str) -> Option<ESTarget>
    ensures { result ≡ spec.target_of word.now }
{
    if word == "es6" {
        return Some(ESTarget::ES2015);
    }
    target_among(&TARGETS, word)
}

// The first of these editions that a word in lower case names.
fn target_among(targets: &[ESTarget], word: &str) -> Option<ESTarget>
    ensures { result ≡ spec.target_among targets.now word.now }
{
    for target in targets {
        if word == word_of(*target) {
            return Some(*target);
        }
    }
    None
}

// What is wrong with a word, which is `lower` in lower case, that names no edition.
fn fault_of(alloc: Global, word: &str, lower: &str) -> TargetError
    requires lower { lower.now ≡ str_to_ascii_lowercase word.now }
    requires none { spec.target_of lower.now ≡ None }
    ensures { spec.IsFault word.now result }
{
    if lower == "es5" {
        return TargetError::Es5;
    }
    match CompactStr::new(alloc, word) {
        Ok(word) => TargetError::Invalid(word),
        Err(_) => TargetError::Memory,
    }
}

/// Why a word names no edition.
#[derive(Drop)]
pub enum TargetError {
    /// The word is `es5`, in some case.
    Es5,
    /// The word, as it was given, names no edition.
    Invalid(CompactStr),
    /// Out of memory.
    Memory,
}

impl From<AllocError> for TargetError {
    ghost from_gives = { λ _ fault. fault ≡ Memory };

    fn from(_error: AllocError) -> Self {
        TargetError::Memory
    }
}

impl fmt::Display for TargetError {
    ghost use Rattle.std.specs.Prelude.{Some};

    ghost output = { λ fault. Some (spec.fault_text fault) };

    fn fmt<W: fmt::Write>(&self, f: &mut fmt::Formatter<W>) -> fmt::Result {
        match self {
            TargetError::Es5 => f.write_str("ES5 is not yet supported."),
            TargetError::Invalid(word) => write!(f, "Invalid target \"{word}\"."),
            TargetError::Memory => f.write_str("out of memory"),
        }
    }
}

impl fmt::Display for ESTarget {
    ghost use Rattle.std.specs.Prelude.{Some};

    ghost output = { λ target. Some (spec.word_of target) };

    fn fmt<W: fmt::Write>(&self, f: &mut fmt::Formatter<W>) -> fmt::Result {
        f.write_str(word_of(*self))
    }
}

// The word for an edition, in lower case.
fn word_of(target: ESTarget) -> &'static str
    ensures { result.now ≡ spec.word_of target }
{
    match target {
        ESTarget::ES2015 => "es2015",
        ESTarget::ES2016 => "es2016",
        ESTarget::ES2017 => "es2017",
        ESTarget::ES2018 => "es2018",
        ESTarget::ES2019 => "es2019",
        ESTarget::ES2020 => "es2020",
        ESTarget::ES2021 => "es2021",
        ESTarget::ES2022 => "es2022",
        ESTarget::ES2023 => "es2023",
        ESTarget::ES2024 => "es2024",
        ESTarget::ES2025 => "es2025",
        ESTarget::ES2026 => "es2026",
        ESTarget::ESNext => "esnext",
    }
}

/// The law that editions compare as they came out, and that the default is the one to come.
pub fn targets_compare_by_edition(a: ESTarget, b: ESTarget)
    ensures equal { DecidesEquality ⟦<ESTarget as PartialEq>⟧.eq }
    ensures order { ⟦<ESTarget as Ord>⟧.cmp a b ≡ nat_cmp (spec.edition_of a) (spec.edition_of b) }
    ensures next_by_default { ⟦<ESTarget as Default>⟧.is_default a → a ≡ ESTarget.ESNext }
{}
