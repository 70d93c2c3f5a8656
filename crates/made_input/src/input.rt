//! The text of a program with many functions.

ghost use Rattle.std.specs.Prelude.{◌≡◌, ◌≤◌, ◌<◌, ◌+◌, ◌++◌, IfOk, OnOk, false, nat_lt, string_bytes};
ghost use Rattle.made_input.specs.declared.input.TheConstants.{MOST_FUNCTIONS};
ghost use Rattle.made_input.specs.Made.{made_text};
ghost use Rattle.made_input.specs.Pieces.{comma_if, function_text, functions_text};

use std::alloc::{AllocError, Global};

/// The most functions that `make_input` makes.
pub const MOST_FUNCTIONS: u32 = 2_000;

// Before the first function, and after the last one.
const BEFORE_FUNCTIONS: &str = r#"{"type":"Program","start":0,"end":0,"body":["#;

const AFTER_FUNCTIONS: &str = r#"],"sourceType":"module","hashbang":null}"#;

// Before, between and after the two names of a function, which both begin with `f`.
const BEFORE_NAME: &str =
    r#"{"type":"FunctionDeclaration","start":0,"end":0,"id":{"type":"Identifier","start":0,"end":0,"name":"f"#;

const BETWEEN_NAMES: &str =
    r#""},"generator":false,"async":false,"params":[{"type":"Identifier","start":0,"end":0,"name":"a"}],"body":{"type":"BlockStatement","start":0,"end":0,"body":[{"type":"ReturnStatement","start":0,"end":0,"argument":{"type":"CallExpression","start":0,"end":0,"callee":{"type":"Identifier","start":0,"end":0,"name":"f"#;

const AFTER_NAMES: &str =
    r#""},"arguments":[{"type":"Identifier","start":0,"end":0,"name":"a"}],"optional":false}}]},"expression":false}"#;

/// The ESTree in JSON, with no white space and all offsets 0, of the module
/// `function f0(a) { return f0(a) } function f1(a) { return f1(a) } ..`, of `n` functions.
///
/// It is a valid input of the mangler (`made_texts_are_read`).
pub fn make_input(alloc: Global, n: u32) -> Result<String, AllocError>
    requires some { 1 ≤ n }
    requires most { n ≤ MOST_FUNCTIONS }
    ensures { IfOk result (λ text. string_bytes text ≡ made_text n) }
{
    let mut text = String::new(alloc);
    text.push_str(BEFORE_FUNCTIONS)?;
    push_functions(&mut text, n)?;
    text.push_str(AFTER_FUNCTIONS)?;
    Ok(text)
}

// Appends so many functions, with commas between them.
fn push_functions(text: &mut String, count: u32) -> Result<(), AllocError>
    ensures { OnOk result (string_bytes text.new
        ≡ string_bytes text.old ++ functions_text false 0 count) }
{
    for k in 0..count {
        push_function(text, k)?;
    }
    Ok(())
}

// Appends the k-th function, after a comma where it isn't the first.
fn push_function(text: &mut String, k: u32) -> Result<(), AllocError>
    ensures { OnOk result (string_bytes text.new
        ≡ string_bytes text.old ++ (comma_if (nat_lt 0 k) ++ function_text k)) }
{
    let mut buffer = itoa::Buffer::new();
    let digits = buffer.format(k);
    text.push_str(comma_before(k))?;
    text.push_str(BEFORE_NAME)?;
    text.push_str(digits)?;
    text.push_str(BETWEEN_NAMES)?;
    text.push_str(digits)?;
    text.push_str(AFTER_NAMES)?;
    Ok(())
}

// A comma, but for the first function.
fn comma_before(k: u32) -> &'static str
    ensures { result.now ≡ comma_if (nat_lt 0 k) }
{
    if k > 0 { "," } else { "" }
}
