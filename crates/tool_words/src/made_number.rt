//! The number of functions that a made input is to have.

ghost use Rattle.std.specs.Prelude.{◌≡◌, ◌≤◌, IfSome, true};
ghost use Rattle.tool_words.specs.MadeNumber as spec;

// The number that a word is, from 1 to 2,000, without a leading zero.
#[tactic(auto, unfolding(crate::specs::MadeNumber::begins, crate::specs::MadeNumber::made_number))]
pub(crate) fn made_number(word: &str) -> Option<u32>
    ensures number { result ≡ spec.made_number word.now }
    ensures range { IfSome result (λ n. (1 ≤ n) × (n ≤ 2000)) }
{
    let digits = word.as_bytes();
    if digits.is_empty() || digits[0] == b'0' {
        return None;
    }
    number_of(digits)
}

// The number of these digits, the first of which isn't zero, if it is at most 2,000.
fn number_of(digits: &[u8]) -> Option<u32>
    requires some { spec.begins digits.now ≡ true }
    ensures number { result ≡ spec.number_from 0 digits.now }
    ensures range { IfSome result (λ n. (1 ≤ n) × (n ≤ 2000)) }
{
    let mut number = 0;
    for digit in digits {
        number = with_digit(number, *digit)?;
    }
    Some(number)
}

// The number followed by a digit, if that is at most 2,000.
#[tactic(auto, using(std::proofs::lemmas::Bool::Decides::nat_tests), unfolding(crate::specs::MadeNumber::with_digit))]
fn with_digit(number: u32, digit: u8) -> Option<u32>
    requires { number ≤ 2000 }
    ensures { result ≡ spec.with_digit number digit }
{
    if digit < b'0' || digit > b'9' {
        return None;
    }
    let longer = number * 10 + (digit - b'0') as u32;
    if longer <= 2000 { Some(longer) } else { None }
}
