//! Values that are known before a program runs.

ghost use Rattle.oxc_str.specs.Equality.{DecidesEquality};

use oxc_str::CompactStr;

/// The value of an enum member. Numbers are left out: nothing here computes with them.
#[derive(PartialEq, Drop)]
pub enum ConstantValue {
    /// A text.
    String(CompactStr),
}

/// The law that `==` holds exactly between values that are the same.
pub fn constant_values_are_equal_exactly()
    ensures { DecidesEquality ⟦<ConstantValue as PartialEq>⟧.eq }
{}
