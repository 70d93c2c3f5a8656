//! Bases of numbers.

use syntax_lex::number::{BigintBase, NumberBase};

#[test]
fn bases_of_numbers(rt: HostRuntime) {
    for base in [NumberBase::Float, NumberBase::Decimal] {
        assert!(rt; base.is_base_10());
    }
    for base in [NumberBase::Binary, NumberBase::Octal, NumberBase::Hex] {
        assert!(rt; !base.is_base_10());
    }
}

#[test]
fn bases_of_bigints(rt: HostRuntime) {
    assert!(rt; BigintBase::Decimal.is_base_10());
    for base in [BigintBase::Binary, BigintBase::Octal, BigintBase::Hex] {
        assert!(rt; !base.is_base_10());
    }
}
