//! The law on the numbers of private names. The function here does nothing: it has the law as its contract.

ghost use Rattle.private_numbers.specs.Laws.{ClassNumbersDiffer};

use name_rules::private_numbers_differ;

/// The law that along the class bodies around a place the numbers of all names that have one are different.
pub fn class_numbers_differ()
    ensures { ClassNumbersDiffer }
{
    private_numbers_differ();
}
