//! The numbers of the private names of one class.

ghost use Rattle.std.specs.Prelude.{◌≡◌, ◌≤◌, ◌<◌, ◌+◌, ◌^◌, ◌∷◌, ◌++◌, ◌||◌, [], IfOk, OnOk, if◌then◌else◌, length, nat_lt};
ghost use Rattle.class_tables.specs.PrivateTables.{IsWhole, list_in};
ghost use Rattle.place_list.specs.Bounds.{IsBelow};
ghost use Rattle.place_list.specs.TableViews.{classes_at, places_in};
ghost use Rattle.name_rules.specs.PrivateNumbers.{open_names};
ghost use Rattle.private_numbers.specs.Numbers.{AreAt, AreClassNumbers, AreConsecutive, AreNumbers};

use crate::avoided::{class_around, is_avoided, lies_in_open};
use class_tables::PrivateTable;
use free_names::base54;
use std::alloc::{AllocError, Global};

// The numbers of the private names of one class body, none where it is open.
#[derive(Drop)]
pub(crate) struct ClassNumbers {
    pub numbers: Vec<u32>,
}

// The numbers of a class body's private names. Err is want of memory, or of numbers.
pub(crate) fn class_numbers(
    alloc: Global,
    table: &PrivateTable<'_, '_>,
    class_body: u32,
) -> Result<ClassNumbers, AllocError>
    requires whole { IsWhole table.now }
    requires class_body { class_body < length (list_in table.now).class_bodies.items }
    ensures { IfOk result (λ n. AreClassNumbers (list_in table.now) class_body n.numbers.items) }
{
    if table.is_open(class_body) {
        return Ok(ClassNumbers {
            numbers: Vec::new(alloc),
        });
    }
    let outwards = class_around(table, class_body);
    let count = table.private_names(class_body).len();
    let numbers = numbers_inside(alloc, table, outwards, count)?;
    Ok(ClassNumbers { numbers })
}

// The numbers of so many private names of a class that isn't open, inside this class body.
fn numbers_inside(
    alloc: Global,
    table: &PrivateTable<'_, '_>,
    outwards: Option<u32>,
    count: usize,
) -> Result<Vec<u32>, AllocError>
    requires whole { IsWhole table.now }
    requires outwards { IsBelow (length (list_in table.now).class_bodies.items) outwards }
    ensures { IfOk result (λ v. AreNumbers (places_in (list_in table.now)) (classes_at (list_in table.now) outwards) count v.items) }
{
    let first = table.closed_count(outwards);
    if first > 4_294_967_295 || count > 4_294_967_295 - first {
        return Err(AllocError);
    }
    let end = (first + count) as u32;
    if lies_in_open(table, outwards) {
        unlisted(alloc, table, outwards, first as u32, end)
    } else {
        consecutive(alloc, first as u32, end)
    }
}

// The numbers from the first one on, before the end.
fn consecutive(alloc: Global, first: u32, end: u32) -> Result<Vec<u32>, AllocError>
    requires { first ≤ end }
    ensures { IfOk result (λ v. AreConsecutive first end v.items) }
{
    let mut numbers = Vec::new(alloc);
    for number in first..end {
        numbers.push(number)?;
    }
    Ok(numbers)
}

// The numbers at the positions from the first one on, before the end, among those whose short name no open
// class around has. Err is want of memory, or of numbers.
fn unlisted(
    alloc: Global,
    table: &PrivateTable<'_, '_>,
    outwards: Option<u32>,
    first: u32,
    end: u32,
) -> Result<Vec<u32>, AllocError>
    requires whole { IsWhole table.now }
    requires outwards { IsBelow (length (list_in table.now).class_bodies.items) outwards }
    requires ordered { first ≤ end }
    ensures { IfOk result (λ v. AreAt (open_names (places_in (list_in table.now)) (classes_at (list_in table.now) outwards)) first end v.items) }
{
    let mut numbers = Vec::new(alloc);
    let mut passed = 0;
    for number in 0..u32::MAX {
        if passed == end {
            return Ok(numbers);
        }
        let avoided = is_avoided(table, outwards, base54(number).as_str());
        passed = take_in(avoided, first, passed, &mut numbers, number)?;
    }
    Err(AllocError)
}

// Takes in the next number: it is kept where its name isn't avoided and its position is not before the first
// one. Answers how many numbers have passed then.
fn take_in(
    avoided: bool,
    first: u32,
    passed: u32,
    numbers: &mut Vec<u32>,
    number: u32,
) -> Result<u32, AllocError>
    requires { passed + 1 < 2 ^ 32 }
    ensures passed { IfOk result (λ n. n ≡ (if avoided then passed else passed + 1)) }
    ensures numbers { OnOk result (numbers.new.items ≡ (if avoided || nat_lt passed first then numbers.old.items else numbers.old.items ++ number ∷ [])) }
{
    if avoided {
        return Ok(passed);
    }
    if passed >= first {
        numbers.push(number)?;
    }
    Ok(passed + 1)
}
