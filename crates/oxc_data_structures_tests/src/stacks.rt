use oxc_data_structures::stack::{CollectError, NonEmptyStack, Stack, TryFromVecError};
use std::alloc::{AllocError, Global};
use std::test::Fail;

fn push_two(stack: &mut Stack<u32>) -> Result<(), AllocError> {
    stack.push(1)?;
    stack.push(2)
}

// The last entry before and after a change of it, once it is taken off, and what is left.
fn last_changed(stack: &mut Stack<u32>) -> (Option<u32>, Option<u32>, usize, Option<u32>) {
    let before = stack.last().copied();
    if let Some(last) = stack.last_mut() {
        *last = 4;
    }
    let popped = stack.pop();
    (
        before,
        popped,
        stack.len(),
        stack.as_slice().first().copied(),
    )
}

fn cleared(stack: &mut Stack<u32>) -> (bool, Option<u32>, Option<u32>) {
    stack.clear();
    let popped = stack.pop();
    (stack.is_empty(), stack.last().copied(), popped)
}

#[test]
fn a_stack_is_a_list(rt: HostRuntime) -> Result<(), Fail> {
    let mut stack = Stack::new(rt.alloc());
    push_two(&mut stack)?;
    assert_eq!(rt; stack.as_slice(), [1, 2].as_slice());
    assert!(rt; last_changed(&mut stack) == (Some(2), Some(4), 1, Some(1)));
    stack.as_mut_slice().fill(5);
    assert!(rt; stack.as_slice() == [5].as_slice());
    assert!(rt; cleared(&mut stack) == (true, None, None));
    Ok(())
}

fn through_a_vec(alloc: Global) -> Result<Vec<u32>, AllocError> {
    let mut stack = Stack::from_vec(vec![in alloc; 7]?);
    stack.push(8)?;
    Ok(stack.into_vec())
}

#[test]
fn a_stack_is_made_of_others(rt: HostRuntime) -> Result<(), Fail> {
    let alloc = rt.alloc();
    assert!(rt; through_a_vec(alloc)?.as_slice() == [7, 8].as_slice());
    assert!(rt; Stack::try_collect(alloc, [7].into_iter())?.as_slice() == [7].as_slice());
    assert!(rt; Stack::<u32>::with_capacity(alloc, 9)?.capacity() >= 9);
    Ok(())
}

fn ends(stack: &NonEmptyStack<u32>) -> (usize, u32, u32, bool) {
    (
        stack.len(),
        *stack.first(),
        *stack.last(),
        stack.is_exhausted(),
    )
}

#[test]
fn a_stack_of_one_entry_at_least(rt: HostRuntime) -> Result<(), Fail> {
    let mut stack = NonEmptyStack::new(rt.alloc(), 1)?;
    stack.push(2)?;
    assert!(rt; ends(&stack) == (2, 1, 2, false));
    assert!(rt; stack.pop() == 2 && stack.is_exhausted());
    stack.as_mut_slice().fill(6);
    assert!(rt; stack.as_slice() == [6].as_slice());
    Ok(())
}

#[test]
fn a_stack_with_room(rt: HostRuntime) -> Result<(), Fail> {
    let stack = NonEmptyStack::with_capacity(rt.alloc(), 9, 8)?;
    assert!(rt; stack.capacity() >= 9);
    assert!(rt; stack.into_vec().as_slice() == [8].as_slice());
    Ok(())
}

#[test]
fn a_stack_of_nothing_is_refused(rt: HostRuntime) -> Result<(), Fail> {
    let alloc = rt.alloc();
    let refused = NonEmptyStack::<u32>::try_from_vec(Vec::new(alloc));
    assert!(rt; matches!(refused, Err(TryFromVecError)));
    let refused = NonEmptyStack::try_collect(alloc, [0; 0].into_iter());
    assert!(rt; matches!(refused, Err(CollectError::Empty(TryFromVecError))));
    let shown = format!(in alloc; "{TryFromVecError}")?;
    assert!(rt; shown.as_str() == "Cannot create a `NonEmptyStack` from an empty `Vec`");
    Ok(())
}

// The ends of a stack that was made, once they are changed.
fn ends_changed<E: Drop>(made: Result<NonEmptyStack<u32>, E>) -> Option<(usize, u32, u32, bool)> {
    let mut stack = made.ok()?;
    *stack.first_mut() = 4;
    *stack.last_mut() = 5;
    Some(ends(&stack))
}

#[test]
fn a_stack_of_others_is_made(rt: HostRuntime) -> Result<(), Fail> {
    let alloc = rt.alloc();
    let made = NonEmptyStack::try_from_vec(vec![in alloc; 1, 2]?);
    assert!(rt; ends_changed(made) == Some((2, 4, 5, false)));
    let made = NonEmptyStack::try_collect(alloc, [7].into_iter());
    assert!(rt; ends_changed(made) == Some((1, 5, 5, true)));
    Ok(())
}
