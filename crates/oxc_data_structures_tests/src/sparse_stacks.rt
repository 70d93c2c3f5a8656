ghost use Rattle.std.specs.Prelude.{◌<◌, length};

use oxc_data_structures::stack::SparseStack;
use std::alloc::AllocError;
use std::test::Fail;

// An entry that is made, one that is there, and how many there are and are filled.
fn filled(stack: &mut SparseStack<u32>) -> Result<(u32, u32, usize, usize), AllocError> {
    let made = *stack.last_or_init(|| 5)?;
    let there = *stack.last_or_init(|| 6)?;
    Ok((made, there, stack.len(), stack.filled_len()))
}

fn changed(stack: &mut SparseStack<u32>) -> (Option<u32>, Option<u32>) {
    if let Some(last) = stack.last_mut() {
        *last = 7;
    }
    let last = stack.last().copied();
    (last, stack.take_last())
}

fn first(stack: &mut SparseStack<u32>) -> (bool, Option<u32>) {
    (stack.first_mut().is_none(), stack.first().copied())
}

#[test]
fn a_stack_of_options(rt: HostRuntime) -> Result<(), Fail> {
    let mut stack = SparseStack::new(rt.alloc())?;
    stack.push(None)?;
    stack.reserve_last()?;
    assert!(rt; stack.filled_capacity() >= 1);
    assert!(rt; filled(&mut stack)? == (5, 5, 2, 1));
    assert!(rt; first(&mut stack) == (true, None));
    assert!(rt; changed(&mut stack) == (Some(7), Some(7)));
    Ok(())
}

#[test]
fn an_option_is_made_and_changed(rt: HostRuntime) -> Result<(), Fail> {
    let mut stack = SparseStack::new(rt.alloc())?;
    *stack.last_mut_or_init(|| 7)? += 1;
    assert!(rt; stack.as_slice() == [8].as_slice());
    stack.as_mut_slice().fill(3);
    assert!(rt; changed(&mut stack) == (Some(7), Some(7)));
    Ok(())
}

fn popped(stack: &mut SparseStack<u32>) -> Result<(Option<u32>, Option<u32>, bool), AllocError>
    requires { 0 < length stack.old.items }
{
    stack.push(Some(1))?;
    stack.push(None)?;
    let last = stack.pop();
    let first = stack.pop();
    Ok((last, first, stack.is_exhausted()))
}

#[test]
fn options_are_taken_off(rt: HostRuntime) -> Result<(), Fail> {
    let mut stack = SparseStack::with_capacity(rt.alloc(), 9, 4)?;
    assert!(rt; stack.total_capacity() >= 9 && stack.filled_capacity() >= 4);
    assert!(rt; popped(&mut stack)? == (None, Some(1), true));
    Ok(())
}
