//! A stack of any length.

ghost use Rattle.std.specs.Prelude.{◌≡◌, ◌<◌, ◌≤◌, ◌-◌, ◌++◌, ◌∷◌, ◌↔◌, [], length, slice_get, vec_capacity, IfNone, IfOk, IfSome, IsOk, IsTrue, OnErr, OnOk};
ghost use Rattle.std.specs.Borrow.{sem};
ghost use Rattle.std.specs.Iterator.{IsFinite};
ghost use Rattle.std.specs.Iterator.Runs.{WholeRun};
ghost use Rattle.std.specs.Option.{option_copied, option_copied_mut};

use std::alloc::{AllocError, Global};
use std::marker::Model;

/// A list whose last entry is on top.
///
/// A push that is refused for want of memory leaves the stack as it was.
#[derive(Drop)]
pub struct Stack<T> {
    /// The entries, the top one last.
    items: Vec<T>,
}

impl<T> Model for Stack<T> {
    ghost use Rattle.std.specs.Prelude.{vec_capacity};
    ghost use Rattle.oxc_data_structures.specs.Stack.{Entries};

    ghost Value = { Entries T };

    ghost view = { λ s. record { items = s.items.items; capacity = vec_capacity s.items } };
}

impl<T> Stack<T> {
    ghost use Rattle.oxc_data_structures.specs.Stack.{Becomes};
    ghost use Rattle.oxc_data_structures.specs.StackLends.{LendsEntry, LendsEntries};

    /// An empty stack.
    pub fn new(alloc: Global) -> Self
        ensures { result.items ≡ [] }
    {
        Stack {
            items: Vec::new(alloc),
        }
    }

    /// An empty stack with room for `capacity` entries.
    pub fn with_capacity(alloc: Global, capacity: usize) -> Result<Self, AllocError>
        ensures items { IfOk result (λ s. s.items ≡ []) }
        ensures room { IfOk result (λ s. capacity ≤ s.capacity) }
    {
        Ok(Stack {
            items: Vec::with_capacity(alloc, capacity)?,
        })
    }

    /// Puts an entry on top.
    pub fn push(&mut self, value: T) -> Result<(), AllocError>
    where
        T: Drop,
        ensures ok { OnOk result (Becomes self.old self.new (self.old.items ++ value ∷ [])) }
        ensures err { OnErr result (Becomes self.old self.new self.old.items) }
        ensures succeeds { length self.old.items < self.old.capacity → IsOk result }
    {
        self.items.push(value)?;
        Ok(())
    }

    /// Takes the top entry off. `None` where there is none.
    pub fn pop(&mut self) -> Option<T>
        ensures some { IfSome result (λ x. self.old.items ≡ self.new.items ++ x ∷ []) }
        ensures none { IfNone result ((self.old.items ≡ []) × (self.new.items ≡ [])) }
        ensures capacity { self.new.capacity ≡ self.old.capacity }
    {
        self.items.pop()
    }

    /// The top entry. `None` where there is none.
    pub fn last(&self) -> Option<&T>
        ensures { option_copied result ≡ slice_get self.now.items (length self.now.items - 1) }
    {
        self.items.last()
    }

    /// The top entry, to be changed. `None` where there is none.
    pub fn last_mut(&mut self) -> Option<&mut T>
        ensures* writes_back { sem 𝓛 (LendsEntry T.row self.entry (length self.old.items - 1) result) }
        ensures value { option_copied_mut result ≡ slice_get self.old.items (length self.old.items - 1) }
    {
        self.items.last_mut()
    }

    /// Takes every entry off.
    pub fn clear(&mut self)
    where
        T: Drop,
        ensures items { self.new.items ≡ [] }
        ensures capacity { self.new.capacity ≡ self.old.capacity }
    {
        self.items.clear();
    }

    /// How many entries it has.
    pub fn len(&self) -> usize
        ensures { result ≡ length self.now.items }
    {
        self.items.len()
    }

    /// Whether it has no entry.
    pub fn is_empty(&self) -> bool
        ensures { IsTrue result ↔ (self.now.items ≡ []) }
    {
        self.items.is_empty()
    }

    /// How many entries it has room for.
    pub fn capacity(&self) -> usize
        ensures { result ≡ self.now.capacity }
    {
        self.items.capacity()
    }

    /// The entries, the top one last.
    pub fn as_slice(&self) -> &[T]
        ensures { result.now ≡ self.now.items }
    {
        self.items.as_slice()
    }

    /// The entries, the top one last, to be changed.
    pub fn as_mut_slice(&mut self) -> &mut [T]
        ensures* writes_back { sem 𝓛 (LendsEntries T.row self.entry result) }
        ensures value { result.now ≡ self.old.items }
    {
        self.items.as_mut_slice()
    }

    /// The entries, the top one last, as a `Vec`.
    pub fn into_vec(self) -> Vec<T>
        ensures { result.items ≡ self.items }
    {
        self.items
    }

    /// A stack of the entries of `vec`, the last one on top.
    pub fn from_vec(vec: Vec<T>) -> Self
        ensures items { result.items ≡ vec.items }
        ensures capacity { result.capacity ≡ vec_capacity vec }
    {
        Stack { items: vec }
    }

    /// A stack of the items of `iter`, the last one on top.
    pub fn try_collect<I: Iterator<Item = T> + Drop>(
        alloc: Global,
        iter: I,
    ) -> Result<Self, AllocError>
    where
        T: Drop,
        requires can { I.can_next iter }
        requires ends { IsFinite (I.remaining iter) }
        ensures { IfOk result (λ s. WholeRun I.next_gives iter (λ p. s.items ≡ p.items)) }
    {
        Ok(Stack {
            items: iter.collect(alloc)?,
        })
    }
}
