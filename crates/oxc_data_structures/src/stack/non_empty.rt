//! A stack that is never empty.

ghost use Rattle.std.specs.Prelude.{◌≡◌, ◌<◌, ◌≤◌, ◌-◌, ◌++◌, ◌∷◌, ◌↔◌, [], codes, length, slice_get, vec_capacity, Err, IfOk, IsErr, IsOk, IsTrue, OnErr, OnOk, Some};
ghost use Rattle.std.specs.Borrow.{sem};
ghost use Rattle.std.specs.Iterator.{IsFinite};
ghost use Rattle.std.specs.Iterator.Runs.{WholeRun};

use std::alloc::{AllocError, Global};
use std::error::Error;
use std::fmt;
use std::marker::Model;

/// No `NonEmptyStack` has the entries of an empty `Vec`.
#[derive(Clone, Copy, Debug, PartialEq, Eq)]
pub struct TryFromVecError;

impl fmt::Display for TryFromVecError {
    ghost output = { λ _. Some (codes "Cannot create a `NonEmptyStack` from an empty `Vec`") };

    fn fmt<W: fmt::Write>(&self, f: &mut fmt::Formatter<W>) -> fmt::Result {
        f.write_str("Cannot create a `NonEmptyStack` from an empty `Vec`")
    }
}

impl Error for TryFromVecError {}

/// Why the items of an iterator did not become a `NonEmptyStack`.
#[derive(Debug, Drop)]
pub enum CollectError {
    /// The iterator gave nothing.
    Empty(TryFromVecError),
    /// Memory ran out.
    Memory,
}

/// A list of at least one entry, whose last one is on top.
///
/// A push that is refused for want of memory leaves the stack as it was.
#[derive(Drop)]
pub struct NonEmptyStack<T> {
    /// The entries, the top one last.
    items: Vec<T>,
}

impl<T> Model for NonEmptyStack<T> {
    ghost use Rattle.std.specs.Prelude.{◌<◌, length, vec_capacity};
    ghost use Rattle.oxc_data_structures.specs.Stack.{Entries};

    ghost Value = { Entries T };

    ghost view = { λ s. record { items = s.items.items; capacity = vec_capacity s.items } };

    ghost invariant = { λ s. 0 < length s.items.items };
}

impl<T> NonEmptyStack<T> {
    ghost use Rattle.oxc_data_structures.specs.Stack.{Becomes};
    ghost use Rattle.oxc_data_structures.specs.NonEmptyStackLends.{LendsEntry, LendsEntries};
    ghost use Rattle.oxc_data_structures.specs.declared.stack.non_empty.CollectError.TheVariants.{Empty};

    /// A stack of one entry.
    pub fn new(alloc: Global, initial_value: T) -> Result<Self, AllocError>
    where
        T: Drop,
        ensures { IfOk result (λ s. s.items ≡ initial_value ∷ []) }
    {
        Self::with_capacity(alloc, 1, initial_value)
    }

    /// A stack of one entry with room for `capacity` entries.
    pub fn with_capacity(
        alloc: Global,
        capacity: usize,
        initial_value: T,
    ) -> Result<Self, AllocError>
    where
        T: Drop,
        requires { 0 < capacity }
        ensures items { IfOk result (λ s. s.items ≡ initial_value ∷ []) }
        ensures room { IfOk result (λ s. capacity ≤ s.capacity) }
    {
        let mut items = Vec::with_capacity(alloc, capacity)?;
        items.push_reserved(initial_value);
        Ok(NonEmptyStack { items })
    }

    /// The bottom entry.
    pub fn first(&self) -> &T
        ensures { Some result.now ≡ slice_get self.now.items 0 }
    {
        &self.items[0]
    }

    /// The bottom entry, to be changed.
    pub fn first_mut(&mut self) -> &mut T
        ensures* writes_back { sem 𝓛 (LendsEntry T.row self.entry 0 result) }
        ensures value { Some result.now ≡ slice_get self.old.items 0 }
    {
        &mut self.items[0]
    }

    /// The top entry.
    pub fn last(&self) -> &T
        ensures { Some result.now ≡ slice_get self.now.items (length self.now.items - 1) }
    {
        &self.items[self.items.len() - 1]
    }

    /// The top entry, to be changed.
    pub fn last_mut(&mut self) -> &mut T
        ensures* writes_back { sem 𝓛 (LendsEntry T.row self.entry (length self.old.items - 1) result) }
        ensures value { Some result.now ≡ slice_get self.old.items (length self.old.items - 1) }
    {
        let last = self.items.len() - 1;
        &mut self.items[last]
    }

    /// Puts an entry on top.
    pub fn push(&mut self, value: T) -> Result<(), AllocError>
    where
        T: Drop,
        ensures ok { OnOk result (Becomes self.old self.new (self.old.items ++ value ∷ [])) }
        ensures err { OnErr result (Becomes self.old self.new self.old.items) }
        ensures succeeds { length self.old.items < self.old.capacity → IsOk result }
    {
        self.items.push(value)?;
        Ok(())
    }

    /// Takes the top entry off, of at least two.
    pub fn pop(&mut self) -> T
        requires { 1 < length self.old.items }
        ensures items { self.old.items ≡ self.new.items ++ result ∷ [] }
        ensures capacity { self.new.capacity ≡ self.old.capacity }
    {
        self.items.take_last()
    }

    /// How many entries it has.
    pub fn len(&self) -> usize
        ensures len { result ≡ length self.now.items }
        ensures not_empty { 0 < length self.now.items }
    {
        self.items.len()
    }

    /// How many entries it has room for.
    pub fn capacity(&self) -> usize
        ensures { result ≡ self.now.capacity }
    {
        self.items.capacity()
    }

    /// Whether one entry alone is left, which cannot be taken off.
    pub fn is_exhausted(&self) -> bool
        ensures { IsTrue result ↔ (length self.now.items ≡ 1) }
    {
        self.items.len() == 1
    }

    /// The entries, the top one last.
    pub fn as_slice(&self) -> &[T]
        ensures { result.now ≡ self.now.items }
    {
        self.items.as_slice()
    }

    /// The entries, the top one last, to be changed.
    pub fn as_mut_slice(&mut self) -> &mut [T]
        ensures* writes_back { sem 𝓛 (LendsEntries T.row self.entry result) }
        ensures value { result.now ≡ self.old.items }
    {
        self.items.as_mut_slice()
    }

    /// The entries, the top one last, as a `Vec`.
    pub fn into_vec(self) -> Vec<T>
        ensures { result.items ≡ self.items }
    {
        self.items
    }

    /// A stack of the entries of `vec`, the last one on top. An error where there is none.
    pub fn try_from_vec(vec: Vec<T>) -> Result<Self, TryFromVecError>
    where
        T: Drop,
        ensures items { IfOk result (λ s. s.items ≡ vec.items) }
        ensures capacity { IfOk result (λ s. s.capacity ≡ vec_capacity vec) }
        ensures err { IsErr result ↔ (vec.items ≡ []) }
    {
        if vec.is_empty() {
            return Err(TryFromVecError);
        }
        Ok(NonEmptyStack { items: vec })
    }

    /// A stack of the items of `iter`, the last one on top.
    ///
    /// The error is `Empty` where the iterator gives nothing, and `Memory` where memory runs out.
    pub fn try_collect<I: Iterator<Item = T> + Drop>(
        alloc: Global,
        iter: I,
    ) -> Result<Self, CollectError>
    where
        T: Drop,
        requires can { I.can_next iter }
        requires ends { IsFinite (I.remaining iter) }
        ensures items { IfOk result (λ s. WholeRun I.next_gives iter (λ p. s.items ≡ p.items)) }
        ensures not_empty { IfOk result (λ s. 0 < length s.items) }
        ensures empty { result ≡ Err (Empty (record {})) → WholeRun I.next_gives iter (λ p. p.items ≡ []) }
    {
        let Ok(items) = iter.collect(alloc) else {
            return Err(CollectError::Memory);
        };
        match Self::try_from_vec(items) {
            Ok(stack) => Ok(stack),
            Err(empty) => Err(CollectError::Empty(empty)),
        }
    }
}
