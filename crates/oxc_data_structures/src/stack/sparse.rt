//! A stack of entries that are mostly absent.

ghost use Rattle.std.specs.Prelude.{◌≡◌, ◌<◌, ◌≤◌, ◌-◌, ◌++◌, ◌∷◌, ◌↔◌, [], length, slice_get, slice_set, IfOk, IsOk, IsSome, IsTrue, OnErr, OnOk, Some, None};
ghost use Rattle.std.specs.Borrow.{sem};
ghost use Rattle.std.specs.Option.{ForNone, option_copied, option_copied_mut};

use std::alloc::{AllocError, Global};
use std::marker::Model;

/// A list of at least one `Option`, whose last entry is on top.
///
/// The entries that are `Some` are its filled entries. An entry that is `None` takes one byte, so
/// this is a small stack where few entries are filled.
///
/// A push that is refused for want of memory leaves the entries as they were.
#[derive(Drop)]
pub struct SparseStack<T> {
    /// Whether each entry is filled.
    has_values: Vec<bool>,
    /// The values of the filled entries.
    values: Vec<T>,
}

impl<T> Model for SparseStack<T> {
    ghost use Rattle.std.specs.Prelude.{vec_capacity};
    ghost use Rattle.oxc_data_structures.specs.SparseStack.{Entries, IsStored, entries_of};

    ghost Value = { Entries T };

    ghost view = { λ s. record {
      items = entries_of s.has_values.items s.values.items;
      total_capacity = vec_capacity s.has_values;
      filled_capacity = vec_capacity s.values;
    } };

    ghost invariant = { λ s. IsStored s.has_values.items s.values.items };
}

impl<T> SparseStack<T> {
    ghost use Rattle.oxc_data_structures.specs.SparseStack.{Becomes, FillsTop, HasRoomOnTop, IsKeptOrMade, bottom, filled_values, top, with_top};
    ghost use Rattle.oxc_data_structures.specs.SparseStackLends.{FillsTopAs, LendsEntry, LendsTop, LendsValues};

    /// A stack of one entry, which is `None`.
    pub fn new(alloc: Global) -> Result<Self, AllocError>
    where
        T: Drop,
        ensures { IfOk result (λ s. s.items ≡ None ∷ []) }
    {
        Self::with_capacity(alloc, 1, 0)
    }

    /// A stack of one entry, which is `None`, with room for `total_capacity` entries, of which
    /// `filled_capacity` are filled.
    pub fn with_capacity(
        alloc: Global,
        total_capacity: usize,
        filled_capacity: usize,
    ) -> Result<Self, AllocError>
    where
        T: Drop,
        requires { 0 < total_capacity }
        ensures items { IfOk result (λ s. s.items ≡ None ∷ []) }
        ensures total_room { IfOk result (λ s. total_capacity ≤ s.total_capacity) }
        ensures filled_room { IfOk result (λ s. filled_capacity ≤ s.filled_capacity) }
    {
        let mut has_values = Vec::with_capacity(alloc, total_capacity)?;
        has_values.push_reserved(false);
        let values = Vec::with_capacity(alloc, filled_capacity)?;
        Ok(SparseStack { has_values, values })
    }

    /// Puts an entry on top.
    ///
    /// It makes room in both parts before it changes either.
    pub fn push(&mut self, value: Option<T>) -> Result<(), AllocError>
    where
        T: Drop,
        ensures ok { OnOk result (Becomes self.old self.new (self.old.items ++ value ∷ [])) }
        ensures err { OnErr result (Becomes self.old self.new self.old.items) }
        ensures succeeds { length self.old.items < self.old.total_capacity
            → (IsSome value → length (filled_values self.old.items) < self.old.filled_capacity)
            → IsOk result }
    {
        self.has_values.reserve(1)?;
        match value {
            Some(value) => {
                self.values.push(value)?;
                self.has_values.push_reserved(true);
            }
            None => self.has_values.push_reserved(false),
        }
        Ok(())
    }

    /// Takes the top entry off, of at least two.
    pub fn pop(&mut self) -> Option<T>
        requires { 1 < length self.old.items }
        ensures items { self.old.items ≡ self.new.items ++ result ∷ [] }
        ensures total_capacity { self.new.total_capacity ≡ self.old.total_capacity }
        ensures filled_capacity { self.new.filled_capacity ≡ self.old.filled_capacity }
    {
        if self.has_values.take_last() {
            self.values.pop()
        } else {
            None
        }
    }

    /// The bottom entry's value. `None` where that entry is.
    pub fn first(&self) -> Option<&T>
        ensures { option_copied result ≡ bottom self.now }
    {
        if self.has_values[0] {
            self.values.first()
        } else {
            None
        }
    }

    /// The bottom entry's value, to be changed. `None` where that entry is.
    pub fn first_mut(&mut self) -> Option<&mut T>
        ensures* writes_back { sem 𝓛 (LendsEntry T.row self.entry 0 result) }
        ensures value { option_copied_mut result ≡ bottom self.old }
    {
        if self.has_values[0] {
            self.values.first_mut()
        } else {
            None
        }
    }

    /// The top entry's value. `None` where that entry is.
    pub fn last(&self) -> Option<&T>
        ensures { option_copied result ≡ top self.now }
    {
        if self.has_values[self.has_values.len() - 1] {
            self.values.last()
        } else {
            None
        }
    }

    /// The top entry's value, to be changed. `None` where that entry is.
    pub fn last_mut(&mut self) -> Option<&mut T>
        ensures* writes_back { sem 𝓛 (LendsEntry T.row self.entry (length self.old.items - 1) result) }
        ensures value { option_copied_mut result ≡ top self.old }
    {
        if self.has_values[self.has_values.len() - 1] {
            self.values.last_mut()
        } else {
            None
        }
    }

    /// Takes the top entry's value out, which leaves that entry `None`.
    pub fn take_last(&mut self) -> Option<T>
        ensures value { result ≡ top self.old }
        ensures items { self.new.items ≡ with_top self.old None }
        ensures total_capacity { self.new.total_capacity ≡ self.old.total_capacity }
        ensures filled_capacity { self.new.filled_capacity ≡ self.old.filled_capacity }
    {
        let last = self.has_values.len() - 1;
        if self.has_values[last] {
            self.has_values[last] = false;
            self.values.pop()
        } else {
            None
        }
    }

    /// Makes room for the top entry's value where that entry is `None`.
    ///
    /// After it, [`last_or_init`](Self::last_or_init) and
    /// [`last_mut_or_init`](Self::last_mut_or_init) are Ok.
    pub fn reserve_last(&mut self) -> Result<(), AllocError>
        ensures room { OnOk result (HasRoomOnTop self.new) }
        ensures entries { Becomes self.old self.new self.old.items }
        ensures succeeds { HasRoomOnTop self.old → IsOk result }
    {
        if !self.has_values[self.has_values.len() - 1] {
            self.values.reserve(1)?;
        }
        Ok(())
    }

    /// The top entry's value, which `init` makes first where that entry is `None`.
    ///
    /// It makes room before it calls `init`: where that is refused, `init` isn't called.
    pub fn last_or_init<I: FnOnce() -> T>(&mut self, init: I) -> Result<&T, AllocError>
    where
        T: Drop,
        I: Drop,
        requires { ForNone (top self.old) (I.pre init) }
        ensures* fills { sem 𝓛 (FillsTopAs T.row self.entry (I.post init) result) }
        ensures value { IfOk result (λ x. IsKeptOrMade (top self.old) (I.post init) x.now) }
        ensures succeeds { HasRoomOnTop self.old → IsOk result }
    {
        self.reserve_last()?;
        self.fill_last(init);
        let last = self.values.len() - 1;
        Ok(&self.values[last])
    }

    /// The top entry's value, to be changed, which `init` makes first where that entry is `None`.
    ///
    /// It makes room before it calls `init`: where that is refused, `init` isn't called.
    pub fn last_mut_or_init<I: FnOnce() -> T>(&mut self, init: I) -> Result<&mut T, AllocError>
    where
        T: Drop,
        I: Drop,
        requires { ForNone (top self.old) (I.pre init) }
        ensures* writes_back { sem 𝓛 (LendsTop T.row self.entry result) }
        ensures value { IfOk result (λ x. IsKeptOrMade (top self.old) (I.post init) x.now) }
        ensures succeeds { HasRoomOnTop self.old → IsOk result }
    {
        self.reserve_last()?;
        self.fill_last(init);
        let last = self.values.len() - 1;
        Ok(&mut self.values[last])
    }

    // Fills the top entry by `init` where it is `None`, with room for it.
    fn fill_last<I: FnOnce() -> T>(&mut self, init: I)
    where
        T: Drop,
        I: Drop,
        requires room { HasRoomOnTop self.old }
        requires callable { ForNone (top self.old) (I.pre init) }
        ensures { (value : T) × FillsTop self.old self.new (I.post init) value }
    {
        let last = self.has_values.len() - 1;
        if self.has_values[last] {
            return;
        }
        self.values.push_reserved(init());
        self.has_values[last] = true;
    }

    /// How many entries it has.
    pub fn len(&self) -> usize
        ensures len { result ≡ length self.now.items }
        ensures not_empty { 0 < length self.now.items }
    {
        self.has_values.len()
    }

    /// Whether one entry alone is left, which cannot be taken off.
    pub fn is_exhausted(&self) -> bool
        ensures { IsTrue result ↔ (length self.now.items ≡ 1) }
    {
        self.has_values.len() == 1
    }

    /// How many entries are filled.
    pub fn filled_len(&self) -> usize
        ensures { result ≡ length (filled_values self.now.items) }
    {
        self.values.len()
    }

    /// How many entries it has room for.
    pub fn total_capacity(&self) -> usize
        ensures { result ≡ self.now.total_capacity }
    {
        self.has_values.capacity()
    }

    /// How many filled entries it has room for.
    pub fn filled_capacity(&self) -> usize
        ensures { result ≡ self.now.filled_capacity }
    {
        self.values.capacity()
    }

    /// The values of the filled entries, the top one last.
    pub fn as_slice(&self) -> &[T]
        ensures { result.now ≡ filled_values self.now.items }
    {
        self.values.as_slice()
    }

    /// The values of the filled entries, the top one last, to be changed.
    pub fn as_mut_slice(&mut self) -> &mut [T]
        ensures* writes_back { sem 𝓛 (LendsValues T.row self.entry result) }
        ensures value { result.now ≡ filled_values self.old.items }
    {
        self.values.as_mut_slice()
    }
}
