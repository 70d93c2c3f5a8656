//! Cursors over a slice: iterators that can look ahead, and pass over many entries at once.

ghost use Rattle.std.specs.Prelude.{◌≡◌, ◌<◌, ◌≤◌, ◌+◌, ◌∷◌, [], drop, length, min, slice_get, IfNone, IfSome, Some};
ghost use Rattle.std.specs.Borrow.{sem};
ghost use Rattle.std.specs.Option.{option_copied, option_copied_mut};
ghost use Rattle.oxc_data_structures.specs.SliceLends as slice_lends;

use std::marker::Model;

/// A cursor over a slice: what is left of it.
#[derive(Drop)]
pub struct SliceCursor<'s, T> {
    /// The entries that are left.
    rest: &'s [T],
}

impl<'s, T> Model for SliceCursor<'s, T> {
    ghost use Rattle.std.specs.Prelude.{List};

    ghost Value = { List T };

    ghost view = { λ c. c.rest.now };
}

impl<'s, T> SliceCursor<'s, T> {
    /// A cursor at the start of `slice`.
    pub fn new(slice: &'s [T]) -> Self
        ensures { result ≡ slice.now }
    {
        SliceCursor { rest: slice }
    }

    /// How many entries are left.
    pub fn len(&self) -> usize
        ensures { result ≡ length self.now }
    {
        self.rest.len()
    }

    /// The next entry. `None` at the end.
    pub fn peek(&self) -> Option<&T>
        ensures { option_copied result ≡ slice_get self.now 0 }
    {
        self.rest.first()
    }

    /// A copy of the next entry. `None` at the end.
    pub fn peek_copy(&self) -> Option<T>
    where
        T: Copy,
        ensures { result ≡ slice_get self.now 0 }
    {
        self.rest.first().copied()
    }

    /// The next entry, behind which the cursor then stands. `None` at the end.
    pub fn next(&mut self) -> Option<&'s T>
        ensures some { IfSome result (λ x. self.old ≡ x.now ∷ self.new) }
        ensures none { IfNone result ((self.old ≡ []) × (self.new ≡ [])) }
    {
        let rest = self.rest;
        match rest {
            [] => None,
            [first, others @ ..] => {
                self.rest = others;
                Some(first)
            }
        }
    }

    /// Moves past `count` entries, of at least as many.
    pub fn advance(&mut self, count: usize)
        requires { count ≤ length self.old }
        ensures { self.new ≡ drop count self.old }
    {
        self.rest = &self.rest[count..];
    }

    /// Moves past every entry that is left.
    pub fn advance_to_end(&mut self)
        ensures { self.new ≡ [] }
    {
        self.rest = &[];
    }

    /// The entries that are left.
    pub fn rest(&self) -> &[T]
        ensures { result.now ≡ self.now }
    {
        self.rest
    }
}

// How many entries a cursor has passed.
//
// A model makes the prover follow what the struct around it lends out of its slice.
#[derive(Drop)]
struct Passed {
    count: usize,
}

impl Model for Passed {
    ghost use Rattle.std.specs.Prelude.{ℕ};

    ghost Value = { ℕ };

    ghost view = { λ p. p.count };
}

impl Passed {
    fn count(&self) -> usize
        ensures { result ≡ self.now }
    {
        self.count
    }
}

/// A cursor over a slice that may be written: the slice, and how far it stands in it.
///
/// A write through what it hands out is a write to the slice, which has all of them once the
/// cursor is gone.
#[derive(Drop)]
pub struct SliceCursorMut<'s, T> {
    /// All entries, with those that were passed.
    slice: &'s mut [T],
    /// How many of them were passed.
    passed: Passed,
}

impl<'s, T> SliceCursorMut<'s, T> {
    ghost use Rattle.oxc_data_structures.specs.SliceCursorMut.{rest_of};
    ghost use Rattle.oxc_data_structures.specs.SliceCursorMutLends.{LendsEnd, LendsEntry, LendsNext, LendsSlice};

    /// A cursor at the start of `slice`.
    pub fn new(slice: &'s mut [T]) -> Self
        ensures same_slice { result.slice.ghost_name ≡ slice.entry.ghost_name }
        ensures entries { result.slice.now ≡ slice.old }
        ensures passed { result.passed ≡ 0 }
        ensures rest { rest_of result ≡ slice.old }
    {
        SliceCursorMut {
            slice,
            passed: Passed { count: 0 },
        }
    }

    /// How many entries are left.
    pub fn len(&self) -> usize
        ensures { result ≡ length (rest_of self.now) }
    {
        self.slice.len().saturating_sub(self.passed.count())
    }

    /// The next entry. `None` at the end.
    pub fn peek(&self) -> Option<&T>
        ensures { option_copied result ≡ slice_get (rest_of self.now) 0 }
    {
        self.slice.get(self.passed.count())
    }

    /// A copy of the next entry. `None` at the end.
    pub fn peek_copy(&self) -> Option<T>
    where
        T: Copy,
        ensures { result ≡ slice_get (rest_of self.now) 0 }
    {
        self.peek().copied()
    }

    /// The next entry, to be changed, behind which the cursor then stands. `None` at the end.
    pub fn next(&mut self) -> Option<&mut T>
        ensures* writes_back { sem 𝓛 (LendsNext T.row self.entry result) }
        ensures value { option_copied_mut result ≡ slice_get (rest_of self.old) 0 }
    {
        let index = self.passed.count();
        if index < self.slice.len() {
            self.passed = Passed { count: index + 1 };
            Some(self.entry_mut(index))
        } else {
            None
        }
    }

    /// Moves past `count` entries, of at least as many.
    pub fn advance(&mut self, count: usize)
        requires { count ≤ length (rest_of self.old) }
        ensures same_slice { self.new.slice.ghost_name ≡ self.old.slice.ghost_name }
        ensures entries { self.new.slice.now ≡ self.old.slice.now }
        ensures passed { self.new.passed ≡ self.old.passed + count }
        ensures rest { rest_of self.new ≡ drop count (rest_of self.old) }
    {
        let passed = self.passed.count();
        self.passed = Passed {
            count: passed + count,
        };
    }

    /// Moves past every entry that is left.
    pub fn advance_to_end(&mut self)
        ensures same_slice { self.new.slice.ghost_name ≡ self.old.slice.ghost_name }
        ensures entries { self.new.slice.now ≡ self.old.slice.now }
        ensures rest { rest_of self.new ≡ [] }
    {
        self.passed = Passed {
            count: self.slice.len(),
        };
    }

    /// The entries that are left.
    pub fn rest(&self) -> &[T]
        ensures { result.now ≡ rest_of self.now }
    {
        let start = self.start();
        &self.slice[start..]
    }

    /// The entries that are left, to be changed.
    pub fn as_mut_slice(&mut self) -> &mut [T]
        ensures* writes_back { sem 𝓛 (LendsEnd T.row self.entry self.old.passed result) }
        ensures value { result.now ≡ rest_of self.old }
    {
        let start = self.start();
        self.end_mut(start)
    }

    // Where the entries that are left start.
    fn start(&self) -> usize
        ensures { result ≡ min self.now.passed (length self.now.slice.now) }
    {
        self.passed.count().min(self.slice.len())
    }

    fn slice_mut(&mut self) -> &mut [T]
        ensures* writes_back { sem 𝓛 (LendsSlice T.row self.entry result) }
        ensures value { result.now ≡ self.old.slice.now }
    {
        &mut *self.slice
    }

    fn entry_mut(&mut self, index: usize) -> &mut T
        requires { index < length self.old.slice.now }
        ensures* writes_back { sem 𝓛 (LendsEntry T.row self.entry index result) }
        ensures value { slice_get self.old.slice.now index ≡ Some result.now }
    {
        entry_of(self.slice_mut(), index)
    }

    fn end_mut(&mut self, index: usize) -> &mut [T]
        requires { index ≤ length self.old.slice.now }
        ensures* writes_back { sem 𝓛 (LendsEnd T.row self.entry index result) }
        ensures value { result.now ≡ drop index self.old.slice.now }
    {
        end_of(self.slice_mut(), index)
    }
}

fn entry_of<T>(slice: &mut [T], index: usize) -> &mut T
    requires { index < length slice.old }
    ensures* writes_back { sem 𝓛 (slice_lends.LendsEntry T.row slice.entry index result) }
    ensures value { slice_get slice.old index ≡ Some result.now }
{
    &mut slice[index]
}

fn end_of<T>(slice: &mut [T], index: usize) -> &mut [T]
    requires { index ≤ length slice.old }
    ensures* writes_back { sem 𝓛 (slice_lends.LendsEnd T.row slice.entry index result) }
    ensures value { result.now ≡ drop index slice.old }
{
    &mut slice[index..]
}
