//! Lists that grow at their end.

ghost use Rattle.std.specs.Borrow.{sem};
ghost use Rattle.std.specs.Prelude.{◌≡◌, ◌++◌, ◌∷◌, ◌<◌, ◌↔◌, [], length, IfSome, IsSome, OnErr, OnOk, slice_index_or};

use std::alloc::{AllocError, Global};
use std::marker::Model;

/// A list that grows at its end.
#[derive(Drop)]
pub struct RecordList<T> {
    items: Vec<T>,
}

impl<T> Model for RecordList<T> {
    ghost use Rattle.std.specs.Prelude.{List};

    ghost Value = { List T };

    ghost view = { λ list. list.items.items };
}

impl<T> RecordList<T> {
    ghost use Rattle.syntax_module.specs.RecordList.{LendsItem};

    /// An empty list.
    pub fn new(alloc: Global) -> Self
        ensures { result ≡ [] }
    {
        RecordList {
            items: Vec::new(alloc),
        }
    }

    /// Appends an item. Refused for want of memory, it leaves the list as it was.
    pub fn push(&mut self, item: T) -> Result<(), AllocError>
    where
        T: Drop,
        ensures ok { OnOk result (self.new ≡ self.old ++ item ∷ []) }
        ensures err { OnErr result (self.new ≡ self.old) }
    {
        Ok(self.items.push(item)?)
    }

    /// The number of items.
    pub fn len(&self) -> usize
        ensures { result ≡ length self.now }
    {
        self.items.len()
    }

    /// The item at a place; `None` past the end.
    pub fn get(&self, i: usize) -> Option<&T>
        ensures variant { IsSome result ↔ (i < length self.now) }
        ensures value { IfSome result (λ item. item.now ≡ slice_index_or self.now i item.now) }
    {
        self.items.get(i)
    }

    /// The item at a place, to be changed; `None` past the end.
    pub fn get_mut(&mut self, i: usize) -> Option<&mut T>
        ensures* writes_back { sem 𝓛 (LendsItem T.row self.entry i result) }
        ensures variant { IsSome result ↔ (i < length self.old) }
        ensures value { IfSome result (λ item. item.now ≡ slice_index_or self.old i item.now) }
    {
        self.items.get_mut(i)
    }
}
