//! A set of numbers below a bound, a bit each.

ghost use Rattle.std.specs.Prelude.{◌≡◌, ◌<◌, ◌≤◌, ◌↔◌, [], ◌∷◌, ◌+◌, length, IfOk, IfNone, IfSome, IsTrue, Some, true, false, slice_get, slice_set, replicate, MatchOption};
ghost use Rattle.std.specs.Iterator.{YieldsFirst, item_count};
ghost use Rattle.arena_core.specs.BitSet.{members, members_at};
ghost use Rattle.arena_core.specs.Words.{flags, AreWordsOf, HasNoBitFrom, IsNextBit};

use std::alloc::{AllocError, Allocator};
use std::marker::Model;

// How many numbers a word has bits for.
const WORD_BITS: usize = 64;

/// A set of numbers below its length.
///
/// Contracts see it as a list of truths as long as that: the number `i` is a member where the `i`-th
/// is true.
#[derive(Drop)]
pub struct BitSet<A: Allocator> {
    /// A bit for each number, the lowest first. Those past the length are 0.
    words: Vec<u64, A>,
    /// The bound below which the members are.
    len: usize,
}

impl<A: Allocator> Model for BitSet<A> {
    ghost use Rattle.std.specs.Prelude.{Bool, List};
    ghost use Rattle.arena_core.specs.Words.{flags, AreWordsOf};

    ghost Value = { List Bool };

    ghost view = { λ s. flags s.words.items s.len };

    ghost invariant = { λ s. AreWordsOf s.words.items s.len };
}

impl<A: Allocator> BitSet<A> {
    /// The empty set of numbers below `len`.
    pub fn new_in(alloc: A, len: usize) -> Result<BitSet<A>, AllocError>
        ensures { IfOk result (λ s. s ≡ replicate len false) }
    {
        Ok(BitSet {
            words: vec![in alloc; 0; len.div_ceil(WORD_BITS)]?,
            len,
        })
    }

    /// The bound below which its members are.
    pub fn len(&self) -> usize
        ensures { result ≡ length self.now }
    {
        self.len
    }

    /// Whether `i` is a member.
    pub fn has_bit(&self, i: usize) -> bool
        ensures { IsTrue result ↔ (slice_get self.now i ≡ Some true) }
    {
        i < self.len && (self.words[i / WORD_BITS] >> (i % WORD_BITS)) & 1 == 1
    }

    /// Makes `i` a member.
    pub fn set_bit(&mut self, i: usize)
        requires { i < length self.old }
        ensures { self.new ≡ slice_set self.old i true }
    {
        self.words[i / WORD_BITS] |= 1 << (i % WORD_BITS);
    }

    /// Takes all members out.
    pub fn clear(&mut self)
        ensures { self.new ≡ replicate (length self.old) false }
    {
        self.words.fill(0);
    }

    /// The members in rising order.
    pub fn ones(&self) -> Ones<'_>
        ensures { result ≡ members self.now }
    {
        Ones {
            words: self.words.as_slice(),
            len: self.len,
            at: 0,
        }
    }
}

/// The members of a [`BitSet`] in rising order, each once. Contracts see it as the list of those left.
#[derive(Drop)]
pub struct Ones<'s> {
    /// The set's words.
    words: &'s [u64],
    /// The set's length.
    len: usize,
    /// No number below this is left.
    at: usize,
}

impl<'s> Model for Ones<'s> {
    ghost use Rattle.std.specs.Prelude.{ℕ, List, ◌≤◌};
    ghost use Rattle.arena_core.specs.BitSet.{members_at};
    ghost use Rattle.arena_core.specs.Words.{flags, AreWordsOf};

    ghost Value = { List ℕ };

    ghost view = { λ o. members_at o.at (flags o.words.now o.len) };

    ghost invariant = { λ o. AreWordsOf o.words.now o.len × (o.at ≤ o.len) };
}

// The place of the lowest set bit of a word that is at `from` or above.
fn next_in_word(word: u64, from: usize) -> Option<usize>
    requires { from < WORD_BITS }
    ensures { MatchOption result (HasNoBitFrom word from) (IsNextBit word from) }
{
    let rest = word >> from;
    if rest == 0 {
        None
    } else {
        Some(from + rest.trailing_zeros() as usize)
    }
}

// The lowest member that is at least `at`.
fn next_member(words: &[u64], len: usize, mut at: usize) -> Option<usize>
    requires words { AreWordsOf words.now len }
    requires within { at ≤ len }
    ensures none { IfNone result (members_at at (flags words.now len) ≡ []) }
    ensures below { IfSome result (λ member. member < len) }
    ensures first { IfSome result (λ member.
        members_at at (flags words.now len) ≡ member ∷ members_at (member + 1) (flags words.now len)) }
{
    while at < len {
        let place = at % WORD_BITS;
        match next_in_word(words[at / WORD_BITS], place) {
            Some(next) => return Some(at - place + next),
            None => at += (WORD_BITS - place).min(len - at),
        }
    }
    None
}

impl<'s> Iterator for Ones<'s> {
    type Item = usize;

    ghost next_gives = { YieldsFirst (λ rest. rest) };

    ghost remaining = { item_count (λ rest. rest) };

    fn next(&mut self) -> Option<usize> {
        match next_member(self.words, self.len, self.at) {
            Some(member) => {
                self.at = member + 1;
                Some(member)
            }
            None => {
                self.at = self.len;
                None
            }
        }
    }
}
