//! Sources and a sink in memory, which tell their bytes.

ghost use Rattle.std.specs.Prelude.{◌≡◌, ◌+◌, ◌-◌, ◌<◌, ◌≤◌, ◌↔◌, ◌⊎◌, Some, Ok, true, false, ◌&&◌, ◌==◌, [], ◌++◌, length, take, drop, min, Contains, IfOk, IsErr, IsTrue, OnErr, OnOk};
ghost use Rattle.std.specs.Io.{ReadsAtMost, WritesAtMost};
ghost use Rattle.std.specs.Io.KnownBytes.{Keeps, ReadConsumes, WriteAppends};
ghost use Rattle.tool_outside.specs.Failures.{CountsFaults, next_count};
ghost use Rattle.tool_outside.specs.Source.{CountsGiven};

use crate::failures::fail;
use crate::sink::Sink;
use crate::source::{Failed, Source};
use std::alloc::{AllocError, Global};
use std::marker::Model;

/// A source over bytes, which never fails.
#[derive(Drop)]
pub struct SliceSource<'a> {
    left: &'a [u8],
    given: usize,
}

impl<'a> Model for SliceSource<'a> {
    ghost use Rattle.std.specs.Prelude.{◌+◌, ◌<◌, ◌^◌, length};
    ghost use Rattle.tool_outside.specs.SliceSource.{SliceState};

    ghost Value = { SliceState };

    ghost view = { λ s. record { left = s.left.now; given = s.given } };

    ghost invariant = { λ s. s.given + length s.left.now < 2 ^ 64 };
}

impl<'a> SliceSource<'a> {
    /// A source that has all of `bytes` left.
    pub fn new(bytes: &'a [u8]) -> Self
        ensures left { result.left ≡ bytes.now }
        ensures given { result.given ≡ 0 }
    {
        SliceSource {
            left: bytes,
            given: 0,
        }
    }
}

impl<'a> Source for SliceSource<'a> {
    ghost left = { λ s. Some s.left };

    ghost given = { λ s. s.given };

    ghost faults = { λ _. 0 };

    fn read(&mut self, buf: &mut [u8]) -> Result<usize, Failed>
        // As every source.
        ensures bound { ReadsAtMost result buf.new }
        ensures bytes { ReadConsumes (Some self.old.left) (Some self.new.left) result buf.new }
        ensures given { CountsGiven self.old.given self.new.given result }
        ensures faults { CountsFaults 0 0 result }

        // It gives as many bytes as the buffer and what is left allow.
        ensures count { result ≡ Ok (min (length buf.old) (length self.old.left)) }
    {
        let count = buf.len().min(self.left.len());
        self.left = give(self.left, buf, count);
        self.given += count;
        Ok(count)
    }
}

/// A source over bytes that gives them in pieces, and fails in the calls that it is told to.
#[derive(Drop)]
pub struct MemorySource<'a> {
    left: &'a [u8],
    given: usize,
    faults: u64,
    piece: usize,
    fails: &'a [u64],
    call: u64,
}

impl<'a> Model for MemorySource<'a> {
    ghost use Rattle.std.specs.Prelude.{◌+◌, ◌<◌, ◌^◌, length};
    ghost use Rattle.tool_outside.specs.MemorySource.{SourceState};

    ghost Value = { SourceState };

    ghost view = { λ s. record {
      left = s.left.now;
      given = s.given;
      faults = s.faults;
      piece = s.piece;
      fails = s.fails.now;
      call = s.call;
    } };

    ghost invariant = { λ s. (0 < s.piece) × (s.given + length s.left.now < 2 ^ 64) };
}

impl<'a> MemorySource<'a> {
    /// A source that has all of `bytes` left, gives at most `piece` of them in a call, and fails
    /// in the calls whose numbers, from 0, stand in `fails`.
    pub fn new(bytes: &'a [u8], piece: usize, fails: &'a [u64]) -> Self
        requires { 0 < piece }
        ensures { result ≡ record {
          left = bytes.now;
          given = 0;
          faults = 0;
          piece = piece;
          fails = fails.now;
          call = 0;
        } }
    {
        MemorySource {
            left: bytes,
            given: 0,
            faults: 0,
            piece,
            fails,
            call: 0,
        }
    }
}

impl<'a> Source for MemorySource<'a> {
    ghost left = { λ s. Some s.left };

    ghost given = { λ s. s.given };

    ghost faults = { λ s. s.faults };

    fn read(&mut self, buf: &mut [u8]) -> Result<usize, Failed>
        // As every source.
        ensures bound { ReadsAtMost result buf.new }
        ensures bytes { ReadConsumes (Some self.old.left) (Some self.new.left) result buf.new }
        ensures given { CountsGiven self.old.given self.new.given result }
        ensures faults { CountsFaults self.old.faults self.new.faults result }

        // It fails in the listed calls alone.
        ensures fails { IsErr result ↔ Contains self.old.fails self.old.call }

        // It gives as many bytes as the piece, the buffer and what is left allow.
        ensures count { IfOk result (λ n.
            n ≡ min (length buf.old) (min self.old.piece (length self.old.left))) }

        // What a call leaves.
        ensures ok { IfOk result (λ n. self.new ≡ record self.old {
          left = drop n self.old.left;
          given = self.old.given + n;
          call = next_count self.old.call;
        }) }
        ensures err { OnErr result (self.new ≡ record self.old {
          faults = next_count self.old.faults;
          call = next_count self.old.call;
        }) }
    {
        if fails_next(self.fails, &mut self.call) {
            return Err(fail(&mut self.faults));
        }
        let count = buf.len().min(self.piece).min(self.left.len());
        self.left = give(self.left, buf, count);
        self.given += count;
        Ok(count)
    }
}

/// A sink with room for so many bytes, which takes them in pieces, and fails in the calls that it
/// is told to, and where it is full.
#[derive(Drop)]
pub struct MemorySink<'f> {
    held: Vec<u8>,
    settled: bool,
    faults: u64,
    room: usize,
    piece: usize,
    fails: &'f [u64],
    call: u64,
}

impl<'f> Model for MemorySink<'f> {
    ghost use Rattle.std.specs.Prelude.{◌<◌, ◌≤◌, vec_len, vec_capacity};
    ghost use Rattle.tool_outside.specs.MemorySink.{SinkState};

    ghost Value = { SinkState };

    ghost view = { λ s. record {
      held = s.held.items;
      settled = s.settled;
      faults = s.faults;
      room = s.room;
      piece = s.piece;
      fails = s.fails.now;
      call = s.call;
    } };

    ghost invariant = { λ s.
        (0 < s.piece) × (vec_len s.held ≤ s.room) × (s.room ≤ vec_capacity s.held) };
}

impl<'f> MemorySink<'f> {
    /// An empty sink that isn't settled. It holds at most `room` bytes, takes at most `piece` of
    /// them in a call, and fails in the calls whose numbers, from 0, stand in `fails`.
    ///
    /// The room is made here, so that no write wants memory.
    pub fn with_room(
        alloc: Global,
        room: usize,
        piece: usize,
        fails: &'f [u64],
    ) -> Result<Self, AllocError>
        requires { 0 < piece }
        ensures { IfOk result (λ sink. sink ≡ record {
          held = [];
          settled = false;
          faults = 0;
          room = room;
          piece = piece;
          fails = fails.now;
          call = 0;
        }) }
    {
        Ok(MemorySink {
            held: Vec::with_capacity(alloc, room)?,
            settled: false,
            faults: 0,
            room,
            piece,
            fails,
            call: 0,
        })
    }

    /// The bytes that it holds.
    pub fn bytes(&self) -> &[u8]
        ensures value { result.now ≡ self.now.held }
        ensures room { length result.now ≤ self.now.room }
    {
        self.held.as_slice()
    }
}

impl<'f> Sink for MemorySink<'f> {
    ghost held = { λ s. Some s.held };

    ghost settled = { λ s. s.settled };

    ghost faults = { λ s. s.faults };

    fn write(&mut self, piece: &[u8]) -> Result<usize, Failed>
        // As every sink.
        ensures bound { WritesAtMost result piece.now }
        ensures takes_some { 0 < length piece.now → IfOk result (λ n. 0 < n) }
        ensures bytes { WriteAppends (Some self.old.held) (Some self.new.held) result piece.now }
        ensures unsettled { 0 < length piece.now → OnOk result (self.new.settled ≡ false) }
        ensures faults { CountsFaults self.old.faults self.new.faults result }

        // It fails in the listed calls, and where it is full, alone.
        ensures fails { IsErr result ↔ (Contains self.old.fails self.old.call
            ⊎ ((0 < length piece.now) × (length self.old.held ≡ self.old.room))) }

        // It takes as many bytes as the piece, its own pieces and the room left allow.
        ensures count { IfOk result (λ n. n ≡ min (length piece.now)
            (min self.old.piece (self.old.room - length self.old.held))) }

        // What a call leaves.
        ensures ok { IfOk result (λ n. self.new ≡ record self.old {
          held = self.old.held ++ take n piece.now;
          settled = self.old.settled && (n == 0);
          call = next_count self.old.call;
        }) }
        ensures err { OnErr result (self.new ≡ record self.old {
          faults = next_count self.old.faults;
          call = next_count self.old.call;
        }) }
    {
        let listed = fails_next(self.fails, &mut self.call);
        let count = piece.len().min(self.piece).min(self.room - self.held.len());
        if listed || (count == 0 && !piece.is_empty()) {
            return Err(fail(&mut self.faults));
        }
        // The room was made at the start, so that this is never refused.
        self.held.extend_from_slice(&piece[..count]).unwrap();
        self.settled = self.settled && count == 0;
        Ok(count)
    }

    fn finish(&mut self) -> Result<(), Failed>
        // As every sink.
        ensures settled { OnOk result (IsTrue self.new.settled) }
        ensures bytes { Keeps (Some self.old.held) (Some self.new.held) }
        ensures faults { CountsFaults self.old.faults self.new.faults result }

        // It fails in the listed calls alone.
        ensures fails { IsErr result ↔ Contains self.old.fails self.old.call }

        // What a call leaves.
        ensures ok { OnOk result (self.new ≡ record self.old {
          settled = true;
          call = next_count self.old.call;
        }) }
        ensures err { OnErr result (self.new ≡ record self.old {
          faults = next_count self.old.faults;
          call = next_count self.old.call;
        }) }
    {
        if fails_next(self.fails, &mut self.call) {
            return Err(fail(&mut self.faults));
        }
        self.settled = true;
        Ok(())
    }
}

// Copies the first `count` bytes of `left` to the front of `buf`, and gives the rest.
fn give<'a>(left: &'a [u8], buf: &mut [u8], count: usize) -> &'a [u8]
    requires in_left { count ≤ length left.now }
    requires in_buf { count ≤ length buf.old }
    ensures front { take count buf.new ≡ take count left.now }
    ensures rest { result.now ≡ drop count left.now }
{
    let (front, rest) = left.split_at(count);
    buf[..count].copy_from_slice(front);
    rest
}

// Numbers a call, and answers whether it is one of those that fail.
fn fails_next(fails: &[u64], call: &mut u64) -> bool
    ensures listed { IsTrue result ↔ Contains fails.now call.old }
    ensures next { call.new ≡ next_count call.old }
{
    let listed = fails.contains(call);
    *call = call.saturating_add(1);
    listed
}
