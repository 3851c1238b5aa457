//! A source and a sink in memory, whose calls fail where they are told so.
ghost use Rattle.std.specs.Prelude.{◌≡◌, ◌≤◌, ◌<◌, ◌↔◌, ℕ, List, [], take, drop, length, Option, Some, None, IfOk, IsErr, IsTrue, OnErr, ◌++◌, min, ◌^◌, ◌+◌, ◌⊎◌, vec_capacity};
ghost use Rattle.std.specs.List.{Contains};
ghost use Rattle.byte_port.specs.Causes.{HasCause, HandsOver, TakesIn};
ghost use Rattle.byte_port.specs.Memory.{later_call};

use crate::{Failed, Sink, Source};
use std::alloc::Global;
use std::marker::Model;

/// Memory was asked for and there was none.
#[derive(Clone, Copy, Debug, PartialEq, Eq)]
pub struct NoMemory;

/// A source over bytes in memory. Its calls are counted from 1, and those that `fail` names fail.
#[derive(Drop)]
pub struct MemorySource {
    bytes: Vec<u8>,
    at: usize,
    calls: u32,
    fail: Vec<u32>,
    faults: u64,
}

impl Model for MemorySource {
    ghost use Rattle.byte_port.specs.Memory.{Supply};
    ghost use Rattle.std.specs.Prelude.{drop, length, ◌≤◌};

    ghost Value = { Supply };

    ghost view = { λ s. record { left = drop s.at s.bytes.items; calls = s.calls; fail = s.fail.items; faults = s.faults } };

    ghost invariant = { λ s. s.at ≤ length s.bytes.items };
}

/// Whether the call of this number is named.
fn is_named(fail: &[u32], call: u32) -> bool
    ensures { IsTrue result ↔ Contains fail.now call }
{
    fail.contains(&call)
}

/// Copies as much of the front as fits.
fn copy_front(left: &[u8], out: &mut [u8]) -> usize
    ensures count { result ≡ min (length left.now) (length out.old) }
    ensures out { out.new ≡ take result left.now ++ drop result out.old }
{
    let count = left.len().min(out.len());
    out[..count].copy_from_slice(&left[..count]);
    count
}

impl MemorySource {
    /// A source that has left these bytes, and whose calls of these numbers fail.
    pub fn new(bytes: Vec<u8>, fail: Vec<u32>) -> MemorySource
        ensures { result ≡ record { left = bytes.items; calls = 0; fail = fail.items; faults = 0 } }
    {
        MemorySource {
            bytes,
            at: 0,
            calls: 0,
            fail,
            faults: 0,
        }
    }
}

impl Source for MemorySource {
    ghost left = { λ s. Some s.left };

    ghost faults = { λ s. s.faults };

    fn read(&mut self, out: &mut [u8]) -> Result<usize, Failed>
        ensures bound { IfOk result (λ n. n ≤ length out.new) }
        ensures bytes { HandsOver (Some self.old.left) (Some self.new.left) result out.new }
        ensures cause { HasCause self.old.faults self.new.faults result }
        ensures most { IfOk result (λ n. n ≡ min (length self.old.left) (length out.old)) }
        ensures calls { self.new.calls ≡ later_call self.old.calls }
        ensures fail { self.new.fail ≡ self.old.fail }
        ensures named { IsErr result ↔ Contains self.old.fail self.new.calls }
    {
        self.calls = self.calls.saturating_add(1);
        if is_named(&self.fail, self.calls) {
            self.faults = self.faults.saturating_add(1);
            return Err(Failed);
        }
        let count = copy_front(&self.bytes[self.at..], out);
        self.at += count;
        Ok(count)
    }
}

/// A sink that holds its bytes in memory, up to its room. Its calls are counted from 1; those that
/// `fail` names fail, and so does a write past the room.
#[derive(Drop)]
pub struct MemorySink {
    bytes: Vec<u8>,
    room: usize,
    calls: u32,
    fail: Vec<u32>,
    faults: u64,
}

impl Model for MemorySink {
    ghost use Rattle.byte_port.specs.Memory.{Store};
    ghost use Rattle.std.specs.Prelude.{vec_capacity, length, ◌≤◌};

    ghost Value = { Store };

    ghost view = { λ s. record { held = s.bytes.items; room = s.room; calls = s.calls; fail = s.fail.items; faults = s.faults } };

    ghost invariant = { λ s. (length s.bytes.items ≤ s.room) × (s.room ≤ vec_capacity s.bytes) };
}

/// Appends bytes for which there is room.
pub(crate) fn append_within(list: &mut Vec<u8>, piece: &[u8])
    requires { length list.old.items + length piece.now ≤ vec_capacity list.old }
    ensures items { list.new.items ≡ list.old.items ++ piece.now }
    ensures capacity { vec_capacity list.old ≤ vec_capacity list.new }
{
    let _ = list.extend_from_slice(piece);
}

impl MemorySink {
    /// An empty sink with room for so many bytes, whose calls of these numbers fail.
    pub fn new(alloc: Global, room: usize, fail: Vec<u32>) -> Result<MemorySink, NoMemory>
        ensures { IfOk result (λ sink. sink ≡ record { held = []; room = room; calls = 0; fail = fail.items; faults = 0 }) }
    {
        match Vec::with_capacity(alloc, room) {
            Ok(bytes) => Ok(MemorySink {
                bytes,
                room,
                calls: 0,
                fail,
                faults: 0,
            }),
            Err(_) => Err(NoMemory),
        }
    }

    /// The bytes that it holds.
    pub fn held(&self) -> &[u8]
        ensures { result.now ≡ self.now.held }
    {
        self.bytes.as_slice()
    }
}

impl Sink for MemorySink {
    ghost held = { λ s. Some s.held };

    ghost faults = { λ s. s.faults };

    fn write(&mut self, piece: &[u8]) -> Result<usize, Failed>
        ensures bound { IfOk result (λ n. n ≤ length piece.now) }
        ensures some { IfOk result (λ n. 0 < length piece.now → 0 < n) }
        ensures bytes { TakesIn (Some self.old.held) (Some self.new.held) result piece.now }
        ensures cause { HasCause self.old.faults self.new.faults result }
        ensures all { IfOk result (λ n. n ≡ length piece.now) }
        ensures room { self.new.room ≡ self.old.room }
        ensures calls { self.new.calls ≡ later_call self.old.calls }
        ensures fail { self.new.fail ≡ self.old.fail }
        ensures named { IsErr result ↔ (Contains self.old.fail self.new.calls ⊎ (self.old.room < length self.old.held + length piece.now)) }
    {
        self.calls = self.calls.saturating_add(1);
        if is_named(&self.fail, self.calls) || self.room - self.bytes.len() < piece.len() {
            self.faults = self.faults.saturating_add(1);
            return Err(Failed);
        }
        append_within(&mut self.bytes, piece);
        Ok(piece.len())
    }
}
