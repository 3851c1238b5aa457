//! One direction of a TCP connection: a queue of bytes with 65,536 places, which may be ended, and may
//! be reset.
//!
//! Bytes come out as they went in, and can be taken at once. What doesn't fit isn't put, and the answer
//! says how many were. A stream that was ended or reset keeps its bytes. The queue takes its memory when
//! it is made, and none later.
#![tactic(auto)]

ghost use Rattle.std.specs.Prelude.{◌≡◌, ◌≤◌, ◌++◌, true, length, min, take, drop, IfOk};
ghost use Rattle.tcp_pipe.specs.Streams.{fresh, free, room};

use circular_buffer::HeapCircularBuffer;
use smc_num::NoMemory;
use std::alloc::Global;
use std::marker::Model;

const ROOM: usize = 65_536;

/// The bytes under way in one direction. Contracts see the bytes that are there, oldest first, whether
/// the stream has ended, and whether it was reset.
#[derive(Drop)]
pub struct Stream {
    bytes: HeapCircularBuffer<u8>,
    ended: bool,
    reset: bool,
}

impl Model for Stream {
    ghost use Rattle.std.specs.Prelude.{◌≡◌, ◌≤◌, length};
    ghost use Rattle.tcp_pipe.specs.Streams.{Direction, room};

    ghost Value = { Direction };

    ghost view = { λ s. record { held = s.bytes.items; ended = s.ended; reset = s.reset } };

    ghost invariant = { λ s. (s.bytes.capacity ≡ room) × (length s.bytes.items ≤ room) };
}

impl Stream {
    /// A stream without bytes, neither ended nor reset.
    pub fn new(alloc: Global) -> Result<Stream, NoMemory>
        ensures { IfOk result (λ stream. stream ≡ fresh) }
    {
        let bytes = HeapCircularBuffer::with_capacity(alloc, ROOM).map_err(|_| NoMemory)?;
        Ok(Stream {
            bytes,
            ended: false,
            reset: false,
        })
    }

    /// Puts the front of `bytes`, as much as fits, behind the bytes that are there, and answers how
    /// many bytes that are.
    pub fn put(&mut self, bytes: &[u8]) -> u32
        ensures count { result ≡ min (length bytes.now) (free self.old) }
        ensures stream { self.new ≡ record self.old { held = self.old.held ++ take result bytes.now } }
    {
        self.bytes.fill_from_slice(bytes) as u32
    }

    /// Takes the oldest bytes, as many as are there and `out` has places for, into the front of `out`,
    /// and answers how many that are.
    pub fn take(&mut self, out: &mut [u8]) -> u32
        ensures count { result ≡ min (length out.old) (length self.old.held) }
        ensures out { out.new ≡ take result self.old.held ++ drop result out.old }
        ensures stream { self.new ≡ record self.old { held = drop result self.old.held } }
    {
        self.bytes.read_into(out) as u32
    }

    /// Copies the bytes that `take` would take.
    pub fn peek(&self, out: &mut [u8]) -> u32
        ensures count { result ≡ min (length out.old) (length self.now.held) }
        ensures out { out.new ≡ take result self.now.held ++ drop result out.old }
    {
        let (front, back) = self.bytes.as_slices();
        let first = front.len().min(out.len());
        let (head, tail) = out.split_at_mut(first);
        head.copy_from_slice(&front[..first]);
        let second = copy_front(tail, back);
        (first + second) as u32
    }

    /// The number of bytes that are there.
    pub fn held(&self) -> u32
        ensures count { result ≡ length self.now.held }
        ensures fits { result ≤ room }
    {
        self.bytes.len() as u32
    }

    /// Ends the stream. The bytes that are there stay.
    pub fn end(&mut self)
        ensures { self.new ≡ record self.old { ended = true } }
    {
        self.ended = true;
    }

    /// Resets the stream. The bytes that are there stay.
    pub fn reset(&mut self)
        ensures { self.new ≡ record self.old { reset = true } }
    {
        self.reset = true;
    }

    /// Whether the stream was ended.
    pub fn ended(&self) -> bool
        ensures { result ≡ self.now.ended }
    {
        self.ended
    }

    /// Whether the stream was reset.
    pub fn was_reset(&self) -> bool
        ensures { result ≡ self.now.reset }
    {
        self.reset
    }
}

// Copies what fits into the front.
fn copy_front(out: &mut [u8], bytes: &[u8]) -> usize
    ensures count { result ≡ min (length out.old) (length bytes.now) }
    ensures out { out.new ≡ take result bytes.now ++ drop result out.old }
{
    let count = out.len().min(bytes.len());
    out[..count].copy_from_slice(&bytes[..count]);
    count
}
