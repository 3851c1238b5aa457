//! The send ring of one end of a connection: the accepted bytes that have not completed, at most as
//! many as the peer's RMB element has (RFC 7609, section 4.7).
//!
//! It accepts what fits the window, says where in the element the unposted bytes go, and goes back to
//! the last completed byte when the end moves to another link (section 4.6). Contracts speak of plain
//! counts of bytes: for every ring in plain counts for which the value stands, each call says for which
//! it stands then. The memory is taken when the ring is made, and none later.
#![tactic(auto)]

ghost use Rattle.std.specs.Prelude.{◌≡◌, ℕ, ◌+◌, ◌-◌, ◌%◌, ◌<◌, ◌≤◌, ◌++◌, length, min, take, drop, map, filter, nat_lt, IfOk};
ghost use Rattle.circular_buffer.specs.Buffer.{buffer};
ghost use Rattle.smc_num.specs.Numbers.{cursor_of};
ghost use Rattle.cdc_ring.specs.Rings.{Ring, fresh, accepted, last_from, window, accepts, front_piece, back_piece, posts, completes, acks, rewinds, held_at};
ghost use Rattle.cdc_ring.specs.Kept.{Represents, IsPlaceFrom, IsHeld};

use arrayvec::ArrayVec;
use circular_buffer::HeapCircularBuffer;
use smc_num::{Cursor, NoMemory};
use std::alloc::Global;
use std::marker::Model;

pub mod laws;

// Postings that may be under way.
const MOST: usize = 8;

// The place before the first byte.
const START: Cursor = Cursor { wrap: 0, count: 0 };

/// So many bytes from a place of the element on.
#[derive(Clone, Copy, Debug, PartialEq, Eq)]
pub struct Piece {
    pub place: u32,
    pub len: u32,
}

/// A send ring. Contracts see it as it is kept, and say for which plain counts it stands.
#[derive(Drop)]
pub struct SendRing {
    size: u32,
    // Where the completed bytes end.
    completed: Cursor,
    // The accepted bytes behind those.
    bytes: HeapCircularBuffer<u8>,
    // How many of these were posted at each posting that has not completed.
    marks: ArrayVec<u32, MOST>,
    // Where the bytes end that the peer has read.
    acked: Cursor,
    // How many accepted bytes are behind those.
    unread: u32,
}

impl Model for SendRing {
    ghost use Rattle.std.specs.Prelude.{◌≡◌};
    ghost use Rattle.cdc_ring.specs.Kept.{Kept, IsKept};

    ghost Value = { Kept };

    ghost view = { λ r. record { size = r.size; completed = r.completed; bytes = r.bytes.items; marks = r.marks.items; acked = r.acked; unread = r.unread } };

    ghost invariant = { λ r. (r.bytes.capacity ≡ r.size) × IsKept (record { size = r.size; completed = r.completed; bytes = r.bytes.items; marks = r.marks.items; acked = r.acked; unread = r.unread }) };
}

impl SendRing {
    /// A ring over an element of `size` bytes that has accepted nothing.
    pub fn new(alloc: Global, size: u32) -> Result<SendRing, NoMemory>
        requires { 1 ≤ size }
        ensures { IfOk result (λ ring. Represents ring (fresh size)) }
    {
        let bytes = HeapCircularBuffer::with_capacity(alloc, size as usize).map_err(|_| NoMemory)?;
        Ok(SendRing {
            size,
            completed: START,
            bytes,
            marks: ArrayVec::new(),
            acked: START,
            unread: 0,
        })
    }

    /// Accepts the front of `bytes` that fits the window, and answers how many bytes that are.
    pub fn accept(&mut self, bytes: &[u8]) -> u32
        ensures count { (ring : Ring) → Represents self.old ring → result ≡ min (length bytes.now) (window ring) }
        ensures ring { (ring : Ring) → Represents self.old ring → Represents self.new (accepts bytes.now ring) }
    {
        let held = self.bytes.len() as u32;
        let window = self.size - held.max(self.unread);
        let count = bytes.len().min(window as usize);
        append(&mut self.bytes, &bytes[..count]);
        self.unread += count as u32;
        count as u32
    }

    /// Where the unposted bytes go in the element. The second piece begins at place 0, and is empty
    /// where they don't go round the element's end.
    pub fn pieces(&self) -> (Piece, Piece)
        ensures { (ring : Ring) → Represents self.now ring → result ≡ (front_piece ring, back_piece ring) }
    {
        let (size, completed) = (self.size, self.completed);
        let posted = last_mark(&self.marks);
        let unposted = self.bytes.len() as u32 - posted;
        let place = completed.forward(posted, size).count;
        let front = unposted.min(size - place);
        (
            Piece { place, len: front },
            Piece {
                place: 0,
                len: unposted - front,
            },
        )
    }

    /// All accepted bytes are posted now. At most 8 postings may be under way.
    pub fn posted(&mut self)
        requires { length self.old.marks < 8 }
        ensures { (ring : Ring) → Represents self.old ring → Represents self.new (posts ring) }
    {
        let held = self.bytes.len() as u32;
        if last_mark(&self.marks) < held {
            self.marks.push(held);
        }
    }

    /// The bytes up to the cursor have completed.
    pub fn complete(&mut self, cursor: Cursor)
        requires { IsPlaceFrom (λ ring. ring.completed) self.old cursor }
        ensures { (ring : Ring) (place : ℕ) → Represents self.old ring → cursor ≡ cursor_of ring.size place
            → ring.completed ≤ place → place ≤ accepted ring → Represents self.new (completes place ring) }
    {
        let count = cursor.ahead_of(self.completed, self.size);
        self.marks = marks_past(&self.marks, count);
        self.bytes.truncate_front(self.bytes.len() - count as usize);
        self.completed = cursor;
    }

    /// The peer has read the bytes up to the cursor.
    pub fn acked(&mut self, cursor: Cursor)
        requires { IsPlaceFrom (λ ring. ring.acked) self.old cursor }
        ensures { (ring : Ring) (place : ℕ) → Represents self.old ring → cursor ≡ cursor_of ring.size place
            → ring.acked ≤ place → place ≤ accepted ring → Represents self.new (acks place ring) }
    {
        self.unread -= cursor.ahead_of(self.acked, self.size);
        self.acked = cursor;
    }

    /// Goes back to the last completed byte: all bytes behind it are unposted again.
    pub fn rewind(&mut self)
        ensures { (ring : Ring) → Represents self.old ring → Represents self.new (rewinds ring) }
    {
        self.marks.clear();
    }

    /// The bytes of a piece, in two parts.
    pub fn bytes_at(&self, piece: Piece) -> (&[u8], &[u8])
        requires { IsHeld piece self.now }
        ensures { (ring : Ring) (from : ℕ) → Represents self.now ring → piece.place ≡ from % ring.size
            → ring.completed ≤ from → from + piece.len ≤ accepted ring
            → result.0.now ++ result.1.now ≡ held_at from piece.len ring }
    {
        let from = distance(self.completed.count, piece.place, self.size);
        part(&self.bytes, from as usize, piece.len as usize)
    }

    /// Makes the ring as `new` made it.
    pub fn clear(&mut self)
        ensures { Represents self.new (fresh self.old.size) }
    {
        self.completed = START;
        self.bytes.clear();
        self.marks = ArrayVec::new();
        self.acked = START;
        self.unread = 0;
    }
}

// The last mark, or 0.
fn last_mark(marks: &ArrayVec<u32, MOST>) -> u32
    ensures { result ≡ last_from 0 marks.now.items }
{
    marks.as_slice().last().copied().unwrap_or(0)
}

// The marks past so many bytes, counted from there.
fn marks_past(marks: &ArrayVec<u32, MOST>, count: u32) -> ArrayVec<u32, MOST>
    ensures { result.items ≡ map (λ mark. mark - count) (filter (λ mark. nat_lt count mark) marks.now.items) }
{
    let mut past = ArrayVec::new();
    for mark in marks.as_slice() {
        if count < *mark {
            past.push(*mark - count);
        }
    }
    past
}

// How far a place of the element is behind another one, going round.
fn distance(from: u32, to: u32, size: u32) -> u32
    requires { from ≤ size }
    ensures ahead { from ≤ to → result ≡ to - from }
    ensures round { to < from → result ≡ size - from + to }
{
    if from <= to {
        to - from
    } else {
        size - from + to
    }
}

// Appends bytes for which there is room.
fn append(ring: &mut HeapCircularBuffer<u8>, bytes: &[u8])
    requires { length ring.old.items + length bytes.now ≤ ring.old.capacity }
    ensures { ring.new ≡ buffer (ring.old.items ++ bytes.now) ring.old.capacity }
{
    ring.fill_from_slice(bytes);
}

// So many bytes of a buffer from one on, in two parts.
fn part(buffer: &HeapCircularBuffer<u8>, from: usize, len: usize) -> (&[u8], &[u8])
    requires { from + len ≤ length buffer.now.items }
    ensures { result.0.now ++ result.1.now ≡ take len (drop from buffer.now.items) }
{
    let (front, back) = buffer.as_slices();
    if front.len() <= from {
        let start = from - front.len();
        return (&back[start..start + len], &[]);
    }
    let rest = front.len() - from;
    if len <= rest {
        (&front[from..from + len], &[])
    } else {
        (&front[from..], &back[..len - rest])
    }
}
