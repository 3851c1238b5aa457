//! One end of a connection, without its region: what its application, its peer's messages and its own
//! completed messages make of it, and what it posts (RFC 7609, sections 4.5 to 4.8).
//!
//! It promises to be the private pipe's end of `pipe_model`: for every plain end for which its value
//! stands, after each call it stands for what the pipe makes of that end, and the answer is the pipe's.
//! It keeps the bytes that have not completed, and of all others their counts alone. Numbers and counts
//! are plain, so a message that comes is handed in beside the plain snapshot that it spells.
#![tactic(auto)]

ghost use Rattle.std.specs.Prelude.{◌≡◌, ◌<◌, ◌≤◌, ◌^◌, ◌&&◌, ◌||◌, ℕ, true, false, not, Some, length, take, drop, ◌++◌, IfOk};
ghost use Rattle.pipe_model.specs.Words.{is_nil};
ghost use Rattle.pipe_model.specs.Snapshot.{is_last};
ghost use Rattle.cdc_ring.specs.Rings.{Ring};
ghost use Rattle.cdc_ring.specs.Kept.{Represents as RingRepresents};
ghost use Rattle.pipe_model.specs.declared.reply.ResetCause.TheVariants.{NoLiveLink};
ghost use Rattle.pipe_model.specs.declared.sent.Sent.{Sent};
ghost use Rattle.pipe_model.specs.Ends.{Half, fresh, present as present_of, is_over, is_due_for_move, loses_group, strikes, takes, completes, moves, posts_batch, settle};
ghost use Rattle.pipe_model.specs.Closing.{may_move};
ghost use Rattle.pipe_model.specs.Calls.{Writes, Reads, Finishes, Closes, Aborts, calls};
ghost use Rattle.conn_end.specs.Kept.{Represents, SameTerms, IsNew};
ghost use Rattle.conn_end.specs.Told.{Answers, finds, wrote_told};
ghost use Rattle.conn_end.specs.Batches.{HoldsPiece, IsKeptPiece, may_post, owed_by, due_with, owed_alone, batch_of, IsPostable, pieces_for, posts_for};
ghost use Rattle.conn_end.specs.Arrivals.{Lands, MayLand, Completes, MayComplete};

mod answers;
mod closing;
mod course;
mod laws;
mod spelling;
#[cfg(test)]
mod tests;

pub use answers::{Batch, EndReply, Taken};
pub use cdc_ring::Piece;
use cdc_ring::SendRing;
use cdc_wire::CdcMessage;
use closing::Step;
use course::Course;
pub use laws::{
    an_await_is_told_by_a_read, each_end_stands_for_a_plain_one, its_links_are_its_owners,
    what_lands_may_be_taken,
};
use pipe_model::{ResetCause, Snapshot};
use smc_num::NoMemory;
use spelling::{checks, last_one, spell, spell_check};
use std::alloc::Global;
use std::marker::Model;

// No part of an element.
const NO_PIECE: Piece = Piece { place: 0, len: 0 };

/// An end. Contracts see what it keeps, and say for which plain ends that stands.
#[derive(Drop)]
pub struct ConnEnd {
    // The bytes of the peer's element.
    size: u32,
    // The number of its first message.
    first: u16,
    // The peer's alert token for the connection.
    token: u32,
    // Whether it has moved and not yet posted the validation message.
    owes_check: bool,
    // The accepted bytes that have not completed, and how many bytes it has accepted.
    ring: SendRing,
    accepted: u64,
    course: Course,
}

impl Model for ConnEnd {
    ghost use Rattle.conn_end.specs.Kept.{Kept, IsKept};

    ghost Value = { Kept };

    ghost view = { λ e. record { size = e.size; first = e.first; token = e.token; owes = e.owes_check; ring = e.ring; accepted = e.accepted; course = e.course } };

    ghost invariant = { λ e. IsKept (record { size = e.size; first = e.first; token = e.token; owes = e.owes_check; ring = e.ring; accepted = e.accepted; course = e.course }) };
}

impl ConnEnd {
    /// An end that nothing concerned, of a connection whose elements have `size` bytes. At most `depth`
    /// snapshots of it may be uncompleted, 8 at most, and `number` is that of its first one.
    pub fn new(alloc: Global, size: u32, depth: u8, number: u16) -> Result<ConnEnd, NoMemory>
        requires size { 1 ≤ size }
        requires depth { depth ≤ 8 }
        ensures end { IfOk result (λ e. Represents e (fresh number)) }
        ensures new { IfOk result (IsNew size depth number 0) }
    {
        let ring = SendRing::new(alloc, size)?;
        let course = Course::new(alloc, depth, number)?;
        Ok(ConnEnd {
            size,
            first: number,
            token: 0,
            owes_check: false,
            ring,
            accepted: 0,
            course,
        })
    }

    /// Makes the end as new for a connection. Its messages carry this token, which is the peer's.
    pub fn start(&mut self, token: u32)
        ensures end { Represents self.new (fresh self.old.first) }
        ensures new { IsNew self.old.size self.old.course.depth self.old.first token self.new }
    {
        self.token = token;
        self.owes_check = false;
        self.ring.clear();
        self.accepted = 0;
        self.course.clear(self.first);
    }

    /// Its messages carry this token from now on, where it was started before the peer's was known.
    pub fn aim(&mut self, token: u32)
        ensures { self.new ≡ record self.old { token = token } }
    {
        self.token = token;
    }

    /// Takes bytes of the application, as many as the window has room for. `Ended` after finish or
    /// close, and once the peer has closed. It has accepted fewer than 2^63 bytes.
    pub fn write(&mut self, bytes: &[u8]) -> EndReply
        requires { self.old.accepted < 2 ^ 63 }
        ensures end { (h : Half) → Represents self.old h → Represents self.new (calls self.old.size (Writes bytes.now) h) }
        ensures told { (h : Half) → Represents self.old h → Answers self.old.size (Writes bytes.now) h result }
        ensures terms { SameTerms self.old self.new }
        ensures owes { self.new.owes ≡ self.old.owes }
    {
        if let Some(cause) = self.course.cause() {
            return EndReply::Reset(cause);
        }
        if self.course.is_ended() {
            return EndReply::Ended;
        }
        if bytes.is_empty() {
            return EndReply::Wrote(0);
        }
        let count = self.ring.accept(bytes);
        self.accepted += count as u64;
        wrote(count)
    }

    /// What a read of `len` bytes would be told now.
    pub fn would_read(&self, len: u32) -> EndReply
        ensures { (h : Half) → Represents self.now h → Answers self.now.size (Reads len) h result }
    {
        self.course.would_read(self.size, len)
    }

    /// Hands out told bytes, at most `len`, by their place in the element. `Ended` after close.
    pub fn read(&mut self, len: u32) -> EndReply
        ensures end { (h : Half) → Represents self.old h → Represents self.new (calls self.old.size (Reads len) h) }
        ensures told { (h : Half) → Represents self.old h → Answers self.old.size (Reads len) h result }
        ensures terms { SameTerms self.old self.new }
        ensures owes { self.new.owes ≡ self.old.owes }
    {
        let reply = self.course.would_read(self.size, len);
        self.course.read(len);
        reply
    }

    /// The application will write no more.
    pub fn finish(&mut self) -> EndReply
        ensures end { (h : Half) → Represents self.old h → Represents self.new (calls self.old.size Finishes h) }
        ensures told { (h : Half) → Represents self.old h → Answers self.old.size Finishes h result }
        ensures terms { SameTerms self.old self.new }
        ensures owes { self.new.owes ≡ self.old.owes }
    {
        let reply = self.course.told(Step::Finish);
        self.course.finish();
        reply
    }

    /// The application closes the end.
    pub fn close(&mut self) -> EndReply
        ensures end { (h : Half) → Represents self.old h → Represents self.new (calls self.old.size Closes h) }
        ensures told { (h : Half) → Represents self.old h → Answers self.old.size Closes h result }
        ensures terms { SameTerms self.old self.new }
        ensures owes { self.new.owes ≡ self.old.owes }
    {
        let reply = self.course.told(Step::Close);
        self.course.close();
        reply
    }

    /// The application resets the connection.
    pub fn abort(&mut self) -> EndReply
        ensures end { (h : Half) → Represents self.old h → Represents self.new (calls self.old.size Aborts h) }
        ensures told { (h : Half) → Represents self.old h → Answers self.old.size Aborts h result }
        ensures terms { SameTerms self.old self.new }
        ensures owes { self.new.owes ≡ self.old.owes }
    {
        let reply = self.course.told(Step::Abort);
        self.course.abort();
        reply
    }

    /// The connection is reset for this cause: with its group, as `NoLiveLink` says, or as the peer's
    /// abort or a gap would reset it. A cause that came first stays.
    pub fn reset(&mut self, cause: ResetCause)
        ensures group { (h : Half) → Represents self.old h → cause ≡ NoLiveLink h.link.group → Represents self.new (loses_group h) }
        ensures other { (h : Half) → Represents self.old h → ((group : ℕ) → cause ≡ NoLiveLink group → ⊥) → Represents self.new (strikes cause h) }
        ensures terms { SameTerms self.old self.new }
        ensures owes { self.new.owes ≡ self.old.owes }
    {
        match cause {
            ResetCause::NoLiveLink { group } => self.course.lose_group(group),
            _ => self.course.strike(cause),
        }
    }

    /// A message of the peer lands, which spells the snapshot beside it, or is one of validation: it
    /// is found to be valid, or to show a gap. An end that is over takes no more messages.
    pub fn take_cdc(&mut self, message: &CdcMessage, plain: &Snapshot) -> Taken
        requires { MayLand self.old message.now plain.now }
        ensures end { (h : Half) (sent : Sent) → Lands self.old message.now plain.now h sent → is_over h ≡ false
            → Represents self.new (takes (Some sent) h) }
        ensures answer { (h : Half) (sent : Sent) → Lands self.old message.now plain.now h sent → result ≡ finds sent h }
        ensures terms { SameTerms self.old self.new }
        ensures owes { self.new.owes ≡ self.old.owes }
    {
        if checks(message) {
            return self.course.validate(message.number);
        }
        self.ring.acked(message.read);
        self.course.take(*plain);
        Taken::Fresh
    }

    /// Its oldest uncompleted message has completed, which spells the snapshot beside it, or one of
    /// validation has.
    pub fn completed(&mut self, message: &CdcMessage, plain: &Snapshot)
        requires { MayComplete self.old message.now plain.now }
        ensures end { (h : Half) (sent : Sent) → Completes self.old message.now plain.now h sent
            → Represents self.new (completes (Some sent) h) }
        ensures terms { SameTerms self.old self.new }
        ensures owes { self.new.owes ≡ self.old.owes }
    {
        if !checks(message) {
            self.ring.complete(message.told);
            self.course.complete(*plain);
        }
    }

    /// Moves to another link, where it is due for a move: all that has not completed is new again, and
    /// the next batch has a validation message.
    pub fn move_to(&mut self)
        ensures end { (h : Half) → Represents self.old h → is_due_for_move h ≡ true → Represents self.new (moves h) }
        ensures terms { SameTerms self.old self.new }
        ensures owes { self.new.owes ≡ true }
    {
        self.owes_check = true;
        self.ring.rewind();
        self.course.leave();
    }

    /// Whether it may move, where it is established and its link isn't live: its own closed or aborted
    /// snapshot has not completed, and its group has not ended.
    pub fn may_move(&self) -> bool
        ensures { (h : Half) → Represents self.now h → result ≡ may_move h.phase }
    {
        self.course.may_move()
    }

    /// What it posts now, where `live` says whether its link is live at its side: the validation
    /// message of a move, and what is new, if the flight has room. The last number used is below 2^63.
    pub fn next_batch(&mut self, live: bool) -> Option<Batch>
        requires { self.old.course.number < 2 ^ 63 }
        ensures end { (h : Half) → Represents self.old h → live ≡ may_post h → Represents self.new (settle self.old.course.depth h) }
        ensures batch { (h : Half) → Represents self.old h → live ≡ may_post h → result ≡ batch_of self.old h }
        ensures terms { SameTerms self.old self.new }
        ensures owes { self.new.owes ≡ (self.old.owes && not live) }
    {
        if !live {
            return None;
        }
        let check = self.take_check();
        let present = self.course.present(self.accepted);
        if self.course.is_due(present) {
            return Some(self.post(check, present));
        }
        check_alone(check)
    }

    // The validation message that it owes, which it owes no longer.
    fn take_check(&mut self) -> Option<CdcMessage>
        ensures check { (h : Half) → Represents self.old h → result ≡ owed_by self.old h }
        ensures rest { self.new ≡ record self.old { owes = false } }
    {
        if !self.owes_check {
            return None;
        }
        self.owes_check = false;
        Some(spell_check(self.size, self.token, self.course.check()))
    }

    // Posts a snapshot, which is due, with the validation message that it owed.
    fn post(&mut self, check: Option<CdcMessage>, present: Snapshot) -> Batch
        requires { IsPostable self.old present }
        ensures end { (h : Half) → Represents self.old h → present ≡ present_of h → Represents self.new (posts_batch h) }
        ensures batch { (h : Half) → Represents self.old h → present ≡ present_of h → result ≡ due_with self.old h check }
        ensures terms { SameTerms self.old self.new }
        ensures owes { self.new.owes ≡ self.old.owes }
    {
        let pieces = post_bytes(&mut self.ring, self.size, present);
        self.course.post(present);
        Batch {
            check,
            pieces,
            message: Some(spell(self.size, self.token, present)),
        }
    }

    /// The bytes of a piece that has not completed, in two parts.
    pub fn outgoing(&self, piece: Piece) -> (&[u8], &[u8])
        requires { IsKeptPiece self.now piece }
        ensures { (h : Half) (from : ℕ) → HoldsPiece self.now piece h from
            → result.0.now ++ result.1.now ≡ take piece.len (drop from h.out) }
    {
        self.ring.bytes_at(piece)
    }

    /// Whether no snapshot is uncompleted.
    pub fn idle(&self) -> bool
        ensures { (h : Half) → Represents self.now h → result ≡ is_nil h.flight }
    {
        self.course.idle()
    }

    /// Whether its own closed or aborted snapshot has completed.
    pub fn told_end(&self) -> bool
        ensures { (h : Half) → Represents self.now h → result ≡ is_last h.fin }
    {
        last_one(self.course.fin())
    }

    /// Whether the peer's closed or aborted snapshot has landed.
    pub fn peer_end(&self) -> bool
        ensures { (h : Half) → Represents self.now h → result ≡ is_last h.taken }
    {
        last_one(self.course.taken())
    }

    /// Whether both have.
    pub fn over(&self) -> bool
        ensures { (h : Half) → Represents self.now h → result ≡ is_over h }
    {
        self.told_end() && self.peer_end()
    }

    /// Whether the peer has told that it will write no more.
    pub fn peer_done(&self) -> bool
        ensures { (h : Half) → Represents self.now h → result ≡ (h.taken.done || h.taken.closed) }
    {
        let taken = self.course.taken();
        taken.done || taken.closed
    }

    /// Whether the peer has told that it has closed.
    pub fn peer_closed(&self) -> bool
        ensures { (h : Half) → Represents self.now h → result ≡ h.taken.closed }
    {
        self.course.taken().closed
    }

    /// The snapshot against which it finds something new: the last one posted, or after a move the last
    /// completed one until the next is posted.
    pub fn last(&self) -> Snapshot
        ensures { (h : Half) → Represents self.now h → result ≡ h.last }
    {
        self.course.last()
    }
}

// What a write of some bytes is told.
fn wrote(count: u32) -> EndReply
    ensures { result ≡ wrote_told count }
{
    if count == 0 {
        EndReply::Full
    } else {
        EndReply::Wrote(count)
    }
}

// A validation message without another one.
fn check_alone(check: Option<CdcMessage>) -> Option<Batch>
    ensures { result ≡ owed_alone check }
{
    let check = check?;
    Some(Batch {
        check: Some(check),
        pieces: (NO_PIECE, NO_PIECE),
        message: None,
    })
}

// Posts the bytes that a snapshot tells, and says where they go; an aborted one tells none.
fn post_bytes(ring: &mut SendRing, size: u32, present: Snapshot) -> (Piece, Piece)
    requires some { 0 < size }
    requires room { length ring.old.marks < 8 }
    ensures pieces { (r : Ring) → RingRepresents ring.old r → result ≡ pieces_for size present r }
    ensures ring { (r : Ring) → RingRepresents ring.old r → RingRepresents ring.new (posts_for present r) }
{
    if present.aborted {
        let place = (present.told % size as u64) as u32;
        return (Piece { place, len: 0 }, NO_PIECE);
    }
    let pieces = ring.pieces();
    ring.posted();
    pieces
}
