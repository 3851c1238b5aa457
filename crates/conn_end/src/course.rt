//! How far an end has come, without the bytes that it keeps.
//!
//! Each contract speaks of any end that has come so far.
ghost use Rattle.std.specs.Prelude.{◌≡◌, ◌<◌, ◌≤◌, ◌^◌, ◌&&◌, if◌then◌else◌, ◌++◌, ◌∷◌, [], ℕ, false, not, nat_lt, List, length, drop, IfOk};
ghost use Rattle.pipe_model.specs.Snapshot.{tells_same};
ghost use Rattle.pipe_model.specs.Closing.{cause_of as cause_in, is_group_gone, ended_with, after_posting, after_completing, after_moving, may_move};
ghost use Rattle.smc_num.specs.Names.{head};
ghost use Rattle.pipe_model.specs.Words.{is_nil};
ghost use Rattle.pipe_model.specs.Ends.{Half, fresh, present, check, takes_snapshot, validates, strikes};
ghost use Rattle.pipe_model.specs.Calls.{Reads, is_ended, reads, finishes, closes, aborts, half_told};
ghost use Rattle.pipe_model.specs.Parts.{is_shut};
ghost use Rattle.conn_end.specs.Kept.{course_of, at_course};
ghost use Rattle.conn_end.specs.Told.{told_of, IsPlaced, found};
ghost use Rattle.conn_end.specs.Table.{after_step, told_step};

use crate::answers::{EndReply, Taken};
use crate::closing::{
    ClosingTable, Step, cause_of, closing, finished, group_gone, may_move, on_completion,
    on_group_end, on_move, on_posting,
};
use crate::spelling::{first, same_told, wire};
use circular_buffer::HeapCircularBuffer;
use pipe_model::{Phase, ResetCause, Snapshot};
use smc_num::{NoMemory, Seq16};
use std::alloc::Global;
use std::marker::Model;

/// How far an end has come.
#[derive(Drop)]
pub(crate) struct Course {
    // How many snapshots may be under way.
    depth: u8,
    // How many bytes of its peer it has read.
    read: u64,
    // The snapshot last taken from its peer, its own last completed one, and the one against which
    // it finds something new.
    taken: Snapshot,
    fin: Snapshot,
    last: Snapshot,
    // The number last used.
    number: u64,
    // Its uncompleted snapshots, the oldest first.
    flight: HeapCircularBuffer<Snapshot>,
    phase: Phase,
    // Whether finish or close was called.
    finished: bool,
    closing: ClosingTable,
}

impl Model for Course {
    ghost use Rattle.std.specs.Prelude.{◌≡◌};
    ghost use Rattle.conn_end.specs.Kept.{Course as Came};

    ghost Value = { Came };

    ghost view = { λ c. record { depth = c.depth; read = c.read; taken = c.taken; fin = c.fin; last = c.last; number = c.number; flight = c.flight.items; phase = c.phase; finished = c.finished } };

    ghost invariant = { λ c. c.flight.capacity ≡ c.depth };
}

impl Course {
    /// An end that nothing concerned; `number` is that of its first snapshot.
    pub(crate) fn new(alloc: Global, depth: u8, number: u16) -> Result<Course, NoMemory>
        ensures { IfOk result (λ c. c ≡ course_of depth (fresh number)) }
    {
        let flight = HeapCircularBuffer::with_capacity(alloc, depth as usize).map_err(
            |_| NoMemory,
        )?;
        let first = first(number);
        Ok(Course {
            depth,
            read: 0,
            taken: first,
            fin: first,
            last: first,
            number: first.number,
            flight,
            phase: Phase::Open,
            finished: false,
            closing: ClosingTable::new(),
        })
    }

    /// Begins anew.
    pub(crate) fn clear(&mut self, number: u16)
        ensures { self.new ≡ course_of self.old.depth (fresh number) }
    {
        let first = first(number);
        self.read = 0;
        self.taken = first;
        self.fin = first;
        self.last = first;
        self.number = first.number;
        self.flight.clear();
        self.phase = Phase::Open;
        self.finished = false;
    }

    /// Why it is reset.
    pub(crate) fn cause(&self) -> Option<ResetCause>
        ensures { result ≡ cause_in self.now.phase }
    {
        cause_of(self.phase)
    }

    /// Whether it takes no more bytes.
    pub(crate) fn is_ended(&self) -> bool
        ensures { (h : Half) → result ≡ is_ended (at_course self.now h) }
    {
        (closing(self.phase) || self.taken.closed) || finished(self.phase)
    }

    /// What a read of `len` bytes would be told, from an element of `size` bytes.
    pub(crate) fn would_read(&self, size: u32, len: u32) -> EndReply
        requires some { 0 < size }
        requires reads { is_shut self.now.phase ≡ false → self.now.read ≤ self.now.taken.told }
        ensures told { (h : Half) (peer_out : List ℕ) → told_of result self.now.read peer_out
            ≡ half_told size (Reads len) (at_course self.now h) peer_out (cause_in self.now.phase) }
        ensures place { IsPlaced size self.now.read result }
    {
        if let Some(cause) = cause_of(self.phase) {
            return EndReply::Reset(cause);
        }
        if closing(self.phase) {
            return EndReply::Ended;
        }
        let from = (self.read % size as u64) as u32;
        if len == 0 {
            return EndReply::Take { from, len: 0 };
        }
        let unread = self.taken.told - self.read;
        if unread > 0 {
            EndReply::Take {
                from,
                len: (len as u64).min(unread) as u32,
            }
        } else if self.taken.done || self.taken.closed {
            EndReply::End
        } else {
            EndReply::Empty
        }
    }

    /// Hands out told bytes.
    pub(crate) fn read(&mut self, len: u32)
        requires { is_shut self.old.phase ≡ false → self.old.read ≤ self.old.taken.told }
        ensures end { (h : Half) → at_course self.new h ≡ reads len (at_course self.old h) }
        ensures rest { self.new ≡ record self.old { read = self.new.read } }
        ensures told { is_shut self.new.phase ≡ false → self.new.read ≤ self.new.taken.told }
    {
        if !(cause_of(self.phase).is_some() || closing(self.phase)) {
            self.read += (len as u64).min(self.taken.told - self.read);
        }
    }

    // The closing table leads it on.
    fn go_on(&mut self, step: Step)
        ensures { self.new ≡ record self.old { phase = after_step step self.old.phase } }
    {
        self.phase = self.closing.after(step, self.phase);
    }

    /// What finish, close or abort is told.
    pub(crate) fn told(&self, step: Step) -> EndReply
        ensures { (rd : ℕ) (peer_out : List ℕ) → told_of result rd peer_out ≡ told_step step (cause_in self.now.phase) self.now.phase }
    {
        match cause_of(self.phase) {
            Some(cause) => EndReply::Reset(cause),
            None => self.closing.told(step, self.phase),
        }
    }

    /// The application calls finish.
    pub(crate) fn finish(&mut self)
        ensures end { (h : Half) → at_course self.new h ≡ finishes (at_course self.old h) }
        ensures rest { self.new ≡ record self.old { phase = self.new.phase; finished = self.new.finished } }
    {
        if cause_of(self.phase).is_none() {
            self.finished = true;
            self.go_on(Step::Finish);
        }
    }

    /// It calls close.
    pub(crate) fn close(&mut self)
        ensures end { (h : Half) → at_course self.new h ≡ closes (at_course self.old h) }
        ensures rest { self.new ≡ record self.old { phase = self.new.phase; finished = self.new.finished } }
    {
        if cause_of(self.phase).is_none() {
            self.finished = true;
            self.go_on(Step::Close);
        }
    }

    /// It calls abort.
    pub(crate) fn abort(&mut self)
        ensures end { (h : Half) → at_course self.new h ≡ aborts (at_course self.old h) }
        ensures rest { self.new ≡ record self.old { phase = self.new.phase } }
    {
        self.go_on(Step::Abort);
    }

    /// The peer's abort or a gap strikes it.
    pub(crate) fn strike(&mut self, cause: ResetCause)
        ensures end { (h : Half) → at_course self.new h ≡ strikes cause (at_course self.old h) }
        ensures rest { self.new ≡ record self.old { phase = self.new.phase } }
    {
        self.go_on(Step::Strike(cause));
    }

    /// Its group ends at its side.
    pub(crate) fn lose_group(&mut self, group: u32)
        ensures { self.new ≡ record self.old { phase = ended_with group self.old.phase } }
    {
        self.phase = on_group_end(group, self.phase);
    }

    /// It takes a snapshot of its peer.
    pub(crate) fn take(&mut self, s: Snapshot)
        ensures end { (h : Half) → at_course self.new h ≡ takes_snapshot s (at_course self.old h) }
        ensures rest { self.new ≡ record self.old { taken = s; phase = self.new.phase } }
    {
        self.taken = s;
        if s.aborted {
            self.strike(ResetCause::PeerAbort);
        }
    }

    /// It takes a validation message with the wire number `told`.
    pub(crate) fn validate(&mut self, told: u16) -> Taken
        ensures end { (h : Half) → at_course self.new h ≡ validates told (at_course self.old h) }
        ensures rest { self.new ≡ record self.old { phase = self.new.phase } }
        ensures answer { result ≡ found told self.old.taken.number }
    {
        let taken = wire(self.taken.number);
        if !Seq16(taken).behind(Seq16(told)) {
            return Taken::Valid;
        }
        self.strike(ResetCause::Gap { told, taken });
        Taken::Gap { told, taken }
    }

    /// Its oldest snapshot under way completes.
    pub(crate) fn complete(&mut self, s: Snapshot)
        ensures { self.new ≡ record self.old { fin = s; flight = drop 1 self.old.flight; phase = after_completing s self.old.phase } }
    {
        self.fin = s;
        self.flight.pop_front();
        self.phase = on_completion(s, self.phase);
    }

    /// What it would tell now, where it has accepted so many bytes.
    pub(crate) fn present(&self, accepted: u64) -> Snapshot
        requires { self.now.number < 2 ^ 63 }
        ensures now { (h : Half) → accepted ≡ length h.out → result ≡ present (at_course self.now h) }
        ensures told { result.told ≡ (if result.aborted then self.now.last.told else accepted) }
    {
        let reset = cause_of(self.phase).is_some();
        Snapshot {
            number: self.number + 1,
            told: if reset { self.last.told } else { accepted },
            read: self.read,
            done: self.finished,
            closed: closing(self.phase) && self.fin.told == accepted,
            aborted: reset,
        }
    }

    /// Whether what it would tell now is new, and may be told: the flight is not full.
    pub(crate) fn is_due(&self, present: Snapshot) -> bool
        ensures { result ≡ (not (is_group_gone self.now.phase)
            && (nat_lt (length self.now.flight) self.now.depth && not (tells_same present self.now.last))) }
    {
        !group_gone(self.phase)
            && (self.flight.len() < self.depth as usize && !same_told(present, self.last))
    }

    /// It posts a snapshot, for which the flight has room.
    pub(crate) fn post(&mut self, s: Snapshot)
        requires { length self.old.flight < self.old.depth }
        ensures { self.new ≡ record self.old {
          last = s;
          number = s.number;
          flight = self.old.flight ++ s ∷ [];
          phase = after_posting s self.old.phase;
        } }
    {
        self.flight.push_back(s);
        self.last = s;
        self.number = s.number;
        self.phase = on_posting(s, self.phase);
    }

    /// The snapshot of the validation message of a move.
    pub(crate) fn check(&self) -> Snapshot
        ensures { (h : Half) → result ≡ (check (at_course self.now h)).snapshot }
    {
        Snapshot {
            number: self.fin.number,
            told: self.fin.told,
            read: self.read,
            done: false,
            closed: false,
            aborted: false,
        }
    }

    /// It leaves its link: what has not completed is forgotten, and it goes on from the last completed
    /// snapshot.
    pub(crate) fn leave(&mut self)
        ensures { self.new ≡ record self.old { last = self.old.fin; flight = []; phase = after_moving self.old.phase } }
    {
        self.last = self.fin;
        self.flight.clear();
        self.phase = on_move(self.phase);
    }

    /// Whether it may leave its link.
    pub(crate) fn may_move(&self) -> bool
        ensures { result ≡ may_move self.now.phase }
    {
        may_move(self.phase)
    }

    /// Whether no snapshot is uncompleted.
    pub(crate) fn idle(&self) -> bool
        ensures { result ≡ is_nil self.now.flight }
    {
        self.flight.is_empty()
    }

    /// The snapshot last taken from its peer.
    pub(crate) fn taken(&self) -> Snapshot
        ensures { result ≡ self.now.taken }
    {
        self.taken
    }

    /// Its own last completed snapshot.
    pub(crate) fn fin(&self) -> Snapshot
        ensures { result ≡ self.now.fin }
    {
        self.fin
    }

    /// The snapshot against which it finds something new.
    pub(crate) fn last(&self) -> Snapshot
        ensures { result ≡ self.now.last }
    {
        self.last
    }

    /// How many bytes of its peer it has read.
    #[cfg(test)]
    pub(crate) fn bytes_read(&self) -> u64
        ensures { result ≡ self.now.read }
    {
        self.read
    }

    /// The number last used.
    #[cfg(test)]
    pub(crate) fn number(&self) -> u64
        ensures { result ≡ self.now.number }
    {
        self.number
    }

    /// The oldest snapshot under way.
    #[cfg(test)]
    pub(crate) fn oldest(&self) -> Option<Snapshot>
        ensures { result ≡ head self.now.flight }
    {
        self.flight.front().copied()
    }
}
