//! One end of a connection.
ghost use Rattle.std.specs.Prelude.{◌≡◌, ◌<◌, ◌^◌, ◌+◌, OnOk, drop};
ghost use Rattle.pipe_model.specs.Snapshot.{first_snapshot, tells_same, is_last};
ghost use Rattle.pipe_model.specs.Ends.{fresh, window, unread, is_over, present, is_due, batch, settle};

use crate::closing::Phase;
use crate::plain::closing::{cause, closing, group_gone, on_posting};
use crate::plain::links::is_live;
use crate::plain::lists::behind;
use crate::sent::Sent;
use crate::snapshot::Snapshot;
use smc_num::LinkId;
use std::alloc::{AllocError, Global};
use std::marker::Model;

/// An end. Contracts see the record `Half` of it.
#[derive(Drop)]
pub struct PlainEnd {
    /// Whether it is established, and on which link.
    pub(super) up: bool,
    pub(super) link: LinkId,
    /// The live links of its group, lowest slot first, and whether the group stands.
    pub(super) live: Vec<LinkId>,
    pub(super) stands: bool,
    /// All bytes that it accepted, and how many bytes of its peer it has read.
    pub(super) out: Vec<u8>,
    pub(super) rd: u64,
    /// The snapshot last taken from its peer, its own last completed one, and the one against which
    /// it finds something new.
    pub(super) taken: Snapshot,
    pub(super) fin: Snapshot,
    pub(super) last: Snapshot,
    /// The number last used.
    pub(super) number: u64,
    /// Its uncompleted snapshots, the oldest first.
    pub(super) flight: Vec<Snapshot>,
    pub(super) phase: Phase,
    pub(super) finished: bool,
    /// All messages that it posted, and how many of them have landed and completed.
    pub(super) sent: Vec<Sent>,
    pub(super) landed: usize,
    pub(super) completed: usize,
}

impl Model for PlainEnd {
    ghost use Rattle.std.specs.Prelude.{length};
    ghost use Rattle.pipe_model.specs.Ends.{Half};
    ghost use Rattle.pipe_model.specs.Plain.{IsCounted};

    ghost Value = { Half };

    ghost view = { λ e. record {
      up = e.up;
      link = e.link;
      live = e.live.items;
      stands = e.stands;
      out = e.out.items;
      rd = e.rd;
      taken = e.taken;
      fin = e.fin;
      last = e.last;
      number = e.number;
      flight = e.flight.items;
      phase = e.phase;
      finished = e.finished;
      sent = e.sent.items;
      landed = e.landed;
      completed = e.completed;
    } };

    ghost invariant = { λ e. IsCounted (length e.sent.items) e.number e.landed };
}

/// What counts as told and taken before anything was.
fn first(number: u16) -> Snapshot
    ensures { result ≡ first_snapshot number }
{
    Snapshot {
        number: (number as u64).saturating_sub(1),
        told: 0,
        read: 0,
        done: false,
        closed: false,
        aborted: false,
    }
}

/// Whether two snapshots tell the same, whatever their numbers.
fn same_told(a: Snapshot, b: Snapshot) -> bool
    ensures { result ≡ tells_same a b }
{
    (a.told == b.told && a.read == b.read)
        && (a.done == b.done && (a.closed == b.closed && a.aborted == b.aborted))
}

/// Whether an end tells nothing after it.
fn last_one(s: Snapshot) -> bool
    ensures { result ≡ is_last s }
{
    s.closed || s.aborted
}

impl PlainEnd {
    /// An end that nothing concerned; `number` is that of its first snapshot.
    pub fn new(alloc: Global, number: u16) -> PlainEnd
        ensures { result ≡ fresh number }
    {
        let first = first(number);
        PlainEnd {
            up: false,
            link: LinkId {
                group: 0,
                slot: 0,
                incarnation: 0,
            },
            live: Vec::new(alloc),
            stands: true,
            out: Vec::new(alloc),
            rd: 0,
            taken: first,
            fin: first,
            last: first,
            number: first.number,
            flight: Vec::new(alloc),
            phase: Phase::Open,
            finished: false,
            sent: Vec::new(alloc),
            landed: 0,
            completed: 0,
        }
    }

    /// All bytes that it accepted.
    pub fn accepted(&self) -> &[u8]
        ensures { result.now ≡ self.now.out }
    {
        self.out.as_slice()
    }

    /// All messages that it posted, the first one first.
    pub fn sent(&self) -> &[Sent]
        ensures { result.now ≡ self.now.sent }
    {
        self.sent.as_slice()
    }

    /// The messages that it posted after the first `count`.
    pub fn sent_since(&self, count: usize) -> &[Sent]
        ensures { result.now ≡ drop count self.now.sent }
    {
        behind(&self.sent, count)
    }

    /// How many bytes more it may accept, with elements of `size` bytes.
    pub fn window(&self, size: u32) -> u64
        ensures { result ≡ window size self.now }
    {
        let free_to = self.taken.read.min(self.fin.told);
        (size as u64).saturating_sub((self.out.len() as u64).saturating_sub(free_to))
    }

    /// How many told bytes it has not read.
    pub fn unread(&self) -> u64
        ensures count { result ≡ unread self.now }
        ensures fits { self.now.rd + result < 2 ^ 64 }
    {
        self.taken.told.saturating_sub(self.rd)
    }

    /// Whether both ends have told their last snapshot.
    pub fn is_over(&self) -> bool
        ensures { result ≡ is_over self.now }
    {
        last_one(self.fin) && last_one(self.taken)
    }

    /// What it would tell now.
    pub fn present(&self) -> Snapshot
        ensures { result ≡ present self.now }
    {
        let reset = cause(self.phase).is_some();
        let accepted = self.out.len() as u64;
        Snapshot {
            number: self.number + 1,
            told: if reset { self.last.told } else { accepted },
            read: self.rd,
            done: self.finished,
            closed: closing(self.phase) && self.fin.told == accepted,
            aborted: reset,
        }
    }

    /// Whether it has something new to tell, and may tell it now; at most `depth` snapshots may be
    /// uncompleted.
    pub fn is_due(&self, depth: u8) -> bool
        ensures { result ≡ is_due depth self.now }
    {
        (self.up && !group_gone(self.phase))
            && (is_live(self.link, &self.live)
                && (self.flight.len() < depth as usize && !same_told(self.present(), self.last)))
    }

    /// The message that it posts when it is due.
    fn batch(&self) -> Sent
        ensures { result ≡ batch self.now }
    {
        let snapshot = self.present();
        Sent {
            link: self.link,
            check: false,
            from: if snapshot.aborted {
                snapshot.told
            } else {
                self.last.told
            },
            snapshot,
        }
    }

    /// Posts what is due.
    pub fn settle(&mut self, depth: u8) -> Result<(), AllocError>
        ensures { OnOk result (self.new ≡ settle depth self.old) }
    {
        if self.is_due(depth) {
            let batch = self.batch();
            let told = batch.snapshot;
            self.flight.push(told)?;
            self.sent.push(batch)?;
            self.last = told;
            self.number = told.number;
            self.phase = on_posting(told, self.phase);
        }
        Ok(())
    }
}
