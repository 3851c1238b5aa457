//! What happens to an end from outside: it comes up, links of its group become live and dead, its
//! group ends, and messages land and complete.
ghost use Rattle.std.specs.Prelude.{◌≡◌, ◌<◌, ◌↔◌, OnOk, IsSome, length};
ghost use Rattle.smc_num.specs.Names.{head};
ghost use Rattle.smc_num.specs.Numbers.{wire_number};
ghost use Rattle.pipe_model.specs.Snapshot.{shows_gap};
ghost use Rattle.pipe_model.specs.Ends.{comes_up, meets_fate, loses_group, strikes, to_land, to_complete, lands, takes_snapshot, validates, takes, counts_completed, completes};

use crate::plain::closing::{on_completion, on_group_end, on_strike};
use crate::plain::end::PlainEnd;
use crate::plain::links::{put_in, take_out};
use crate::plain::lists::next;
use crate::reply::ResetCause;
use crate::sent::Sent;
use crate::snapshot::Snapshot;
use smc_num::{LinkId, LinkPhase, Seq16};
use std::alloc::AllocError;

/// The 16 bits of a number that a message carries.
fn on_wire(number: u64) -> u16
    ensures { result ≡ wire_number number }
{
    (number % 65_536) as u16
}

/// Whether a validation message of number `told` shows that a snapshot after number `taken` was
/// lost.
fn gap(told: u64, taken: u64) -> bool
    ensures { result ≡ shows_gap told taken }
{
    Seq16(on_wire(taken)).behind(Seq16(on_wire(told)))
}

impl PlainEnd {
    /// It is established on a link.
    pub fn come_up(&mut self, link: LinkId)
        ensures { self.new ≡ comes_up link self.old }
    {
        self.up = true;
        self.link = link;
    }

    /// A link of its group becomes live at its side, or stops being so.
    pub fn meet_fate(&mut self, link: LinkId, phase: LinkPhase) -> Result<(), AllocError>
        ensures { OnOk result (self.new ≡ meets_fate link phase self.old) }
    {
        match phase {
            LinkPhase::Live => put_in(link, &mut self.live)?,
            _ => take_out(link, &mut self.live),
        }
        Ok(())
    }

    /// Its group ends at its side.
    pub fn lose_group(&mut self)
        ensures { self.new ≡ loses_group self.old }
    {
        self.stands = false;
        self.phase = on_group_end(self.link.group, self.phase);
    }

    /// A peer's abort or a gap strikes it.
    fn strike(&mut self, cause: ResetCause)
        ensures { self.new ≡ strikes cause self.old }
    {
        self.phase = on_strike(cause, self.phase);
    }

    /// Its oldest message that has not landed.
    pub fn next_to_land(&self) -> Option<Sent>
        ensures message { result ≡ head (to_land self.now) }
        ensures any { IsSome result ↔ (self.now.landed < length self.now.sent) }
    {
        next(&self.sent, self.landed)
    }

    /// Its oldest message that has not completed.
    pub fn next_to_complete(&self) -> Option<Sent>
        ensures message { result ≡ head (to_complete self.now) }
        ensures any { IsSome result ↔ (self.now.completed < length self.now.sent) }
    {
        next(&self.sent, self.completed)
    }

    /// Its next message leaves it for the peer.
    pub fn land(&mut self)
        requires { self.old.landed < length self.old.sent }
        ensures { self.new ≡ lands self.old }
    {
        self.landed += 1;
    }

    /// It takes a snapshot of its peer.
    fn take_snapshot(&mut self, s: Snapshot)
        ensures { self.new ≡ takes_snapshot s self.old }
    {
        self.taken = s;
        if s.aborted {
            self.strike(ResetCause::PeerAbort);
        }
    }

    /// It takes a validation message of its peer.
    fn validate(&mut self, told: u64)
        ensures { self.new ≡ validates told self.old }
    {
        let taken = self.taken.number;
        if gap(told, taken) {
            self.strike(ResetCause::Gap {
                told: on_wire(told),
                taken: on_wire(taken),
            });
        }
    }

    /// A message of the peer lands. Once the end is over it is dropped.
    pub fn take(&mut self, message: Option<Sent>)
        ensures { self.new ≡ takes message self.old }
    {
        match message {
            Some(m) if !self.is_over() => {
                if m.check {
                    self.validate(m.snapshot.number);
                } else {
                    self.take_snapshot(m.snapshot);
                }
            }
            _ => {}
        }
    }

    /// One message more has completed; one that is swallowed counts as landed too.
    fn count_completed(&mut self)
        requires { self.old.completed < length self.old.sent }
        ensures { self.new ≡ counts_completed self.old }
    {
        self.completed += 1;
        self.landed = self.landed.max(self.completed);
    }

    /// Its oldest uncompleted message completes.
    pub fn complete(&mut self)
        ensures { self.new ≡ completes (head (to_complete self.old)) self.old }
    {
        if let Some(m) = self.next_to_complete() {
            self.count_completed();
            if !m.check {
                self.fin = m.snapshot;
                if !self.flight.is_empty() {
                    self.flight.remove(0);
                }
                self.phase = on_completion(m.snapshot, self.phase);
            }
        }
    }
}
