//! The calls of an application on an end: what each does, and what it is told.
ghost use Rattle.std.specs.Prelude.{◌≡◌, OnOk, is_some};
ghost use Rattle.pipe_model.specs.Closing.{cause_of};
ghost use Rattle.pipe_model.specs.Ends.{lowest_link, is_due_for_move, check, moves};
ghost use Rattle.pipe_model.specs.Calls.{is_ended, accepts, reads, finishes, closes, aborts, calls};
ghost use Rattle.pipe_model.specs.Plain.{call_of};

use crate::plain::asked::PlainCall;
use crate::plain::closing::{
    cause, closing, finished, movable, on_abort, on_close, on_finish, on_move,
};
use crate::plain::end::PlainEnd;
use crate::plain::links::is_live;
use crate::plain::lists::front;
use crate::sent::Sent;
use crate::snapshot::Snapshot;
use smc_num::LinkId;
use std::alloc::AllocError;

impl PlainEnd {
    /// Whether it takes no more bytes.
    pub(super) fn is_ended(&self) -> bool
        ensures { result ≡ is_ended self.now }
    {
        (closing(self.phase) || self.taken.closed) || finished(self.phase)
    }

    /// Whether it was reset.
    fn is_reset(&self) -> bool
        ensures { result ≡ is_some (cause_of self.now.phase) }
    {
        cause(self.phase).is_some()
    }

    /// Takes bytes of the application, as many as the window has room for.
    pub fn write(&mut self, size: u32, bytes: &[u8]) -> Result<(), AllocError>
        ensures { OnOk result (self.new ≡ accepts size bytes.now self.old) }
    {
        if !(self.is_reset() || self.is_ended()) {
            let window = self.window(size);
            self.out.extend_from_slice(front(bytes, window))?;
        }
        Ok(())
    }

    /// Hands out bytes that were told.
    pub fn read(&mut self, n: u32)
        ensures { self.new ≡ reads n self.old }
    {
        if !(self.is_reset() || closing(self.phase)) {
            self.rd += (n as u64).min(self.unread());
        }
    }

    /// The application calls finish.
    pub fn finish(&mut self)
        ensures { self.new ≡ finishes self.old }
    {
        if !self.is_reset() {
            self.finished = true;
            self.phase = on_finish(self.phase);
        }
    }

    /// It calls close.
    pub fn close(&mut self)
        ensures { self.new ≡ closes self.old }
    {
        if !self.is_reset() {
            self.finished = true;
            self.phase = on_close(self.phase);
        }
    }

    /// It calls abort.
    pub fn abort(&mut self)
        ensures { self.new ≡ aborts self.old }
    {
        self.phase = on_abort(self.phase);
    }

    /// The lowest live link of its group, or its own where there is none.
    pub fn lowest_link(&self) -> LinkId
        ensures { result ≡ lowest_link self.now }
    {
        match self.live.as_slice() {
            [lowest, ..] => *lowest,
            [] => self.link,
        }
    }

    /// Whether it may move to another link.
    pub fn is_due_for_move(&self) -> bool
        ensures { result ≡ is_due_for_move self.now }
    {
        (self.up && self.stands) && (!is_live(self.link, &self.live) && movable(self.phase))
    }

    /// The validation message of a move.
    fn check(&self) -> Sent
        ensures { result ≡ check self.now }
    {
        Sent {
            link: self.lowest_link(),
            check: true,
            from: self.fin.told,
            snapshot: Snapshot {
                number: self.fin.number,
                told: self.fin.told,
                read: self.rd,
                done: false,
                closed: false,
                aborted: false,
            },
        }
    }

    /// Moves to another link: what has not completed is left behind, and it goes on from the last
    /// completed snapshot.
    pub fn change_link(&mut self) -> Result<(), AllocError>
        ensures { OnOk result (self.new ≡ moves self.old) }
    {
        if self.is_due_for_move() {
            let posted = self.sent.len();
            let check = self.check();
            self.sent.push(check)?;
            self.link = check.link;
            self.last = self.fin;
            self.flight.clear();
            self.phase = on_move(self.phase);
            self.landed = posted;
            self.completed = posted;
        }
        Ok(())
    }

    /// What the call does.
    pub fn call(&mut self, size: u32, call: PlainCall<'_>) -> Result<(), AllocError>
        ensures { OnOk result (self.new ≡ calls size (call_of call.entry) self.old) }
    {
        match call {
            PlainCall::Write(bytes) => return self.write(size, bytes),
            PlainCall::Read(n) => self.read(n),
            PlainCall::Finish => self.finish(),
            PlainCall::Close => self.close(),
            PlainCall::Abort => self.abort(),
            PlainCall::Await => {}
            PlainCall::Move => return self.change_link(),
        }
        Ok(())
    }
}
