//! What the calls on an end are told.
ghost use Rattle.std.specs.Prelude.{◌≡◌, ℕ, List, IfOk};
ghost use Rattle.pipe_model.specs.Closing.{cause_of};
ghost use Rattle.pipe_model.specs.Calls.{write_told, read_told, await_told, move_told, call_told, reset_told, half_told, Plain};
ghost use Rattle.pipe_model.specs.Plain.{call_of, told_of};

use crate::plain::asked::{PlainCall, PlainTold};
use crate::plain::closing::{abort_reply, cause, close_reply, closing, finish_reply};
use crate::plain::end::PlainEnd;
use crate::plain::lists::{behind, front};
use crate::reply::{Reply, ResetCause};
use std::alloc::{AllocError, Global};

impl PlainEnd {
    /// What a write is told, where no reset came.
    fn write_told(&self, size: u32, bytes: &[u8]) -> Reply
        ensures { result ≡ write_told size bytes.now self.now }
    {
        let window = self.window(size);
        if self.is_ended() {
            Reply::Ended
        } else if bytes.is_empty() {
            Reply::Wrote(0)
        } else if window == 0 {
            Reply::Full
        } else {
            Reply::Wrote((bytes.len() as u64).min(window) as u32)
        }
    }

    /// What a read is told, where no reset came and the peer has accepted these bytes.
    fn read_told(&self, alloc: Global, n: u32, peer: &[u8]) -> Result<PlainTold, AllocError>
        ensures { IfOk result (λ t. told_of t ≡ read_told n self.now peer.now) }
    {
        if closing(self.phase) {
            Ok(PlainTold::Answer(Reply::Ended))
        } else if n == 0 {
            Ok(PlainTold::HandsOut(Vec::new(alloc)))
        } else if self.unread() > 0 {
            let count = (n as u64).min(self.unread());
            let bytes = front(behind(peer, self.rd as usize), count);
            Ok(PlainTold::HandsOut(Vec::from_slice(alloc, bytes)?))
        } else if self.taken.done || self.taken.closed {
            Ok(PlainTold::Answer(Reply::End))
        } else {
            Ok(PlainTold::Answer(Reply::Empty))
        }
    }

    /// What an await is told, where no reset came: whether a read of one byte would give something.
    fn await_told(&self) -> Reply
        ensures { (peer_out : List ℕ) → result ≡ await_told (read_told 1 self.now peer_out) }
    {
        if closing(self.phase) || self.unread() > 0 || self.taken.done || self.taken.closed {
            Reply::Done
        } else {
            Reply::Idle
        }
    }

    /// What a move is told, reset or not.
    fn move_told(&self) -> Reply
        ensures { result ≡ move_told self.now }
    {
        if self.is_due_for_move() {
            Reply::Moved {
                from: self.link.slot,
                to: self.lowest_link().slot,
            }
        } else {
            Reply::Idle
        }
    }

    /// What a call is told, where no reset came.
    fn call_told(
        &self,
        alloc: Global,
        size: u32,
        call: PlainCall<'_>,
        peer: &[u8],
    ) -> Result<PlainTold, AllocError>
        ensures { IfOk result (λ t. told_of t ≡ call_told size (call_of call.entry) self.now peer.now) }
    {
        let reply = match call {
            PlainCall::Write(bytes) => self.write_told(size, bytes),
            PlainCall::Read(n) => return self.read_told(alloc, n, peer),
            PlainCall::Finish => finish_reply(self.phase),
            PlainCall::Close => close_reply(self.phase),
            PlainCall::Abort => abort_reply(self.phase),
            PlainCall::Await => self.await_told(),
            PlainCall::Move => self.move_told(),
        };
        Ok(PlainTold::Answer(reply))
    }

    /// What a call is told after a reset.
    fn reset_told(&self, cause: ResetCause, call: PlainCall<'_>) -> Reply
        ensures { Plain result ≡ reset_told cause (call_of call.entry) self.now }
    {
        match call {
            PlainCall::Await => Reply::Done,
            PlainCall::Move => self.move_told(),
            _ => Reply::Reset(cause),
        }
    }

    /// What a call is told, where the peer has accepted these bytes.
    pub fn told(
        &self,
        alloc: Global,
        size: u32,
        call: PlainCall<'_>,
        peer: &[u8],
    ) -> Result<PlainTold, AllocError>
        ensures { IfOk result (λ t. told_of t ≡ half_told size (call_of call.entry) self.now peer.now (cause_of self.now.phase)) }
    {
        match cause(self.phase) {
            None => self.call_told(alloc, size, call, peer),
            Some(cause) => Ok(PlainTold::Answer(self.reset_told(cause, call))),
        }
    }
}
