//! What happens to the end of a connection.
ghost use Rattle.std.specs.Prelude.{◌≡◌};
ghost use Rattle.pipe_model.specs.Calls.{calls};
ghost use Rattle.pipe_model.specs.Ends.{Half};
ghost use Rattle.conn_end.specs.Kept.{Represents, SameTerms};
ghost use Rattle.conn_end.specs.Told.{Answers};
ghost use Rattle.side_core.specs.Changes.{MayCome, Makes, Tells, named};

use cdc_wire::CdcMessage;
use conn_end::{ConnEnd, EndReply};
use pipe_model::Snapshot;

/// How the application ends its part of a connection (RFC 7609, section 4.8).
#[derive(Clone, Copy, Debug, PartialEq, Eq)]
pub enum EndCall {
    /// It hands over no more bytes, and may go on reading.
    Finish,
    /// It neither hands over nor reads any more; what it handed over still goes out.
    Close,
    /// It resets the connection; what has not been told goes out no more.
    Abort,
}

impl EndCall {
    /// Makes the call on the end.
    fn make(self, end: &mut ConnEnd) -> EndReply
        ensures end { (h : Half) → Represents end.old h → Represents end.new (calls end.old.size (named self) h) }
        ensures told { (h : Half) → Represents end.old h → Answers end.old.size (named self) h result }
        ensures terms { SameTerms end.old end.new }
        ensures owes { end.new.owes ≡ end.old.owes }
    {
        match self {
            EndCall::Finish => end.finish(),
            EndCall::Close => end.close(),
            EndCall::Abort => end.abort(),
        }
    }
}

/// A call of the application, or a message that lands or completes, with the snapshot that it spells.
#[derive(Clone, Copy)]
pub enum Change<'a> {
    /// The application hands over these bytes.
    Write(&'a [u8]),
    /// It asks for at most so many bytes.
    Read(u32),
    /// It ends its part.
    End(EndCall),
    /// A message of the peer lands.
    Land(&'a CdcMessage, &'a Snapshot),
    /// The end's oldest message that has not completed does.
    Complete(&'a CdcMessage, &'a Snapshot),
}

impl Change<'_> {
    /// Does it to the end. What is no call is answered with `Done`.
    pub fn make(self, end: &mut ConnEnd) -> EndReply
        requires { MayCome self end.old }
        ensures end { (h : Half) (act : Half → Half) → Makes end.old.size self.entry end.old h act → Represents end.new (act h) }
        ensures told { (h : Half) → Represents end.old h → Tells end.old.size self.entry h result }
        ensures terms { SameTerms end.old end.new }
        ensures owes { end.new.owes ≡ end.old.owes }
    {
        match self {
            Change::Write(bytes) => end.write(bytes),
            Change::Read(len) => end.read(len),
            Change::End(call) => call.make(end),
            Change::Land(message, plain) => {
                end.take_cdc(message, plain);
                EndReply::Done
            }
            Change::Complete(message, plain) => {
                end.completed(message, plain);
                EndReply::Done
            }
        }
    }
}
