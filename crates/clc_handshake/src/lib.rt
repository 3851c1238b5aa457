//! The handshake of an end: what it does with each CLC message, by the facts at its side.
//!
//! The server answers a Proposal by an Accept, the client an Accept by a Confirm, and either may
//! decline (RFC 7609, sections 3.2 and 3.5). A [`Handshake`] keeps what an end waits for. Its one
//! call tells the step that the rules of the handshake give for a message and the facts, the first
//! rule that holds, and goes on to what the end waits for then: a message that is held, or for which
//! a key is asked first, is awaited again.
#![tactic(auto)]

ghost use Rattle.std.specs.Prelude.{◌≡◌, false};
ghost use Rattle.pipe_model.specs.Connections.{HasFallen, IsUp, WasReset};
ghost use Rattle.pipe_model.specs.Handshake.{verdict};
ghost use Rattle.clc_handshake.specs.Stages.{first_state, after_step, seen_state};

mod laws;
mod rules;
mod stage;

use crate::stage::Stage;
pub use laws::a_reply_tells_the_state;
use pipe_model::{ClcMessage, ClcStep, Lacks, ResetCause, Side};
pub use stage::EndState;
use std::marker::Model;

/// An end in its handshake.
#[derive(Debug, Drop)]
pub struct Handshake {
    raw: bool,
    stage: Stage,
}

impl Model for Handshake {
    ghost use Rattle.clc_handshake.specs.Stages.{Hand, state_of};

    ghost Value = { Hand };

    ghost view = { λ h. record { raw = h.raw; state = state_of h.stage } };
}

impl Handshake {
    /// A handshake that begins: the server waits for a Proposal, the client for the answer to its
    /// own. The client of a raw socket sends any bytes and has no end.
    pub fn new(side: Side, raw: bool) -> Handshake
        ensures { result ≡ record { raw = raw; state = first_state side } }
    {
        let stage = match side {
            Side::A => Stage::Answer,
            Side::B => Stage::Proposal,
        };
        Handshake { raw, stage }
    }

    /// An end that goes on over TCP alone from the start.
    pub fn fallen() -> Handshake
        ensures { result ≡ record { raw = false; state = HasFallen } }
    {
        Handshake {
            raw: false,
            stage: Stage::FellBack,
        }
    }

    /// What the end waits for, or what has become of it.
    pub fn state(&self) -> EndState
        ensures { result ≡ seen_state self.now.state }
    {
        stage::seen(self.stage)
    }

    /// The link is confirmed, and with it the end is established.
    pub fn rise(&mut self)
        ensures { self.new ≡ record self.old { state = IsUp } }
    {
        self.stage = Stage::Up;
    }

    /// The end is reset for this cause, by something else than a message: its group ended, or what came
    /// is no message.
    pub fn reset(&mut self, cause: ResetCause)
        ensures { self.new ≡ record self.old { state = WasReset cause } }
    {
        self.stage = Stage::Reset(cause);
    }

    /// The step that `on` would answer now; nothing changes.
    pub fn would_step(&self, message: &ClcMessage, view: &Lacks) -> ClcStep
        ensures { result ≡ verdict self.now.raw self.now.state message.now view.now }
    {
        rules::step(self.raw, self.stage, message, view)
    }

    /// The step for a message and the facts at the side, the first rule that holds. A message that
    /// the end doesn't wait for is `Wrong`.
    pub fn on(&mut self, message: &ClcMessage, view: &Lacks) -> ClcStep
        ensures step { result ≡ verdict self.old.raw self.old.state message.now view.now }
        ensures state { self.new ≡ record self.old { state = after_step result message.now self.old.state } }
    {
        let step = self.would_step(message, view);
        self.stage = stage::after(self.stage, step, message);
        step
    }
}
