//! What follows from the definitions. A law is a function with nothing to do, whose contract is the
//! law.

ghost use Rattle.std.specs.Prelude.{◌≡◌};
ghost use Rattle.clc_wire.specs.declared.message.ClcMessage.{ClcMessage as Message};
ghost use Rattle.pipe_model.specs.declared.verdict.ClcStep.{ClcStep as Step};
ghost use Rattle.pipe_model.specs.Connections.{EndState};
ghost use Rattle.pipe_model.specs.Replies.{step_told};
ghost use Rattle.clc_handshake.specs.Stages.{named_group, after_step, after_reply};

/// The reply to a step tells what the end is then.
pub fn a_reply_tells_the_state()
    ensures { (message : Message) (step : Step) (state : EndState)
        → after_reply (step_told (named_group message) message step) state ≡ after_step step message state }
{}
