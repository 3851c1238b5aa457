//! What an end waits for in its handshake, and what each step leads to.
#![tactic(auto)]

ghost use Rattle.std.specs.Prelude.{◌≡◌};
ghost use Rattle.clc_handshake.specs.Stages.{state_of, seen_state, after_confirm, after_ready, after_step, named_group};

use pipe_model::{ClcMessage, ClcStep, ResetCause};

/// What an end waits for, or what has become of it.
#[derive(Clone, Copy, Debug, PartialEq, Eq)]
pub enum Stage {
    /// It waits for a Proposal.
    Proposal,
    /// It waits for the answer to its Proposal.
    Answer,
    /// It waits for a Confirm.
    Confirm,
    /// It waits for its link to be confirmed.
    Link,
    /// It is established.
    Up,
    /// It goes on over TCP alone.
    FellBack,
    /// It was reset.
    Reset(ResetCause),
}

/// What others see of an end: what it waits for, or what has become of it.
#[derive(Clone, Copy, Debug, PartialEq, Eq)]
pub enum EndState {
    /// There is no end.
    Absent,
    /// It waits for a CLC message.
    Clc,
    /// It waits for its link to be confirmed.
    Link,
    /// It is established.
    Up,
    /// It goes on over TCP alone.
    FellBack,
    /// It was reset.
    Reset(ResetCause),
}

/// What others see of an end in this stage.
pub fn seen(stage: Stage) -> EndState
    ensures { result ≡ seen_state (state_of stage) }
{
    match stage {
        Stage::Proposal | Stage::Answer | Stage::Confirm => EndState::Clc,
        Stage::Link => EndState::Link,
        Stage::Up => EndState::Up,
        Stage::FellBack => EndState::FellBack,
        Stage::Reset(cause) => EndState::Reset(cause),
    }
}

/// The stage behind a Confirm that was sent or taken.
fn confirmed(first: bool) -> Stage
    ensures { state_of result ≡ after_confirm first }
{
    if first { Stage::Link } else { Stage::Up }
}

/// The group that an offer names: its packet sequence number carries it.
fn named_group(message: &ClcMessage) -> u32
    ensures { result ≡ named_group message.now }
{
    match message {
        ClcMessage::Accept(offer) | ClcMessage::Confirm(offer) => offer.psn,
        ClcMessage::Proposal(_) | ClcMessage::Decline(_) => 0,
    }
}

/// The stage of an end that is ready for a message.
fn ready(stage: Stage, message: &ClcMessage) -> Stage
    ensures { state_of result ≡ after_ready message.now (state_of stage) }
{
    match message {
        ClcMessage::Confirm(offer) => confirmed(offer.first),
        _ => stage,
    }
}

/// The stage after a step with a message.
pub fn after(stage: Stage, step: ClcStep, message: &ClcMessage) -> Stage
    ensures { state_of result ≡ after_step step message.now (state_of stage) }
{
    match step {
        ClcStep::SendAccept { .. } => Stage::Confirm,
        ClcStep::SendConfirm { first } => confirmed(first),
        ClcStep::AskKey | ClcStep::Wait(_) => stage,
        ClcStep::Decline(_) | ClcStep::Fell => Stage::FellBack,
        ClcStep::Ready => ready(stage, message),
        ClcStep::Lost => Stage::Reset(ResetCause::NoLiveLink {
            group: named_group(message),
        }),
        ClcStep::Wrong(kind) => Stage::Reset(ResetCause::BadStep(kind)),
    }
}
