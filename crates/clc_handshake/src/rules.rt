//! The rules of the handshake, message by message. The first rule that holds decides.
#![tactic(auto)]

ghost use Rattle.std.specs.Prelude.{◌≡◌};
ghost use Rattle.pipe_model.specs.Flows.{is_asked, is_deleting};
ghost use Rattle.pipe_model.specs.Handshake.{key_step, first_contact_step, on_proposal, on_first_accept, on_later_accept, on_accept, on_confirm, kind_of, verdict};
ghost use Rattle.clc_handshake.specs.Stages.{state_of};

use crate::stage::Stage;
use pipe_model::{ClcMessage, ClcStep, Hold, KeyPhase, Lack, Lacks, Offer, Proposal, SentKind};

/// The key of an RMB is asked for, unless that or the adding of a link is under way.
fn ask_key(view: &Lacks) -> ClcStep
    ensures { result ≡ key_step view.now }
{
    if view.key_flow == KeyPhase::Asked {
        return ClcStep::Wait(Hold::ConfirmRkey);
    }
    if view.adding {
        return ClcStep::Wait(Hold::AddLink);
    }
    ClcStep::AskKey
}

/// The server begins a group.
fn first_contact(raw: bool, view: &Lacks) -> ClcStep
    ensures { result ≡ first_contact_step raw view.now }
{
    if raw {
        return ClcStep::Decline(Lack::Raw);
    }
    if view.slots_up == 0 {
        return ClcStep::Decline(Lack::NoSlot { links: view.links });
    }
    ClcStep::SendAccept { first: true }
}

/// The server takes a Proposal.
fn take_proposal(raw: bool, proposal: &Proposal, view: &Lacks) -> ClcStep
    ensures { result ≡ on_proposal raw proposal.now view.now }
{
    if proposal.subnet != view.subnet.0 || proposal.prefix != view.subnet.1 {
        return ClcStep::Decline(Lack::NoSubnet);
    }
    if view.first_contact {
        return ClcStep::Wait(Hold::FirstContact);
    }
    if view.key_flow == KeyPhase::Deleting {
        return ClcStep::Wait(Hold::DeleteRkey);
    }
    if view.free == 0 {
        return ClcStep::Decline(Lack::NoServerElement {
            elements: view.elements,
        });
    }
    if view.group == 0 {
        return first_contact(raw, view);
    }
    if !view.rmb_ready {
        return ask_key(view);
    }
    ClcStep::SendAccept { first: false }
}

/// The client takes an Accept of first contact.
fn take_first_accept(view: &Lacks) -> ClcStep
    ensures { result ≡ on_first_accept view.now }
{
    if view.group != 0 {
        return ClcStep::Wait(Hold::OldGroup);
    }
    ClcStep::SendConfirm { first: true }
}

/// The client takes an Accept of later contact.
fn take_later_accept(offer: &Offer, view: &Lacks) -> ClcStep
    ensures { result ≡ on_later_accept offer.now view.now }
{
    // The packet sequence number carries the group.
    if offer.psn != view.group {
        return ClcStep::Decline(Lack::GroupLost {
            named: offer.psn,
            stands: view.group,
        });
    }
    if view.key_flow == KeyPhase::Deleting {
        return ClcStep::Wait(Hold::DeleteRkey);
    }
    if view.free == 0 {
        return ClcStep::Decline(Lack::NoClientElement {
            elements: view.elements,
        });
    }
    if !view.rmb_ready {
        return ask_key(view);
    }
    ClcStep::SendConfirm { first: false }
}

/// The client takes an Accept.
fn take_accept(offer: &Offer, view: &Lacks) -> ClcStep
    ensures { result ≡ on_accept offer.now view.now }
{
    if offer.first {
        take_first_accept(view)
    } else {
        take_later_accept(offer, view)
    }
}

/// The server takes a Confirm. Its group may have ended meanwhile.
fn take_confirm(offer: &Offer, view: &Lacks) -> ClcStep
    ensures { result ≡ on_confirm offer.now view.now }
{
    if offer.psn == view.group {
        ClcStep::Ready
    } else {
        ClcStep::Lost
    }
}

/// The kind of a message.
fn kind(message: &ClcMessage) -> SentKind
    ensures { result ≡ kind_of message.now }
{
    match message {
        ClcMessage::Proposal(_) => SentKind::Proposal,
        ClcMessage::Accept(_) => SentKind::Accept,
        ClcMessage::Confirm(_) => SentKind::Confirm,
        ClcMessage::Decline(_) => SentKind::Decline,
    }
}

/// What an end does with a message. A raw client may send a Proposal first and a Decline after an
/// Accept, and nothing else.
pub fn step(raw: bool, stage: Stage, message: &ClcMessage, view: &Lacks) -> ClcStep
    ensures { result ≡ verdict raw (state_of stage) message.now view.now }
{
    match (stage, message) {
        (Stage::Proposal, ClcMessage::Proposal(proposal)) => take_proposal(raw, proposal, view),
        (Stage::Answer, ClcMessage::Accept(offer)) => take_accept(offer, view),
        (Stage::Answer | Stage::Confirm, ClcMessage::Decline(_)) => ClcStep::Fell,
        (Stage::Confirm, ClcMessage::Confirm(offer)) if !raw => take_confirm(offer, view),
        _ => ClcStep::Wrong(kind(message)),
    }
}
