//! The LLC flows of one side: how links are added, confirmed, tested and deleted, and keys told and
//! deleted (RFC 7609, section 3.3).
//!
//! A [`Flows`] keeps which request is open, by state tables for the server, the client and the keys,
//! each with exactly one row a case. `on` tells what a side does with a message that lands, and each
//! `begin_` call lets a request begin or names the first reason that holds it back; a request that is
//! held changes nothing. The new flows are told exactly. No call takes memory.
#![tactic(auto)]

ghost use Rattle.std.specs.Prelude.{◌≡◌, ◌≤◌, OnOk, OnErr, not};
ghost use Rattle.pipe_model.specs.Flows.{FirstContact as FirstContactFlow, NoFlow as NoLinkFlow, begins_add, begins_confirm, begins_delete, begins_drop, begins_test, flow_after, flow_step, is_adding, is_dropping, is_first_contact, lost, named_slot, after_answer, no_flow, on_confirm_rkey, resends_add, resends_key};
ghost use Rattle.llc_flows.specs.Holds.{add_hold, answer, confirm_hold, delete_hold, test_hold};
ghost use Rattle.llc_flows.specs.Views.{link_of, request_of};

/// The rows of a decision table, state by state.
macro_rules! rows {
    ($($state:ident: $($message:ident => $action:ident),+;)+) => {
        [$($(Row { state: $state, message: $message, action: $action }),+),+]
    };
}

mod client;
mod keys;
mod laws;
mod link;
mod server;
mod slots;

use crate::client::ClientTable;
use crate::keys::KeyTable;
use crate::link::{Link, is_adding, is_first_contact, moved};
use crate::server::ServerTable;
use crate::slots::{Deletion, MOST};
use arrayvec::ArrayVec;
pub use laws::{
    a_key_that_is_asked_for_is_not_held, grow_is_held_as_told, test_is_held_as_told,
    trim_is_held_as_told,
};
pub use link::AddRequest;
use pipe_model::{FlowStep, Hold, KeyPhase, LinkView, LlcMessage, Side};
use std::marker::Model;

/// Which requests a side posts again, since the link that carried them is lost.
#[derive(Clone, Copy, Debug, PartialEq, Eq)]
pub struct Resend {
    /// The key request.
    pub key: bool,
    /// The request of an ADD LINK flow.
    pub add: bool,
}

/// The flows of one side. Slots count from 1 to 8.
#[derive(Drop)]
pub struct Flows {
    side: Side,
    link: Link,
    key: KeyPhase,
    rmb: u8,
    on: u8,
    tests: ArrayVec<u8, MOST>,
    drops: ArrayVec<Deletion, MOST>,
    server: ServerTable,
    client: ClientTable,
    keys: KeyTable,
}

impl Model for Flows {
    ghost use Rattle.llc_flows.specs.Slots.{AreApart};
    ghost use Rattle.llc_flows.specs.Views.{Flowing, link_of};

    ghost Value = { Flowing };

    ghost view = { λ f. record { side = f.side; flow = record { link = link_of f.link; key = f.key; rmb = f.rmb; on = f.on; tests = f.tests.items; drops = f.drops.items } } };

    ghost invariant = { λ f. AreApart (λ k. k) f.tests.items × AreApart (λ d. d.slot) f.drops.items };
}

/// The slot that a message names, or the one on whose link it landed.
fn slot_named(message: &LlcMessage, landed: u8) -> u8
    ensures { result ≡ named_slot message.now landed }
{
    match message {
        LlcMessage::ConfirmLink { link, .. }
        | LlcMessage::AddLink { link, .. }
        | LlcMessage::AddKeys { link, .. }
        | LlcMessage::DeleteLink { link, .. } => *link,
        _ => landed,
    }
}

/// A key is not learnt at the server while a link is being added there.
fn on_confirm_rkey(side: Side, link: Link) -> FlowStep
    ensures { result ≡ on_confirm_rkey side (link_of link) }
{
    match side {
        Side::B if is_adding(link) => FlowStep::ReplyRetry,
        _ => FlowStep::Learn,
    }
}

impl Flows {
    /// No flow is under way.
    pub fn new(side: Side) -> Flows
        ensures { result ≡ record { side = side; flow = no_flow } }
    {
        Flows {
            side,
            link: Link::NoFlow,
            key: KeyPhase::Free,
            rmb: 0,
            on: 0,
            tests: ArrayVec::new(),
            drops: ArrayVec::new(),
            server: ServerTable::new(),
            client: ClientTable::new(),
            keys: KeyTable::new(),
        }
    }

    /// What the side does with a message, by the tables.
    fn step(&self, message: &LlcMessage, view: &LinkView, landed: u8, whole: bool) -> FlowStep
        ensures { result ≡ flow_step self.now.side self.now.flow message.now view.now landed whole }
    {
        match (self.side, message) {
            (Side::A, LlcMessage::ConfirmLink { reply: false, .. }) => {
                self.client.on_confirm_link(self.link, landed, view)
            }
            (Side::B, LlcMessage::ConfirmLink { reply: true, .. }) => {
                self.server.on_confirm_link_reply(self.link)
            }
            (
                Side::A,
                LlcMessage::AddLink {
                    reply: false,
                    link,
                    ..
                },
            ) => self.client.on_add_link(self.link, *link, view),
            (
                Side::B,
                LlcMessage::AddLink {
                    reply: true,
                    rejected: false,
                    link,
                    ..
                },
            ) => self.server.on_add_link_reply(self.link, *link, view),
            (
                Side::B,
                LlcMessage::AddLink {
                    reply: true,
                    rejected: true,
                    link,
                    ..
                },
            ) => self.server.on_add_link_reject(self.link, *link),
            (
                Side::A,
                LlcMessage::AddKeys {
                    reply: false,
                    link,
                    ..
                },
            ) => self.client.on_add_keys(self.link, *link, view),
            (
                Side::B,
                LlcMessage::AddKeys {
                    reply: true,
                    link,
                    ..
                },
            ) => self.server.on_add_keys_reply(self.link, *link),
            (_, LlcMessage::DeleteLink { reply: false, .. }) => FlowStep::Gone {
                report: view.stands_here && !view.stands_there,
            },
            (
                _,
                LlcMessage::DeleteLink { reply: true, .. }
                | LlcMessage::TestLink { reply: true, .. },
            ) => FlowStep::Answered,
            (side, LlcMessage::ConfirmRkey { reply: false, .. }) => on_confirm_rkey(
                side, self.link,
            ),
            (
                _,
                LlcMessage::ConfirmRkey {
                    reply: true,
                    retry,
                    ..
                },
            ) => self.keys.on_confirm_rkey_reply(self.key, *retry, whole),
            (_, LlcMessage::TestLink { reply: false, .. }) => FlowStep::Echo,
            (_, LlcMessage::DeleteRkey { reply: false, .. }) => FlowStep::Forget,
            (_, LlcMessage::DeleteRkey { reply: true, .. }) => {
                self.keys.on_delete_rkey_reply(self.key)
            }
            _ => FlowStep::Skip,
        }
    }

    /// An answer ends the request that it answers.
    fn end_request(&mut self, message: &LlcMessage, landed: u8)
        ensures { self.new ≡ record self.old { flow = after_answer message.now landed self.old.flow } }
    {
        match message {
            LlcMessage::DeleteLink { link, .. } => slots::take_drop(&mut self.drops, *link),
            LlcMessage::TestLink { .. } => slots::take_test(&mut self.tests, landed),
            _ => {}
        }
    }

    /// The flows after that step.
    fn go_on(&mut self, step: FlowStep, message: &LlcMessage, landed: u8, carrier: u8)
        ensures { self.new ≡ record self.old { flow = flow_after step message.now landed carrier self.old.flow } }
    {
        match step {
            FlowStep::Live { .. } | FlowStep::Over => self.link = Link::NoFlow,
            FlowStep::SendKeys => {
                self.link = Link::KeysSent {
                    slot: slot_named(message, landed),
                    on: carrier,
                };
            }
            FlowStep::AskLink => {
                self.link = Link::LinkSent {
                    slot: slot_named(message, landed),
                };
            }
            FlowStep::ReplyAdd { .. } => {
                self.link = Link::AddSeen {
                    slot: slot_named(message, landed),
                };
            }
            FlowStep::Confirmed | FlowStep::Withdraw => self.key = KeyPhase::Free,
            FlowStep::Retry => self.key = KeyPhase::Retry,
            FlowStep::Answered => self.end_request(message, landed),
            _ => {}
        }
    }

    /// What the side does with a message that landed on the link of slot `landed`. `view` is what it
    /// sees of the slot that the message names, or of `landed` where it names none; `whole` says that
    /// the last CONFIRM RKEY told the keys of every link that the side knows; `carrier` is the slot of
    /// the side's lowest live link, on which a request goes that the step makes.
    pub fn on(
        &mut self,
        message: &LlcMessage,
        view: &LinkView,
        landed: u8,
        whole: bool,
        carrier: u8,
    ) -> FlowStep
        ensures step { result ≡ flow_step self.old.side self.old.flow message.now view.now landed whole }
        ensures flow { self.new ≡ record self.old { flow = flow_after result message.now landed carrier self.old.flow } }
    {
        let step = self.step(message, view, landed, whole);
        self.go_on(step, message, landed, carrier);
        step
    }

    /// The group's first link is to be confirmed. No link is being set up before.
    pub fn begin_first(&mut self)
        requires { self.old.flow.link ≡ NoLinkFlow }
        ensures { self.new ≡ record self.old { flow = record self.old.flow { link = FirstContactFlow } } }
    {
        self.link = Link::FirstContact;
    }

    /// What holds an ADD LINK back now: `begin_add` would answer it.
    pub fn add_hold(&self) -> Option<Hold>
        ensures { result ≡ add_hold self.now.flow }
    {
        if is_first_contact(self.link) {
            return Some(Hold::FirstContact);
        }
        if is_adding(self.link) {
            return Some(Hold::AddLink);
        }
        match self.key {
            KeyPhase::Free | KeyPhase::Retry => None,
            KeyPhase::Asked => Some(Hold::ConfirmRkey),
            KeyPhase::Deleting => Some(Hold::DeleteRkey),
        }
    }

    /// The server sends ADD LINK for a slot, on its lowest live link. It is held in first contact, while
    /// a link is being added, and while the answer to a CONFIRM RKEY or a DELETE RKEY is awaited.
    pub fn begin_add(&mut self, slot: u8, carrier: u8) -> Result<(), Hold>
        ensures answer { result ≡ answer (add_hold self.old.flow) }
        ensures begun { OnOk result (self.new ≡ record self.old { flow = begins_add slot carrier self.old.flow }) }
        ensures held { OnErr result (self.new ≡ self.old) }
    {
        if let Some(hold) = self.add_hold() {
            return Err(hold);
        }
        self.link = Link::AddSent { slot, on: carrier };
        Ok(())
    }

    /// What holds a CONFIRM RKEY back.
    fn confirm_hold(&self) -> Option<Hold>
        ensures { result ≡ confirm_hold self.now.side self.now.flow }
    {
        if self.side == Side::B && is_first_contact(self.link) {
            return Some(Hold::FirstContact);
        }
        if self.key == KeyPhase::Deleting {
            return Some(Hold::DeleteRkey);
        }
        if self.key == KeyPhase::Asked {
            return Some(Hold::ConfirmRkey);
        }
        if is_adding(self.link) {
            return Some(Hold::AddLink);
        }
        None
    }

    /// A side sends CONFIRM RKEY for an RMB, on its lowest live link. It is held at the server in first
    /// contact, while the answer to a DELETE RKEY or a CONFIRM RKEY is awaited, and while a link is
    /// being added. A retry that waits holds nothing: it is this request.
    pub fn begin_confirm(&mut self, rmb: u8, carrier: u8) -> Result<(), Hold>
        ensures answer { result ≡ answer (confirm_hold self.old.side self.old.flow) }
        ensures begun { OnOk result (self.new ≡ record self.old { flow = begins_confirm rmb carrier self.old.flow }) }
        ensures held { OnErr result (self.new ≡ self.old) }
    {
        if let Some(hold) = self.confirm_hold() {
            return Err(hold);
        }
        self.key = KeyPhase::Asked;
        self.rmb = rmb;
        self.on = carrier;
        Ok(())
    }

    /// What holds a DELETE RKEY back now: `begin_delete` would answer it.
    pub fn delete_hold(&self) -> Option<Hold>
        ensures { result ≡ delete_hold self.now.flow }
    {
        if is_first_contact(self.link) {
            return Some(Hold::FirstContact);
        }
        if is_adding(self.link) {
            return Some(Hold::AddLink);
        }
        match self.key {
            KeyPhase::Free => None,
            KeyPhase::Asked | KeyPhase::Retry => Some(Hold::ConfirmRkey),
            KeyPhase::Deleting => Some(Hold::DeleteRkey),
        }
    }

    /// A side sends DELETE RKEY on its lowest live link. It is held in first contact, while a link is
    /// being added, while the answer to a CONFIRM RKEY is awaited or a retry waits, and while the answer
    /// to a DELETE RKEY is awaited.
    pub fn begin_delete(&mut self, carrier: u8) -> Result<(), Hold>
        ensures answer { result ≡ answer (delete_hold self.old.flow) }
        ensures begun { OnOk result (self.new ≡ record self.old { flow = begins_delete carrier self.old.flow }) }
        ensures held { OnErr result (self.new ≡ self.old) }
    {
        if let Some(hold) = self.delete_hold() {
            return Err(hold);
        }
        self.key = KeyPhase::Deleting;
        self.on = carrier;
        Ok(())
    }

    /// A side sends TEST LINK on the link of a slot. It is held while one is outstanding there.
    pub fn begin_test(&mut self, slot: u8) -> Result<(), Hold>
        requires { (1 ≤ slot) × (slot ≤ 8) }
        ensures answer { result ≡ answer (test_hold slot self.old.flow) }
        ensures begun { OnOk result (self.new ≡ record self.old { flow = begins_test slot self.old.flow }) }
        ensures held { OnErr result (self.new ≡ self.old) }
    {
        if slots::is_tested(&self.tests, slot) {
            return Err(Hold::TestLink);
        }
        slots::put_test(&mut self.tests, slot);
        Ok(())
    }

    /// A side sends DELETE LINK for a slot, on its lowest live link, where none for that slot is
    /// outstanding; it tells whether it does.
    pub fn begin_drop(&mut self, slot: u8, carrier: u8) -> bool
        requires { (1 ≤ slot) × (slot ≤ 8) }
        ensures begins { result ≡ not (is_dropping slot self.old.flow) }
        ensures flow { self.new ≡ record self.old { flow = begins_drop slot carrier self.old.flow } }
    {
        if slots::is_dropped(&self.drops, slot) {
            return false;
        }
        slots::put_drop(&mut self.drops, Deletion { slot, on: carrier });
        true
    }

    /// Which requests the link of a slot carries.
    fn resends(&self, slot: u8) -> Resend
        ensures { result ≡ record { key = resends_key slot self.now.flow; add = resends_add slot self.now.flow.link } }
    {
        let waits = self.key == KeyPhase::Asked || self.key == KeyPhase::Deleting;
        Resend {
            key: waits && self.on == slot,
            add: link::resends(self.link, slot),
        }
    }

    /// The side has reported the link of a slot, and its lowest live link is now that of `carrier`. It
    /// tells which of the requests that the lost link carried are to be posted again, now on that one;
    /// tests of the slot and deletions that it carried are forgotten.
    pub fn link_lost(&mut self, slot: u8, carrier: u8) -> Resend
        ensures resend { result ≡ record { key = resends_key slot self.old.flow; add = resends_add slot self.old.flow.link } }
        ensures flow { self.new ≡ record self.old { flow = lost slot carrier self.old.flow } }
    {
        let resend = self.resends(slot);
        self.link = link::after_loss(self.link, slot, carrier);
        self.on = moved(self.on, slot, carrier);
        slots::take_test(&mut self.tests, slot);
        slots::lose_drops(&mut self.drops, slot);
        resend
    }

    /// Which answer the side's key table waits for.
    pub fn key_phase(&self) -> KeyPhase
        ensures { result ≡ self.now.flow.key }
    {
        self.key
    }

    /// The RMB of the last CONFIRM RKEY.
    pub fn rmb(&self) -> u8
        ensures { result ≡ self.now.flow.rmb }
    {
        self.rmb
    }

    /// Whether a link is being added.
    pub fn adding(&self) -> bool
        ensures { result ≡ is_adding self.now.flow.link }
    {
        is_adding(self.link)
    }

    /// Whether the group is in first contact.
    pub fn first_contact(&self) -> bool
        ensures { result ≡ is_first_contact self.now.flow.link }
    {
        is_first_contact(self.link)
    }

    /// The open request of an ADD LINK flow, where it is still wanted.
    pub fn add_request(&self) -> Option<AddRequest>
        ensures { result ≡ request_of self.now.flow.link }
    {
        link::request_of(self.link)
    }

    /// Drops all flows.
    pub fn clear(&mut self)
        ensures { self.new ≡ record self.old { flow = no_flow } }
    {
        self.link = Link::NoFlow;
        self.key = KeyPhase::Free;
        self.rmb = 0;
        self.on = 0;
        self.tests.clear();
        self.drops.clear();
    }
}
