//! The client's table of links: what it does with the requests CONFIRM LINK, ADD LINK and ADD LINK
//! CONTINUATION.
#![tactic(auto)]

ghost use Rattle.std.specs.Prelude.{◌≡◌, ◌<◌, ◌==◌};
ghost use Rattle.pipe_model.specs.Flows.{on_confirm_link, on_add_link, on_add_keys, on_new_link, flow_slot};
ghost use Rattle.field_cases.specs.Table.{action_of};
ghost use Rattle.llc_flows.specs.declared.client.TheConstants.{TABLE};
ghost use Rattle.llc_flows.specs.Views.{link_of};
ghost use Rattle.llc_flows.specs.Tables.{client_state, client_act};

use crate::link::{Link, slot_of};
use field_cases::{Cases, Row, Sound};
use pipe_model::{FlowStep, LinkView};
use std::marker::Model;

// The states.
const NO_FLOW: u8 = 0;

const FIRST_CONTACT: u8 = 1;

const ADD_SEEN: u8 = 2;

// The messages.
const CONFIRM: u8 = 0;

const ADD: u8 = 1;

const KEYS: u8 = 2;

// The actions. Some look whether the flow's slot is named.
const SKIP: u8 = 0;

const FIRST_LIVE: u8 = 1;

const LIVE_IF_NAMED: u8 = 2;

const NEW_LINK: u8 = 3;

const LINK_AGAIN: u8 = 4;

const NO_KEYS: u8 = 5;

const KEYS_IF_NAMED: u8 = 6;

const TABLE: Cases<9> = Cases {
    rows: rows! {
        NO_FLOW: CONFIRM => SKIP, ADD => NEW_LINK, KEYS => NO_KEYS;
        FIRST_CONTACT: CONFIRM => FIRST_LIVE, ADD => SKIP, KEYS => SKIP;
        ADD_SEEN: CONFIRM => LIVE_IF_NAMED, ADD => LINK_AGAIN, KEYS => KEYS_IF_NAMED;
    },
    states: 3,
    messages: 3,
};

/// The table, found to have one row a case.
#[derive(Drop)]
pub struct ClientTable {
    sound: Sound<9>,
}

impl Model for ClientTable {
    ghost Value = { Unit {0} };

    ghost view = { λ _. tt };

    ghost invariant = { λ t. t.sound.cases ≡ TABLE };
}

/// The state of a flow. The server's own flows are none of the client's.
fn state_of(link: Link) -> u8
    ensures state { result ≡ client_state (link_of link) }
    ensures known { result < 3 }
{
    match link {
        Link::FirstContact => FIRST_CONTACT,
        Link::AddSeen { .. } => ADD_SEEN,
        _ => NO_FLOW,
    }
}

/// A link is made for an ADD LINK where its path is up and none stands there; else it is rejected.
fn new_link(view: &LinkView) -> FlowStep
    ensures { result ≡ on_new_link view.now }
{
    if !view.path_up || view.stands_here || view.stands_there {
        FlowStep::Reject
    } else {
        FlowStep::ReplyAdd { again: false }
    }
}

/// What an action does, where the flow's slot is named or not.
fn act(action: u8, named: bool, view: &LinkView) -> FlowStep
    ensures { result ≡ client_act action named view.now }
{
    match action {
        FIRST_LIVE => FlowStep::Live {
            reply: true,
            first: true,
        },
        LIVE_IF_NAMED if named => FlowStep::Live {
            reply: true,
            first: false,
        },
        LINK_AGAIN if named && view.stands_here && view.stands_there => {
            FlowStep::ReplyAdd { again: true }
        }
        NEW_LINK | LINK_AGAIN => new_link(view),
        NO_KEYS => FlowStep::ReplyKeys { known: false },
        KEYS_IF_NAMED => FlowStep::ReplyKeys { known: named },
        _ => FlowStep::Skip,
    }
}

impl ClientTable {
    /// The checked table. It has one row a case, so the check refuses nothing.
    pub fn new() -> ClientTable {
        match TABLE.check() {
            Ok(sound) => ClientTable { sound },
            Err(_) => unreachable!(),
        }
    }

    /// The step for a message, by the action of its row.
    fn step(&self, link: Link, message: u8, slot: u8, view: &LinkView) -> FlowStep
        requires { message < 3 }
        ensures { result ≡ client_act (action_of TABLE.rows (client_state (link_of link)) message) (slot == flow_slot (link_of link)) view.now }
    {
        let action = self.sound.pick(state_of(link), message);
        act(action, slot == slot_of(link), view)
    }

    /// CONFIRM LINK, which landed on the link of a slot.
    pub fn on_confirm_link(&self, link: Link, landed: u8, view: &LinkView) -> FlowStep
        ensures { result ≡ on_confirm_link landed (link_of link) }
    {
        self.step(link, CONFIRM, landed, view)
    }

    /// ADD LINK, for a slot.
    pub fn on_add_link(&self, link: Link, slot: u8, view: &LinkView) -> FlowStep
        ensures { result ≡ on_add_link slot view.now (link_of link) }
    {
        self.step(link, ADD, slot, view)
    }

    /// ADD LINK CONTINUATION, for a slot.
    pub fn on_add_keys(&self, link: Link, slot: u8, view: &LinkView) -> FlowStep
        ensures { result ≡ on_add_keys slot (link_of link) }
    {
        self.step(link, KEYS, slot, view)
    }
}
