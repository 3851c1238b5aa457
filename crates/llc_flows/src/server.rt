//! The server's table of links: what it does with the replies to CONFIRM LINK, ADD LINK and ADD LINK
//! CONTINUATION.
#![tactic(auto)]

ghost use Rattle.std.specs.Prelude.{◌≡◌, ◌<◌};
ghost use Rattle.pipe_model.specs.Flows.{on_confirm_link_reply, on_add_link_reply, on_add_link_reject, on_add_keys_reply, flow_slot};
ghost use Rattle.field_cases.specs.Table.{action_of};
ghost use Rattle.llc_flows.specs.declared.server.TheConstants.{TABLE};
ghost use Rattle.llc_flows.specs.Views.{link_of};
ghost use Rattle.llc_flows.specs.Tables.{server_state, server_act};

use crate::link::{Link, slot_of};
use field_cases::{Cases, Row, Sound};
use pipe_model::{FlowStep, LinkView};
use std::marker::Model;

// The states.
const NO_FLOW: u8 = 0;

const FIRST_CONTACT: u8 = 1;

const ADD_SENT: u8 = 2;

const KEYS_SENT: u8 = 3;

const LINK_SENT: u8 = 4;

const ABANDONED: u8 = 5;

// The messages.
const CONFIRM_REPLY: u8 = 0;

const ADD_REPLY: u8 = 1;

const ADD_REJECT: u8 = 2;

const KEYS_REPLY: u8 = 3;

// The actions. Some want the flow's slot to be named.
const SKIP: u8 = 0;

const FIRST_LIVE: u8 = 1;

const LIVE: u8 = 2;

const SEND_KEYS: u8 = 3;

const OVER_IF_NAMED: u8 = 4;

const ASK_LINK: u8 = 5;

const OVER: u8 = 6;

const TABLE: Cases<24> = Cases {
    rows: rows! {
        NO_FLOW: CONFIRM_REPLY => SKIP, ADD_REPLY => SKIP, ADD_REJECT => SKIP, KEYS_REPLY => SKIP;
        FIRST_CONTACT: CONFIRM_REPLY => FIRST_LIVE, ADD_REPLY => SKIP, ADD_REJECT => SKIP, KEYS_REPLY => SKIP;
        ADD_SENT: CONFIRM_REPLY => SKIP, ADD_REPLY => SEND_KEYS, ADD_REJECT => OVER_IF_NAMED, KEYS_REPLY => SKIP;
        KEYS_SENT: CONFIRM_REPLY => SKIP, ADD_REPLY => SKIP, ADD_REJECT => SKIP, KEYS_REPLY => ASK_LINK;
        LINK_SENT: CONFIRM_REPLY => LIVE, ADD_REPLY => SKIP, ADD_REJECT => SKIP, KEYS_REPLY => SKIP;
        ABANDONED: CONFIRM_REPLY => SKIP, ADD_REPLY => OVER, ADD_REJECT => OVER, KEYS_REPLY => OVER;
    },
    states: 6,
    messages: 4,
};

/// The table, found to have one row a case.
#[derive(Drop)]
pub struct ServerTable {
    sound: Sound<24>,
}

impl Model for ServerTable {
    ghost Value = { Unit {0} };

    ghost view = { λ _. tt };

    ghost invariant = { λ t. t.sound.cases ≡ TABLE };
}

/// The state of a flow. The client's own flow is none of the server's.
fn state_of(link: Link) -> u8
    ensures state { result ≡ server_state (link_of link) }
    ensures known { result < 6 }
{
    match link {
        Link::NoFlow | Link::AddSeen { .. } => NO_FLOW,
        Link::FirstContact => FIRST_CONTACT,
        Link::AddSent { .. } => ADD_SENT,
        Link::KeysSent { .. } => KEYS_SENT,
        Link::LinkSent { .. } => LINK_SENT,
        Link::Abandoned { .. } => ABANDONED,
    }
}

/// What an action does, where the flow's slot is named or not, and a link stands there or not.
fn act(action: u8, named: bool, stands: bool) -> FlowStep
    ensures { result ≡ server_act action named stands }
{
    match action {
        FIRST_LIVE => FlowStep::Live {
            reply: false,
            first: true,
        },
        LIVE => FlowStep::Live {
            reply: false,
            first: false,
        },
        SEND_KEYS if named && stands => FlowStep::SendKeys,
        OVER_IF_NAMED if named => FlowStep::Over,
        ASK_LINK if named => FlowStep::AskLink,
        OVER => FlowStep::Over,
        _ => FlowStep::Skip,
    }
}

impl ServerTable {
    /// The checked table. It has one row a case, so the check refuses nothing.
    pub fn new() -> ServerTable {
        match TABLE.check() {
            Ok(sound) => ServerTable { sound },
            Err(_) => unreachable!(),
        }
    }

    /// The action of the row for a flow and a message.
    fn action(&self, link: Link, message: u8) -> u8
        requires { message < 4 }
        ensures { result ≡ action_of TABLE.rows (server_state (link_of link)) message }
    {
        self.sound.pick(state_of(link), message)
    }

    /// The reply to CONFIRM LINK.
    pub fn on_confirm_link_reply(&self, link: Link) -> FlowStep
        ensures { result ≡ on_confirm_link_reply (link_of link) }
    {
        act(self.action(link, CONFIRM_REPLY), true, true)
    }

    /// The accepting reply to ADD LINK, for a slot.
    pub fn on_add_link_reply(&self, link: Link, slot: u8, view: &LinkView) -> FlowStep
        ensures { result ≡ on_add_link_reply slot view.now (link_of link) }
    {
        let named = slot == slot_of(link);
        act(self.action(link, ADD_REPLY), named, view.stands_here)
    }

    /// The rejecting reply to ADD LINK, for a slot.
    pub fn on_add_link_reject(&self, link: Link, slot: u8) -> FlowStep
        ensures { result ≡ on_add_link_reject slot (link_of link) }
    {
        let named = slot == slot_of(link);
        act(self.action(link, ADD_REJECT), named, true)
    }

    /// The reply to ADD LINK CONTINUATION, for a slot.
    pub fn on_add_keys_reply(&self, link: Link, slot: u8) -> FlowStep
        ensures { result ≡ on_add_keys_reply slot (link_of link) }
    {
        let named = slot == slot_of(link);
        act(self.action(link, KEYS_REPLY), named, true)
    }
}
