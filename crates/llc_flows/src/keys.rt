//! The table of keys, of both sides: what they do with the replies to CONFIRM RKEY and DELETE RKEY.
#![tactic(auto)]

ghost use Rattle.std.specs.Prelude.{◌≡◌, ◌<◌};
ghost use Rattle.pipe_model.specs.Flows.{on_confirm_rkey_reply, on_delete_rkey_reply};
ghost use Rattle.field_cases.specs.Table.{action_of};
ghost use Rattle.llc_flows.specs.declared.keys.TheConstants.{TABLE};
ghost use Rattle.llc_flows.specs.Tables.{key_state, key_act};

use field_cases::{Cases, Row, Sound};
use pipe_model::{FlowStep, KeyPhase};
use std::marker::Model;

// The states.
const FREE: u8 = 0;

const ASKED: u8 = 1;

const RETRY_WAITS: u8 = 2;

const DELETING: u8 = 3;

// The messages.
const CONFIRM_REPLY: u8 = 0;

const CONFIRM_RETRY: u8 = 1;

const DELETE_REPLY: u8 = 2;

// The actions. The first is one for a request that told the keys of all links, and else a retry.
const SKIP: u8 = 0;

const CONFIRM_IF_WHOLE: u8 = 1;

const RETRY: u8 = 2;

const WITHDRAW: u8 = 3;

const TABLE: Cases<12> = Cases {
    rows: rows! {
        FREE: CONFIRM_REPLY => SKIP, CONFIRM_RETRY => SKIP, DELETE_REPLY => SKIP;
        ASKED: CONFIRM_REPLY => CONFIRM_IF_WHOLE, CONFIRM_RETRY => RETRY, DELETE_REPLY => SKIP;
        RETRY_WAITS: CONFIRM_REPLY => SKIP, CONFIRM_RETRY => SKIP, DELETE_REPLY => SKIP;
        DELETING: CONFIRM_REPLY => SKIP, CONFIRM_RETRY => SKIP, DELETE_REPLY => WITHDRAW;
    },
    states: 4,
    messages: 3,
};

/// The table, found to have one row a case.
#[derive(Drop)]
pub struct KeyTable {
    sound: Sound<12>,
}

impl Model for KeyTable {
    ghost Value = { Unit {0} };

    ghost view = { λ _. tt };

    ghost invariant = { λ t. t.sound.cases ≡ TABLE };
}

/// The state of the table.
fn state_of(key: KeyPhase) -> u8
    ensures state { result ≡ key_state key }
    ensures known { result < 4 }
{
    match key {
        KeyPhase::Free => FREE,
        KeyPhase::Asked => ASKED,
        KeyPhase::Retry => RETRY_WAITS,
        KeyPhase::Deleting => DELETING,
    }
}

/// What an action does, where the last request told the keys of all links or not.
fn act(action: u8, whole: bool) -> FlowStep
    ensures { result ≡ key_act action whole }
{
    match action {
        CONFIRM_IF_WHOLE if whole => FlowStep::Confirmed,
        CONFIRM_IF_WHOLE | RETRY => FlowStep::Retry,
        WITHDRAW => FlowStep::Withdraw,
        _ => FlowStep::Skip,
    }
}

impl KeyTable {
    /// The checked table. It has one row a case, so the check refuses nothing.
    pub fn new() -> KeyTable {
        match TABLE.check() {
            Ok(sound) => KeyTable { sound },
            Err(_) => unreachable!(),
        }
    }

    /// The step for a message, by the action of its row.
    fn step(&self, key: KeyPhase, message: u8, whole: bool) -> FlowStep
        requires { message < 3 }
        ensures { result ≡ key_act (action_of TABLE.rows (key_state key) message) whole }
    {
        act(self.sound.pick(state_of(key), message), whole)
    }

    /// The reply to CONFIRM RKEY. It confirms only where the request told the keys of all links.
    pub fn on_confirm_rkey_reply(&self, key: KeyPhase, retry: bool, whole: bool) -> FlowStep
        ensures { result ≡ on_confirm_rkey_reply retry whole key }
    {
        if retry {
            self.step(key, CONFIRM_RETRY, whole)
        } else {
            self.step(key, CONFIRM_REPLY, whole)
        }
    }

    /// The reply to DELETE RKEY, whatever it says.
    pub fn on_delete_rkey_reply(&self, key: KeyPhase) -> FlowStep
        ensures { result ≡ on_delete_rkey_reply key }
    {
        self.step(key, DELETE_REPLY, true)
    }
}
