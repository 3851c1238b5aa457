//! One row of each table, and the requests of one side, as calls in a row.
ghost use Rattle.pipe_model.specs.Flows.{lost};
ghost use Rattle.llc_flows.specs.Holds.{add_hold, delete_hold};

use llc_flows::*;
use pipe_model::{FlowStep, Hold, KeyPhase, KeyToken, LinkView, LlcMessage, NewKey, Side};

const OPEN: LinkView = LinkView {
    path_up: true,
    stands_here: false,
    stands_there: false,
};

const STANDS: LinkView = LinkView {
    path_up: true,
    stands_here: true,
    stands_there: true,
};

fn confirm_link(reply: bool, link: u8) -> LlcMessage {
    LlcMessage::ConfirmLink {
        reply,
        mac: [0; 6],
        gid: [0; 16],
        qp: 0,
        link,
        user: 1,
        most: 2,
    }
}

fn add_link(reply: bool, link: u8) -> LlcMessage {
    LlcMessage::AddLink {
        reply,
        rejected: false,
        reason: 0,
        mac: [0; 6],
        gid: [0; 16],
        qp: 0,
        link,
        mtu: 5,
        psn: 1,
    }
}

fn add_keys(reply: bool, link: u8) -> LlcMessage {
    let none = NewKey {
        reference: 0,
        fresh: 0,
        address: 0,
    };
    LlcMessage::AddKeys {
        reply,
        link,
        count: 0,
        keys: [none; 2],
    }
}

fn delete_link(reply: bool, link: u8) -> LlcMessage {
    LlcMessage::DeleteLink {
        reply,
        all: false,
        orderly: false,
        link,
        reason: 0x0001_0000,
    }
}

fn confirm_rkey(reply: bool) -> LlcMessage {
    let token = KeyToken {
        number: 0,
        key: 257,
        address: 0x1_0000_0000,
    };
    LlcMessage::ConfirmRkey {
        reply,
        retry: false,
        negative: false,
        others: 0,
        tokens: [token; 3],
    }
}

fn delete_rkey(reply: bool) -> LlcMessage {
    LlcMessage::DeleteRkey {
        reply,
        negative: false,
        count: 1,
        mask: 0,
        keys: [257; 8],
    }
}

fn test_link(reply: bool) -> LlcMessage {
    LlcMessage::TestLink {
        reply,
        bytes: [0; 16],
    }
}

// The link of slot 1 is live, and that of slot 2 is added.
#[test]
fn the_server_adds_a_link(rt: HostRuntime) {
    let mut flows = Flows::new(Side::B);
    flows.begin_first();
    assert_eq!(rt; flows.begin_add(2, 1), Err(Hold::FirstContact));
    assert_eq!(rt;
        flows.on(&confirm_link(true, 1), &STANDS, 1, true, 0),
        FlowStep::Live {
            reply: false,
            first: true
        }
    );
    assert_eq!(rt; flows.begin_add(2, 1), Ok(()));
    assert!(rt; flows.adding());
    assert_eq!(rt; flows.begin_add(2, 1), Err(Hold::AddLink));
    assert_eq!(rt; flows.add_hold(), Some(Hold::AddLink));
    assert_eq!(rt;
        flows.on(&confirm_rkey(false), &STANDS, 1, true, 1),
        FlowStep::ReplyRetry
    );
    assert_eq!(rt;
        flows.on(&add_link(true, 2), &STANDS, 1, true, 1),
        FlowStep::SendKeys
    );
    assert_eq!(rt; flows.add_request(), Some(AddRequest::Keys { slot: 2 }));
    assert_eq!(rt;
        flows.on(&add_keys(true, 2), &STANDS, 1, true, 1),
        FlowStep::AskLink
    );
    assert_eq!(rt;
        flows.on(&confirm_link(true, 2), &STANDS, 2, true, 1),
        FlowStep::Live {
            reply: false,
            first: false
        }
    );
    assert!(rt; !flows.adding());
}

// The server loses the slot that it adds, and waits for the answer still.
#[test]
fn a_lost_link_is_abandoned(rt: HostRuntime) {
    let mut flows = Flows::new(Side::B);
    assert_eq!(rt; flows.begin_add(2, 1), Ok(()));
    let nothing = Resend {
        key: false,
        add: false,
    };
    assert_eq!(rt; flows.link_lost(2, 1), nothing);
    assert!(rt; flows.adding());
    assert_eq!(rt;
        flows.on(&add_link(true, 2), &OPEN, 1, true, 1),
        FlowStep::Over
    );
    assert!(rt; !flows.adding());
}

#[test]
fn the_client_takes_a_link(rt: HostRuntime) {
    let mut flows = Flows::new(Side::A);
    assert_eq!(rt;
        flows.on(&add_link(false, 2), &OPEN, 1, true, 1),
        FlowStep::ReplyAdd { again: false }
    );
    assert_eq!(rt;
        flows.on(&add_link(false, 2), &STANDS, 1, true, 1),
        FlowStep::ReplyAdd { again: true }
    );
    assert_eq!(rt;
        flows.on(&add_link(false, 3), &STANDS, 1, true, 1),
        FlowStep::Reject
    );
    assert_eq!(rt;
        flows.on(&add_keys(false, 2), &STANDS, 1, true, 1),
        FlowStep::ReplyKeys { known: true }
    );
    assert_eq!(rt;
        flows.on(&confirm_link(false, 2), &STANDS, 2, true, 1),
        FlowStep::Live {
            reply: true,
            first: false
        }
    );
    assert!(rt; !flows.adding());
}

// A CONFIRM RKEY for RMB 2 goes on the link of slot 1 first, then on that of slot 2.
#[test]
fn keys_are_confirmed_and_deleted(rt: HostRuntime) {
    let mut flows = Flows::new(Side::A);
    assert_eq!(rt; flows.begin_confirm(2, 1), Ok(()));
    assert_eq!(rt; flows.begin_confirm(2, 1), Err(Hold::ConfirmRkey));
    let key = Resend {
        key: true,
        add: false,
    };
    assert_eq!(rt; flows.link_lost(1, 2), key);
    assert_eq!(rt;
        flows.on(&confirm_rkey(true), &STANDS, 2, false, 2),
        FlowStep::Retry
    );
    assert_eq!(rt; flows.begin_delete(2), Err(Hold::ConfirmRkey));
    assert_eq!(rt; flows.delete_hold(), Some(Hold::ConfirmRkey));
    assert_eq!(rt; flows.begin_confirm(2, 2), Ok(()));
    assert_eq!(rt;
        flows.on(&confirm_rkey(true), &STANDS, 2, true, 2),
        FlowStep::Confirmed
    );
    assert_eq!(rt; flows.rmb(), 2);
    assert_eq!(rt; flows.begin_delete(2), Ok(()));
    assert_eq!(rt; flows.key_phase(), KeyPhase::Deleting);
    assert_eq!(rt;
        flows.on(&delete_rkey(true), &STANDS, 2, true, 2),
        FlowStep::Withdraw
    );
    assert_eq!(rt; flows.key_phase(), KeyPhase::Free);
}

#[test]
fn tests_and_deletions_are_one_a_slot(rt: HostRuntime) {
    let mut flows = Flows::new(Side::A);
    assert_eq!(rt; flows.begin_test(1), Ok(()));
    assert_eq!(rt; flows.begin_test(1), Err(Hold::TestLink));
    assert_eq!(rt;
        flows.on(&test_link(true), &STANDS, 1, true, 1),
        FlowStep::Answered
    );
    assert_eq!(rt; flows.begin_test(1), Ok(()));

    assert!(rt; flows.begin_drop(1, 2));
    assert!(rt; !flows.begin_drop(1, 2));
    assert_eq!(rt;
        flows.on(&delete_link(true, 1), &OPEN, 2, true, 2),
        FlowStep::Answered
    );
    assert!(rt; flows.begin_drop(1, 2));

    flows.clear();
    assert!(rt; flows.begin_drop(1, 2));
}

// Requests that are answered whatever the flows.
#[test]
fn requests_are_answered(rt: HostRuntime) {
    let mut flows = Flows::new(Side::A);
    let lost = LinkView {
        stands_there: false,
        ..STANDS
    };
    assert_eq!(rt;
        flows.on(&delete_link(false, 1), &lost, 2, true, 2),
        FlowStep::Gone { report: true }
    );
    assert_eq!(rt;
        flows.on(&test_link(false), &STANDS, 2, true, 2),
        FlowStep::Echo
    );
    assert_eq!(rt;
        flows.on(&confirm_rkey(false), &STANDS, 2, true, 2),
        FlowStep::Learn
    );
    assert_eq!(rt;
        flows.on(&delete_rkey(false), &STANDS, 2, true, 2),
        FlowStep::Forget
    );
    assert_eq!(rt;
        flows.on(&confirm_link(true, 2), &STANDS, 2, true, 2),
        FlowStep::Skip
    );
}
