ghost use Rattle.std.specs.Prelude.{false};

use clc_handshake::*;
use clc_wire::{Offer, Proposal, Refusal};
use pipe_model::{ClcMessage, ClcStep, Hold, KeyPhase, Lack, Lacks, ResetCause, SentKind, Side};

/// A side of two RMBs of four elements, with a group, where nothing is under way.
const FACTS: Lacks = Lacks {
    subnet: (0x0a00_0000, 24),
    free: 8,
    elements: 8,
    rmb_ready: true,
    group: 1,
    first_contact: false,
    slots_up: 2,
    links: 2,
    key_flow: KeyPhase::Free,
    adding: false,
};

const NO_GROUP: Lacks = Lacks { group: 0, ..FACTS };

const PROPOSAL: ClcMessage = ClcMessage::Proposal(Proposal {
    peer: [0; 8],
    gid: [0; 16],
    mac: [0; 6],
    subnet: 0x0a00_0000,
    prefix: 24,
    v6: 0,
});

const DECLINE: ClcMessage = ClcMessage::Decline(Refusal {
    out: false,
    peer: [0; 8],
    diagnosis: 3,
});

/// An offer in group 1.
fn offer(first: bool) -> Offer {
    Offer {
        first,
        peer: [0; 8],
        gid: [0; 16],
        mac: [0; 6],
        qp: 17,
        key: 513,
        index: 1,
        token: 1,
        size: 0,
        mtu: 5,
        address: 0x1_0000_0000,
        psn: 1,
    }
}

#[test]
fn the_server_offers_and_is_ready(rt: HostRuntime) {
    let mut end = Handshake::new(Side::B, false);
    let held = Lacks {
        first_contact: true,
        ..FACTS
    };
    assert_eq!(rt; end.on(&PROPOSAL, &held), ClcStep::Wait(Hold::FirstContact));
    let asks = Lacks {
        rmb_ready: false,
        ..FACTS
    };
    assert_eq!(rt; end.would_step(&PROPOSAL, &asks), ClcStep::AskKey);
    assert_eq!(rt; end.on(&PROPOSAL, &asks), ClcStep::AskKey);
    assert_eq!(rt;
        end.on(&PROPOSAL, &NO_GROUP),
        ClcStep::SendAccept { first: true }
    );
    let confirm = ClcMessage::Confirm(offer(true));
    assert_eq!(rt; end.state(), EndState::Clc);
    assert_eq!(rt; end.on(&confirm, &FACTS), ClcStep::Ready);
    assert_eq!(rt; end.state(), EndState::Link);
    end.rise();
    assert_eq!(rt; end.state(), EndState::Up);

    let mut end = Handshake::new(Side::B, false);
    assert_eq!(rt;
        end.on(&PROPOSAL, &FACTS),
        ClcStep::SendAccept { first: false }
    );
    let confirm = ClcMessage::Confirm(offer(false));
    assert_eq!(rt; end.on(&confirm, &NO_GROUP), ClcStep::Lost);

    let mut end = Handshake::new(Side::B, false);
    let cause = ResetCause::NoLiveLink { group: 1 };
    end.reset(cause);
    assert_eq!(rt; end.state(), EndState::Reset(cause));
}

#[test]
fn the_client_confirms_or_declines(rt: HostRuntime) {
    let first = ClcMessage::Accept(offer(true));
    let later = ClcMessage::Accept(offer(false));

    let mut end = Handshake::new(Side::A, false);
    assert_eq!(rt; end.on(&first, &FACTS), ClcStep::Wait(Hold::OldGroup));
    assert_eq!(rt;
        end.on(&first, &NO_GROUP),
        ClcStep::SendConfirm { first: true }
    );

    let mut end = Handshake::new(Side::A, false);
    assert_eq!(rt;
        end.on(&later, &FACTS),
        ClcStep::SendConfirm { first: false }
    );

    let mut end = Handshake::new(Side::A, false);
    let lost = Lack::GroupLost {
        named: 1,
        stands: 0,
    };
    assert_eq!(rt; end.on(&later, &NO_GROUP), ClcStep::Decline(lost));

    let mut end = Handshake::new(Side::A, false);
    assert_eq!(rt; end.on(&DECLINE, &FACTS), ClcStep::Fell);
    assert_eq!(rt; end.state(), Handshake::fallen().state());
}

#[test]
fn a_raw_client_may_only_propose_and_decline(rt: HostRuntime) {
    let mut end = Handshake::new(Side::B, true);
    assert_eq!(rt; end.on(&PROPOSAL, &NO_GROUP), ClcStep::Decline(Lack::Raw));

    let mut end = Handshake::new(Side::B, true);
    assert_eq!(rt;
        end.on(&PROPOSAL, &FACTS),
        ClcStep::SendAccept { first: false }
    );
    let confirm = ClcMessage::Confirm(offer(false));
    assert_eq!(rt; end.on(&confirm, &FACTS), ClcStep::Wrong(SentKind::Confirm));
}
