//! Each kind of message once, from worked histories: its frame, as an independent program makes it, and
//! the post that is read of it.
use cdc_wire::{CdcMessage, Cursor};
use clc_wire::{ClcMessage, Offer, Proposal, Refusal};
use llc_wire::{KeyToken, LlcMessage, NewKey};
use pipe_model::{LinkId, Placed, Post, PostRef, Side};
use std::alloc::Global;
use std::process::Abort;
use std::test::Fail;
use wire_trace::{TraceFault, read_trace};

/// A Proposal, in entry 1.
const PROPOSAL: [u8; 74] = [
    0, 0, 0, 1, 1, 1, 0, 0, 0, 0, 0, 0, 0, 0, 0, 0, 0, 0, 0, 0, 0, 52, 226, 212, 195, 217, 1, 0,
    52, 16, 0, 1, 2, 0, 0, 0, 10, 1, 254, 128, 0, 0, 0, 0, 0, 0, 0, 0, 0, 0, 0, 0, 10, 1, 2, 0, 0,
    0, 10, 1, 0, 0, 10, 0, 0, 0, 24, 0, 0, 0, 226, 212, 195, 217,
];

/// An Accept of first contact.
const ACCEPT: [u8; 90] = [
    0, 0, 0, 2, 1, 1, 1, 1, 0, 0, 0, 1, 0, 0, 0, 1, 0, 0, 0, 0, 0, 68, 226, 212, 195, 217, 2, 0,
    68, 24, 0, 1, 2, 0, 0, 0, 11, 1, 254, 128, 0, 0, 0, 0, 0, 0, 0, 0, 0, 0, 0, 0, 11, 1, 2, 0, 0,
    0, 11, 1, 0, 0, 17, 0, 0, 2, 1, 1, 0, 0, 0, 1, 5, 0, 0, 0, 0, 1, 0, 0, 0, 0, 0, 0, 0, 1, 226,
    212, 195, 217,
];

/// A Confirm of first contact.
const CONFIRM: [u8; 90] = [
    0, 0, 0, 3, 1, 1, 0, 1, 0, 0, 0, 1, 0, 0, 0, 1, 0, 0, 0, 0, 0, 68, 226, 212, 195, 217, 3, 0,
    68, 24, 0, 1, 2, 0, 0, 0, 10, 1, 254, 128, 0, 0, 0, 0, 0, 0, 0, 0, 0, 0, 0, 0, 10, 1, 2, 0, 0,
    0, 10, 1, 0, 0, 17, 0, 0, 1, 1, 1, 0, 0, 0, 1, 5, 0, 0, 0, 0, 1, 0, 0, 0, 0, 0, 0, 0, 1, 226,
    212, 195, 217,
];

/// A Decline that says that the sides are out of synch.
const DECLINE: [u8; 50] = [
    0, 0, 0, 11, 1, 1, 0, 0, 0, 0, 0, 0, 0, 0, 0, 0, 0, 0, 0, 1, 0, 28, 226, 212, 195, 217, 4, 0,
    28, 24, 0, 1, 2, 0, 0, 0, 10, 1, 0, 0, 0, 6, 0, 0, 0, 0, 226, 212, 195, 217,
];

/// CONFIRM LINK of the first link.
const CONFIRM_LINK: [u8; 66] = [
    0, 0, 0, 4, 1, 2, 1, 1, 0, 0, 0, 1, 0, 0, 0, 1, 0, 0, 0, 0, 0, 44, 1, 44, 0, 0, 2, 0, 0, 0, 11,
    1, 254, 128, 0, 0, 0, 0, 0, 0, 0, 0, 0, 0, 0, 0, 11, 1, 0, 0, 17, 1, 0, 0, 0, 1, 2, 0, 0, 0, 0,
    0, 0, 0, 0, 0,
];

/// ADD LINK for slot 2.
const ADD_LINK: [u8; 66] = [
    0, 0, 0, 7, 1, 2, 1, 1, 0, 0, 0, 1, 0, 0, 0, 1, 0, 0, 0, 0, 0, 44, 2, 44, 0, 0, 2, 0, 0, 0, 11,
    2, 0, 0, 254, 128, 0, 0, 0, 0, 0, 0, 0, 0, 0, 0, 0, 0, 11, 2, 0, 0, 34, 2, 5, 0, 0, 1, 0, 0, 0,
    0, 0, 0, 0, 0,
];

/// Its reply.
const ADD_LINK_REPLY: [u8; 66] = [
    0, 0, 0, 12, 1, 2, 0, 1, 0, 0, 0, 1, 0, 0, 0, 1, 0, 0, 0, 0, 0, 44, 2, 44, 0, 128, 2, 0, 0, 0,
    10, 2, 0, 0, 254, 128, 0, 0, 0, 0, 0, 0, 0, 0, 0, 0, 0, 0, 10, 2, 0, 0, 34, 2, 5, 0, 0, 1, 0,
    0, 0, 0, 0, 0, 0, 0,
];

/// ADD LINK CONTINUATION with the key of one RMB.
const ADD_KEYS: [u8; 66] = [
    0, 0, 0, 13, 1, 2, 1, 1, 0, 0, 0, 1, 0, 0, 0, 1, 0, 0, 0, 0, 0, 44, 3, 44, 0, 0, 2, 1, 0, 0, 0,
    0, 2, 1, 0, 0, 2, 2, 0, 0, 0, 1, 0, 0, 0, 0, 0, 0, 0, 0, 0, 0, 0, 0, 0, 0, 0, 0, 0, 0, 0, 0, 0,
    0, 0, 0,
];

/// DELETE LINK for a lost path.
const DELETE_LINK: [u8; 66] = [
    0, 0, 0, 33, 1, 2, 0, 2, 0, 0, 0, 1, 0, 0, 0, 1, 0, 0, 0, 0, 0, 44, 4, 44, 0, 0, 1, 0, 1, 0, 0,
    0, 0, 0, 0, 0, 0, 0, 0, 0, 0, 0, 0, 0, 0, 0, 0, 0, 0, 0, 0, 0, 0, 0, 0, 0, 0, 0, 0, 0, 0, 0, 0,
    0, 0, 0,
];

/// CONFIRM RKEY for a second RMB.
const CONFIRM_RKEY: [u8; 66] = [
    0, 0, 0, 10, 1, 2, 0, 1, 0, 0, 0, 1, 0, 0, 0, 1, 0, 0, 0, 0, 0, 44, 6, 44, 0, 0, 0, 0, 0, 1, 2,
    0, 0, 0, 2, 0, 0, 0, 0, 0, 0, 0, 0, 0, 0, 0, 0, 0, 0, 0, 0, 0, 0, 0, 0, 0, 0, 0, 0, 0, 0, 0, 0,
    0, 0, 0,
];

/// TEST LINK with the number of its entry.
const TEST_LINK: [u8; 66] = [
    0, 0, 0, 7, 1, 2, 0, 1, 0, 0, 0, 1, 0, 0, 0, 1, 0, 0, 0, 0, 0, 44, 7, 44, 0, 0, 0, 0, 0, 7, 0,
    0, 0, 0, 0, 0, 0, 0, 0, 0, 0, 0, 0, 0, 0, 0, 0, 0, 0, 0, 0, 0, 0, 0, 0, 0, 0, 0, 0, 0, 0, 0, 0,
    0, 0, 0,
];

/// DELETE RKEY for one RMB.
const DELETE_RKEY: [u8; 66] = [
    0, 0, 0, 13, 1, 2, 0, 1, 0, 0, 0, 1, 0, 0, 0, 1, 0, 0, 0, 0, 0, 44, 9, 44, 0, 0, 1, 0, 0, 0, 0,
    0, 1, 1, 0, 0, 0, 0, 0, 0, 0, 0, 0, 0, 0, 0, 0, 0, 0, 0, 0, 0, 0, 0, 0, 0, 0, 0, 0, 0, 0, 0, 0,
    0, 0, 0,
];

/// A CDC message.
const CDC: [u8; 66] = [
    0, 0, 0, 14, 2, 3, 0, 1, 0, 0, 0, 1, 0, 0, 0, 1, 0, 0, 0, 0, 0, 44, 254, 44, 0, 1, 0, 0, 0, 1,
    0, 0, 0, 0, 0, 0, 0, 1, 0, 0, 0, 0, 0, 0, 0, 0, 0, 0, 0, 0, 0, 0, 0, 0, 0, 0, 0, 0, 0, 0, 0, 0,
    0, 0, 0, 0,
];

/// A remote write.
const WRITE: [u8; 38] = [
    0, 0, 0, 14, 1, 4, 0, 1, 0, 0, 0, 1, 0, 0, 0, 1, 0, 0, 0, 0, 0, 16, 0, 0, 2, 1, 0, 0, 0, 1, 0,
    0, 0, 0, 0, 0, 0, 1,
];

/// Reads the file of one frame as that post alone.
fn reads(rt: &impl Abort, alloc: Global, frame: &[u8], wanted: Placed) -> Result<(), Fail> {
    let mut bytes = Vec::from_slice(alloc, b"SMCT\x01")?;
    bytes.extend_from_slice(frame)?;
    bytes.extend_from_slice(&[0, 0, 0, 0, 0, 0, 0, 1])?;
    assert!(rt; bytes.len() < 1_000);
    match read_trace(alloc, &bytes) {
        Ok(posts) => {
            assert_eq!(rt; posts.len(), 1);
            assert_eq!(rt; posts.get(0).copied(), Some(wanted));
        }
        Err(fault) => assert!(rt; false, "{fault:?}"),
    }
    Ok(())
}

#[test]
fn messages_of_a_handshake(rt: HostRuntime) -> Result<(), Fail> {
    reads(
        &rt,
        rt.alloc(),
        &PROPOSAL,
        Placed {
            at: PostRef { entry: 1, post: 1 },
            post: Post::Clc {
                from: Side::A,
                s: 0,
                link: None,
                message: ClcMessage::Proposal(Proposal {
                    peer: [0, 1, 2, 0, 0, 0, 10, 1],
                    gid: [254, 128, 0, 0, 0, 0, 0, 0, 0, 0, 0, 0, 0, 0, 10, 1],
                    mac: [2, 0, 0, 0, 10, 1],
                    subnet: 167772160,
                    prefix: 24,
                    v6: 0,
                }),
            },
        },
    )?;
    reads(
        &rt,
        rt.alloc(),
        &ACCEPT,
        Placed {
            at: PostRef { entry: 2, post: 1 },
            post: Post::Clc {
                from: Side::B,
                s: 0,
                link: Some(LinkId {
                    group: 1,
                    slot: 1,
                    incarnation: 1,
                }),
                message: ClcMessage::Accept(Offer {
                    first: true,
                    peer: [0, 1, 2, 0, 0, 0, 11, 1],
                    gid: [254, 128, 0, 0, 0, 0, 0, 0, 0, 0, 0, 0, 0, 0, 11, 1],
                    mac: [2, 0, 0, 0, 11, 1],
                    qp: 17,
                    key: 513,
                    index: 1,
                    token: 1,
                    size: 0,
                    mtu: 5,
                    address: 4294967296,
                    psn: 1,
                }),
            },
        },
    )?;
    reads(
        &rt,
        rt.alloc(),
        &CONFIRM,
        Placed {
            at: PostRef { entry: 3, post: 1 },
            post: Post::Clc {
                from: Side::A,
                s: 0,
                link: Some(LinkId {
                    group: 1,
                    slot: 1,
                    incarnation: 1,
                }),
                message: ClcMessage::Confirm(Offer {
                    first: true,
                    peer: [0, 1, 2, 0, 0, 0, 10, 1],
                    gid: [254, 128, 0, 0, 0, 0, 0, 0, 0, 0, 0, 0, 0, 0, 10, 1],
                    mac: [2, 0, 0, 0, 10, 1],
                    qp: 17,
                    key: 257,
                    index: 1,
                    token: 1,
                    size: 0,
                    mtu: 5,
                    address: 4294967296,
                    psn: 1,
                }),
            },
        },
    )?;
    reads(
        &rt,
        rt.alloc(),
        &DECLINE,
        Placed {
            at: PostRef { entry: 11, post: 1 },
            post: Post::Clc {
                from: Side::A,
                s: 1,
                link: None,
                message: ClcMessage::Decline(Refusal {
                    out: true,
                    peer: [0, 1, 2, 0, 0, 0, 10, 1],
                    diagnosis: 6,
                }),
            },
        },
    )?;
    Ok(())
}

#[test]
fn messages_of_the_flows(rt: HostRuntime) -> Result<(), Fail> {
    reads(
        &rt,
        rt.alloc(),
        &CONFIRM_LINK,
        Placed {
            at: PostRef { entry: 4, post: 1 },
            post: Post::Llc {
                from: Side::B,
                link: LinkId {
                    group: 1,
                    slot: 1,
                    incarnation: 1,
                },
                message: LlcMessage::ConfirmLink {
                    reply: false,
                    mac: [2, 0, 0, 0, 11, 1],
                    gid: [254, 128, 0, 0, 0, 0, 0, 0, 0, 0, 0, 0, 0, 0, 11, 1],
                    qp: 17,
                    link: 1,
                    user: 1,
                    most: 2,
                },
            },
        },
    )?;
    reads(
        &rt,
        rt.alloc(),
        &ADD_LINK,
        Placed {
            at: PostRef { entry: 7, post: 1 },
            post: Post::Llc {
                from: Side::B,
                link: LinkId {
                    group: 1,
                    slot: 1,
                    incarnation: 1,
                },
                message: LlcMessage::AddLink {
                    reply: false,
                    rejected: false,
                    reason: 0,
                    mac: [2, 0, 0, 0, 11, 2],
                    gid: [254, 128, 0, 0, 0, 0, 0, 0, 0, 0, 0, 0, 0, 0, 11, 2],
                    qp: 34,
                    link: 2,
                    mtu: 5,
                    psn: 1,
                },
            },
        },
    )?;
    reads(
        &rt,
        rt.alloc(),
        &ADD_LINK_REPLY,
        Placed {
            at: PostRef { entry: 12, post: 1 },
            post: Post::Llc {
                from: Side::A,
                link: LinkId {
                    group: 1,
                    slot: 1,
                    incarnation: 1,
                },
                message: LlcMessage::AddLink {
                    reply: true,
                    rejected: false,
                    reason: 0,
                    mac: [2, 0, 0, 0, 10, 2],
                    gid: [254, 128, 0, 0, 0, 0, 0, 0, 0, 0, 0, 0, 0, 0, 10, 2],
                    qp: 34,
                    link: 2,
                    mtu: 5,
                    psn: 1,
                },
            },
        },
    )?;
    reads(
        &rt,
        rt.alloc(),
        &ADD_KEYS,
        Placed {
            at: PostRef { entry: 13, post: 1 },
            post: Post::Llc {
                from: Side::B,
                link: LinkId {
                    group: 1,
                    slot: 1,
                    incarnation: 1,
                },
                message: LlcMessage::AddKeys {
                    reply: false,
                    link: 2,
                    count: 1,
                    keys: [
                        NewKey {
                            reference: 513,
                            fresh: 514,
                            address: 4294967296,
                        },
                        NewKey {
                            reference: 0,
                            fresh: 0,
                            address: 0,
                        },
                    ],
                },
            },
        },
    )?;
    reads(
        &rt,
        rt.alloc(),
        &DELETE_LINK,
        Placed {
            at: PostRef { entry: 33, post: 1 },
            post: Post::Llc {
                from: Side::A,
                link: LinkId {
                    group: 1,
                    slot: 2,
                    incarnation: 1,
                },
                message: LlcMessage::DeleteLink {
                    reply: false,
                    all: false,
                    orderly: false,
                    link: 1,
                    reason: 65536,
                },
            },
        },
    )?;
    reads(
        &rt,
        rt.alloc(),
        &CONFIRM_RKEY,
        Placed {
            at: PostRef { entry: 10, post: 1 },
            post: Post::Llc {
                from: Side::A,
                link: LinkId {
                    group: 1,
                    slot: 1,
                    incarnation: 1,
                },
                message: LlcMessage::ConfirmRkey {
                    reply: false,
                    retry: false,
                    negative: false,
                    others: 0,
                    tokens: [
                        KeyToken {
                            number: 0,
                            key: 258,
                            address: 8589934592,
                        },
                        KeyToken {
                            number: 0,
                            key: 0,
                            address: 0,
                        },
                        KeyToken {
                            number: 0,
                            key: 0,
                            address: 0,
                        },
                    ],
                },
            },
        },
    )?;
    reads(
        &rt,
        rt.alloc(),
        &TEST_LINK,
        Placed {
            at: PostRef { entry: 7, post: 1 },
            post: Post::Llc {
                from: Side::A,
                link: LinkId {
                    group: 1,
                    slot: 1,
                    incarnation: 1,
                },
                message: LlcMessage::TestLink {
                    reply: false,
                    bytes: [0, 0, 0, 7, 0, 0, 0, 0, 0, 0, 0, 0, 0, 0, 0, 0],
                },
            },
        },
    )?;
    reads(
        &rt,
        rt.alloc(),
        &DELETE_RKEY,
        Placed {
            at: PostRef { entry: 13, post: 1 },
            post: Post::Llc {
                from: Side::A,
                link: LinkId {
                    group: 1,
                    slot: 1,
                    incarnation: 1,
                },
                message: LlcMessage::DeleteRkey {
                    reply: false,
                    negative: false,
                    count: 1,
                    mask: 0,
                    keys: [257, 0, 0, 0, 0, 0, 0, 0],
                },
            },
        },
    )?;
    Ok(())
}

#[test]
fn messages_of_a_connection(rt: HostRuntime) -> Result<(), Fail> {
    reads(
        &rt,
        rt.alloc(),
        &CDC,
        Placed {
            at: PostRef { entry: 14, post: 2 },
            post: Post::Cdc {
                from: Side::A,
                link: LinkId {
                    group: 1,
                    slot: 1,
                    incarnation: 1,
                },
                message: CdcMessage {
                    number: 1,
                    token: 1,
                    told: Cursor { wrap: 0, count: 1 },
                    read: Cursor { wrap: 0, count: 0 },
                    producer: 0,
                    state: 0,
                },
            },
        },
    )?;
    reads(
        &rt,
        rt.alloc(),
        &WRITE,
        Placed {
            at: PostRef { entry: 14, post: 1 },
            post: Post::Write {
                from: Side::A,
                link: LinkId {
                    group: 1,
                    slot: 1,
                    incarnation: 1,
                },
                key: 513,
                address: 4294967296,
                len: 1,
            },
        },
    )?;
    Ok(())
}

#[test]
fn an_end_that_counts_a_frame_too_many(rt: HostRuntime) {
    let bytes = [0x53, 0x4d, 0x43, 0x54, 1, 0, 0, 0, 0, 0, 0, 0, 1];
    let Err(fault) = read_trace(rt.alloc(), &bytes) else {
        return assert!(rt; false, "it was read");
    };
    assert_eq!(rt; fault, TraceFault::BadEnd { place: 5 });
}
