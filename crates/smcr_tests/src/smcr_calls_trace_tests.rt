//! The trace of scenes over memory: the first worked scene's posts, a spent room, refusals, and faults
//! of the outside.
use byte_port::{MemorySink, MemorySource};
use cdc_wire::{CdcMessage, Cursor};
use clc_wire::{ClcMessage, Offer, Proposal};
use llc_wire::LlcMessage;
use pipe_model::{LinkId, Placed, Post, PostRef, Side};
use smcr_calls::{Status, smcr};
use std::test::Fail;
use wire_trace::read_trace;

const FIRST_SCENE: &[u8] = b"open s\npump 9\nwrite A.s 68,69\npump 2\nread B.s 9\n";

const LINK: LinkId = LinkId {
    group: 1,
    slot: 1,
    incarnation: 1,
};

const PEER_A: [u8; 8] = [0, 1, 2, 0, 0, 0, 10, 1];

const PEER_B: [u8; 8] = [0, 1, 2, 0, 0, 0, 11, 1];

const GID_A: [u8; 16] = [254, 128, 0, 0, 0, 0, 0, 0, 0, 0, 0, 0, 0, 0, 10, 1];

const GID_B: [u8; 16] = [254, 128, 0, 0, 0, 0, 0, 0, 0, 0, 0, 0, 0, 0, 11, 1];

const MAC_A: [u8; 6] = [2, 0, 0, 0, 10, 1];

const MAC_B: [u8; 6] = [2, 0, 0, 0, 11, 1];

const OFFER_A: Offer = Offer {
    first: true,
    peer: PEER_A,
    gid: GID_A,
    mac: MAC_A,
    qp: 17,
    key: 257,
    index: 1,
    token: 1,
    size: 0,
    mtu: 5,
    address: 4_294_967_296,
    psn: 1,
};

const OFFER_B: Offer = Offer {
    first: true,
    peer: PEER_B,
    gid: GID_B,
    mac: MAC_B,
    qp: 17,
    key: 513,
    index: 1,
    token: 1,
    size: 0,
    mtu: 5,
    address: 4_294_967_296,
    psn: 1,
};

/// The posts of the first worked scene, as its history tells them, with the numbers that the
/// definitions give the first link.
const FIRST_POSTS: [Placed; 8] = [
    Placed {
        at: PostRef { entry: 1, post: 1 },
        post: Post::Clc {
            from: Side::A,
            s: 0,
            link: None,
            message: ClcMessage::Proposal(Proposal {
                peer: PEER_A,
                gid: GID_A,
                mac: MAC_A,
                subnet: 0x0a00_0000,
                prefix: 24,
                v6: 0,
            }),
        },
    },
    Placed {
        at: PostRef { entry: 2, post: 1 },
        post: Post::Clc {
            from: Side::B,
            s: 0,
            link: Some(LINK),
            message: ClcMessage::Accept(OFFER_B),
        },
    },
    Placed {
        at: PostRef { entry: 3, post: 1 },
        post: Post::Clc {
            from: Side::A,
            s: 0,
            link: Some(LINK),
            message: ClcMessage::Confirm(OFFER_A),
        },
    },
    Placed {
        at: PostRef { entry: 4, post: 1 },
        post: Post::Llc {
            from: Side::B,
            link: LINK,
            message: LlcMessage::ConfirmLink {
                reply: false,
                mac: MAC_B,
                gid: GID_B,
                qp: 17,
                link: 1,
                user: 1,
                most: 1,
            },
        },
    },
    Placed {
        at: PostRef { entry: 5, post: 1 },
        post: Post::Llc {
            from: Side::A,
            link: LINK,
            message: LlcMessage::ConfirmLink {
                reply: true,
                mac: MAC_A,
                gid: GID_A,
                qp: 17,
                link: 1,
                user: 1,
                most: 1,
            },
        },
    },
    Placed {
        at: PostRef { entry: 7, post: 1 },
        post: Post::Write {
            from: Side::A,
            link: LINK,
            key: 513,
            address: 4_294_967_296,
            len: 2,
        },
    },
    Placed {
        at: PostRef { entry: 7, post: 2 },
        post: Post::Cdc {
            from: Side::A,
            link: LINK,
            message: CdcMessage {
                number: 1,
                token: 1,
                told: Cursor { wrap: 0, count: 2 },
                read: Cursor { wrap: 0, count: 0 },
                producer: 0,
                state: 0,
            },
        },
    },
    Placed {
        at: PostRef { entry: 10, post: 1 },
        post: Post::Cdc {
            from: Side::B,
            link: LINK,
            message: CdcMessage {
                number: 1,
                token: 1,
                told: Cursor { wrap: 0, count: 0 },
                read: Cursor { wrap: 0, count: 2 },
                producer: 0,
                state: 0,
            },
        },
    },
];

/// The status of a call, and what its sink holds then.
#[derive(Drop)]
struct Outcome {
    status: Status,
    held: Vec<u8>,
}

/// Asks for the trace of a scene, with a sink whose calls of these numbers fail.
fn trace(rt: &HostRuntime, scene: &[u8], fail: &[u32]) -> Result<Outcome, Fail> {
    let input = Vec::from_slice(rt.alloc(), scene)?;
    let mut source = MemorySource::new(input, Vec::new(rt.alloc()));
    let fail = Vec::from_slice(rt.alloc(), fail)?;
    let Ok(mut sink) = MemorySink::new(rt.alloc(), 1_000, fail) else {
        return Err(Fail::new("no memory"));
    };
    let status = smcr(rt.alloc(), &["trace"], &mut source, &mut sink);
    let held = Vec::from_slice(rt.alloc(), sink.held())?;
    Ok(Outcome { status, held })
}

/// Five bytes and an end of no frames.
#[test]
fn an_empty_scene_has_a_trace_of_no_posts(rt: HostRuntime) -> Result<(), Fail> {
    let got = trace(&rt, b"", &[])?;
    assert_eq!(rt; got.status, Status::Ok);
    assert!(rt; got.held.as_slice() == b"SMCT\x01\0\0\0\0\0\0\0\0".as_slice());
    Ok(())
}

#[test]
fn the_first_scenes_trace_is_read_as_its_posts(rt: HostRuntime) -> Result<(), Fail> {
    let got = trace(&rt, FIRST_SCENE, &[])?;
    assert_eq!(rt; got.status, Status::Ok);
    assert_eq!(rt; got.held.len(), 569);
    match read_trace(rt.alloc(), &got.held) {
        Ok(posts) => assert!(rt; posts.as_slice() == FIRST_POSTS.as_slice()),
        Err(fault) => assert!(rt; false, "{fault:?}"),
    }
    Ok(())
}

/// With room for two entries two posts are told, and no line says that the room is spent.
#[test]
fn with_a_spent_room_the_trace_so_far_is_written(rt: HostRuntime) -> Result<(), Fail> {
    let got = trace(&rt, b"set entries 2\nopen s\npump 9\n", &[])?;
    assert_eq!(rt; got.status, Status::Spent);
    assert!(rt; got.held.len() < 1_000);
    match read_trace(rt.alloc(), &got.held) {
        Ok(posts) => assert!(rt; posts.as_slice() == &FIRST_POSTS[..2]),
        Err(fault) => assert!(rt; false, "{fault:?}"),
    }
    Ok(())
}

/// What is no scene is refused as by a run, and a sink that fails at once has nothing.
#[test]
fn no_trace_is_written_of_a_refused_scene_or_by_a_failed_write(
    rt: HostRuntime,
) -> Result<(), Fail> {
    let got = trace(&rt, b"open s\ngrow\n", &[])?;
    assert_eq!(rt; got.status, Status::Refused);
    assert!(rt; got.held.as_slice() == b"line 2: word\n".as_slice());
    let got = trace(&rt, FIRST_SCENE, &[1])?;
    assert_eq!(rt; got.status, Status::WriteFault);
    assert!(rt; got.held.is_empty());
    Ok(())
}
