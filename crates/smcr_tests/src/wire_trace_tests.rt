//! Worked frames and files, and each fault once.
ghost use Rattle.wire_trace.specs.Traced.{IsWritable};

use arrayvec::ArrayVec;
use byte_port::{MemorySink, Page};
use cdc_wire::{CdcMessage, Cursor, SENDING_DONE};
use clc_wire::{ClcMessage, Proposal};
use llc_wire::LlcMessage;
use pipe_model::{LinkId, Side};
use std::alloc::{AllocError, Global};
use std::process::Abort;
use std::test::Fail;
use wire_trace::*;

const LINK: LinkId = LinkId {
    group: 1,
    slot: 1,
    incarnation: 1,
};

/// A write of two bytes, posted first in entry 7.
const WRITE: [u8; 38] = [
    0, 0, 0, 7, 1, 4, 0, 1, 0, 0, 0, 1, 0, 0, 0, 1, 0, 0, 0, 0, 0, 16, 0, 0, 2, 1, 0, 0, 0, 1, 0,
    0, 0, 0, 0, 0, 0, 2,
];

/// The CDC message behind it.
const CDC: [u8; 66] = [
    0, 0, 0, 7, 2, 3, 0, 1, 0, 0, 0, 1, 0, 0, 0, 1, 0, 0, 0, 0, 0, 44, 0xfe, 44, 0, 1, 0, 0, 0, 1,
    0, 0, 0, 0, 0, 0, 0, 2, 0, 0, 0, 0, 0, 0, 0, 0, 0, 0x80, 0, 0, 0, 0, 0, 0, 0, 0, 0, 0, 0, 0, 0,
    0, 0, 0, 0, 0,
];

fn write() -> Placed
    ensures { IsWritable result.post }
{
    Placed {
        at: PostRef { entry: 7, post: 1 },
        post: Post::Write {
            from: Side::A,
            link: LINK,
            key: 513,
            address: 4_294_967_296,
            len: 2,
        },
    }
}

fn cdc() -> Placed
    ensures { IsWritable result.post }
{
    Placed {
        at: PostRef { entry: 7, post: 2 },
        post: Post::Cdc {
            from: Side::A,
            link: LINK,
            message: CdcMessage {
                number: 1,
                token: 1,
                told: Cursor { wrap: 0, count: 2 },
                read: Cursor { wrap: 0, count: 0 },
                producer: 0,
                state: SENDING_DONE,
            },
        },
    }
}

#[test]
fn frames_by_their_bytes(rt: HostRuntime) {
    let mut frame: ArrayVec<u8, 90> = ArrayVec::new();
    put_frame(write().at, &write().post, &mut frame);
    assert!(rt; frame.as_slice() == WRITE.as_slice());
    put_frame(cdc().at, &cdc().post, &mut frame);
    assert!(rt; frame.as_slice() == CDC.as_slice());

    let proposal = Post::Clc {
        from: Side::A,
        s: 2,
        link: None,
        message: ClcMessage::Proposal(Proposal {
            peer: [1; 8],
            gid: [2; 16],
            mac: [3; 6],
            subnet: 0x0a00_0000,
            prefix: 24,
            v6: 0,
        }),
    };
    put_frame(PostRef { entry: 1, post: 1 }, &proposal, &mut frame);
    let head = [
        0, 0, 0, 1, 1, 1, 0, 0, 0, 0, 0, 0, 0, 0, 0, 0, 0, 0, 0, 2, 0, 52, 0xe2, 0xd4, 0xc3, 0xd9,
    ];
    assert!(rt; frame.as_slice().starts_with(&head));
    assert_eq!(rt; frame.len(), 74);

    let test_link = Post::Llc {
        from: Side::B,
        link: LinkId {
            group: 3,
            slot: 2,
            incarnation: 5,
        },
        message: LlcMessage::TestLink {
            reply: true,
            bytes: [9; 16],
        },
    };
    put_frame(
        PostRef {
            entry: 258,
            post: 6,
        },
        &test_link,
        &mut frame,
    );
    let head = [
        0, 0, 1, 2, 6, 2, 1, 2, 0, 0, 0, 3, 0, 0, 0, 5, 0, 0, 0, 0, 0, 44, 7, 44, 0, 0x80, 9,
    ];
    assert!(rt; frame.as_slice().starts_with(&head));
    assert_eq!(rt; frame.len(), 66);
}

/// A file of these frames, whose end tells so many.
fn file(alloc: Global, frames: &[&[u8]], count: u8) -> Result<Vec<u8>, AllocError> {
    let mut bytes = Vec::from_slice(alloc, b"SMCT\x01")?;
    for frame in frames {
        bytes.extend_from_slice(frame)?;
    }
    bytes.extend_from_slice(&[0, 0, 0, 0, 0, 0, 0, count])?;
    Ok(bytes)
}

/// What a short file is read as.
fn read(rt: &impl Abort, alloc: Global, bytes: &[u8]) -> Result<Vec<Placed>, TraceFault> {
    assert!(rt; bytes.len() < 1_000);
    read_trace(alloc, bytes)
}

/// The fault of a short file.
fn fault_of(rt: &impl Abort, alloc: Global, bytes: &[u8]) -> Option<TraceFault> {
    match read(rt, alloc, bytes) {
        Ok(_) => None,
        Err(fault) => Some(fault),
    }
}

#[test]
fn files_are_read(rt: HostRuntime) -> Result<(), Fail> {
    let bytes = file(rt.alloc(), &[&WRITE, &CDC], 2)?;
    match read(&rt, rt.alloc(), &bytes) {
        Ok(posts) => {
            assert_eq!(rt; posts.len(), 2);
            assert_eq!(rt; posts.get(0).copied(), Some(write()));
            assert_eq!(rt; posts.get(1).copied(), Some(cdc()));
        }
        Err(fault) => assert!(rt; false, "{fault:?}"),
    }

    // Byte by byte another value in a file of one CDC message, or an earlier end.
    let changes = [
        (0, 0x54, 79, TraceFault::BadMagic),
        (4, 2, 79, TraceFault::BadMagic),
        (0, 0x53, 4, TraceFault::BadMagic),
        (0, 0x53, 5, TraceFault::Short { place: 5 }),
        (9, 7, 50, TraceFault::Short { place: 5 }),
        (26, 200, 79, TraceFault::Short { place: 5 }),
        (9, 7, 79, TraceFault::BadField { place: 5 }),
        (9, 0, 79, TraceFault::BadField { place: 5 }),
        (10, 5, 79, TraceFault::BadField { place: 5 }),
        (10, 4, 79, TraceFault::BadField { place: 5 }),
        (11, 2, 79, TraceFault::BadField { place: 5 }),
        (12, 9, 79, TraceFault::BadField { place: 5 }),
        (16, 0, 79, TraceFault::BadField { place: 5 }),
        (20, 0, 79, TraceFault::BadField { place: 5 }),
        (24, 1, 79, TraceFault::BadField { place: 5 }),
        (26, 16, 79, TraceFault::BadField { place: 5 }),
        (10, 2, 79, TraceFault::BadMessage { place: 5 }),
        (27, 0xff, 79, TraceFault::BadMessage { place: 5 }),
        (70, 1, 79, TraceFault::BadMessage { place: 5 }),
        (78, 1, 78, TraceFault::Short { place: 71 }),
        (78, 2, 79, TraceFault::BadEnd { place: 71 }),
    ];
    for (place, value, end, fault) in changes {
        let mut bytes = file(rt.alloc(), &[&CDC], 1)?;
        if let Some(byte) = bytes.get_mut(place) {
            *byte = value;
        }
        bytes.truncate(end);
        assert_eq!(rt;
            fault_of(&rt, rt.alloc(), &bytes),
            Some(fault),
            "{value} at {place}"
        );
    }

    let bytes = file(rt.alloc(), &[&CDC, &WRITE], 2)?;
    let order = TraceFault::BadOrder { place: 71 };
    assert_eq!(rt; fault_of(&rt, rt.alloc(), &bytes), Some(order));
    let mut bytes = file(rt.alloc(), &[&CDC], 1)?;
    bytes.push(0)?;
    let end = TraceFault::BadEnd { place: 71 };
    assert_eq!(rt; fault_of(&rt, rt.alloc(), &bytes), Some(end));
    Ok(())
}

#[test]
fn the_file_of_no_post(rt: HostRuntime) -> Result<(), Fail> {
    let Ok(mut page) = Page::new(rt.alloc()) else {
        return Err(Fail::new("no memory"));
    };
    let Ok(mut sink) = MemorySink::new(rt.alloc(), 100, Vec::new(rt.alloc())) else {
        return Err(Fail::new("no memory"));
    };
    assert_eq!(rt; write_trace(&mut page, &mut sink, &[]), Ok(()));
    assert_eq!(rt; page.flush(&mut sink), Ok(()));
    let bytes = [0x53, 0x4d, 0x43, 0x54, 1, 0, 0, 0, 0, 0, 0, 0, 0];
    assert!(rt; sink.held() == bytes.as_slice());
    assert_eq!(rt; fault_of(&rt, rt.alloc(), &bytes), None);
    let short = TraceFault::Short { place: 5 };
    assert_eq!(rt; fault_of(&rt, rt.alloc(), &bytes[..12]), Some(short));
    Ok(())
}
