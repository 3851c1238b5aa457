//! The printer by its tables: each reply, and each kind of post.
use byte_port::{MemorySink, Page};
use pipe_model::{
    CdcMessage, ClcFault, ClcMessage, Cursor, Hold, KeyToken, Lack, LinkId, LlcMessage, NewKey,
    Offer, Post, PostRef, Proposal, Refusal, Reply, ResetCause, SentKind, Side,
};
use smcr_calls::{put_posts, put_reply};
use std::test::Fail;

const HEARD: &[u8] = &[0x68, 0x69, 0x61, 0x61, 0x61];

const PLAIN: [(Reply, &str); 17] = [
    (Reply::Opened, "opened"),
    (Reply::NameUsed, "name used"),
    (Reply::NoSocket, "no socket"),
    (Reply::Wrote(16_384), "wrote 16384"),
    (Reply::Full, "full"),
    (Reply::Bytes { from: 0, len: 2 }, "data 68,69"),
    (Reply::Bytes { from: 2, len: 3 }, "data 61*3"),
    (Reply::Bytes { from: 5, len: 0 }, "data -"),
    (Reply::Empty, "empty"),
    (Reply::End, "end"),
    (Reply::NotYet, "not yet"),
    (Reply::Ended, "ended"),
    (Reply::Done, "done"),
    (Reply::Idle, "idle"),
    (Reply::Established, "established"),
    (Reply::FellBack, "fell back"),
    (Reply::Moved { from: 1, to: 2 }, "moved 1 2"),
];

const CAUSES: [(Reply, &str); 15] = [
    (Reply::Reset(ResetCause::OwnAbort), "reset own abort"),
    (Reply::Reset(ResetCause::PeerAbort), "reset peer abort"),
    (
        Reply::Reset(ResetCause::NoLiveLink { group: 1 }),
        "reset no live link 1",
    ),
    (
        Reply::Reset(ResetCause::Gap { told: 4, taken: 3 }),
        "reset gap 4 3",
    ),
    (
        Reply::Reset(ResetCause::BadClc(ClcFault::Short)),
        "reset bad message short",
    ),
    (
        Reply::Reset(ResetCause::BadClc(ClcFault::BadEye { place: 2 })),
        "reset bad message bad eye 2",
    ),
    (
        Reply::Reset(ResetCause::BadClc(ClcFault::BadType { value: 9 })),
        "reset bad message bad type 9",
    ),
    (
        Reply::Reset(ResetCause::BadClc(ClcFault::BadLength { value: 67 })),
        "reset bad message bad length 67",
    ),
    (
        Reply::Reset(ResetCause::BadClc(ClcFault::BadVersion { value: 2 })),
        "reset bad message bad version 2",
    ),
    (
        Reply::Reset(ResetCause::BadClc(ClcFault::BadTrailer)),
        "reset bad message bad trailer",
    ),
    (
        Reply::Reset(ResetCause::BadStep(SentKind::Decline)),
        "reset bad step decline",
    ),
    (Reply::Landed(PostRef { entry: 4, post: 1 }), "landed 4.1"),
    (
        Reply::Completed(PostRef { entry: 30, post: 2 }),
        "completed 30.2",
    ),
    (Reply::GroupEnded(1), "group ended 1"),
    (Reply::Dropped(1), "dropped 1"),
];

const HELD_AND_SENT: [(Reply, &str); 15] = [
    (Reply::Held(Hold::FirstContact), "held first contact"),
    (Reply::Held(Hold::AddLink), "held add link"),
    (Reply::Held(Hold::ConfirmRkey), "held confirm rkey"),
    (Reply::Held(Hold::DeleteRkey), "held delete rkey"),
    (Reply::Held(Hold::TestLink), "held test link"),
    (Reply::Held(Hold::OldGroup), "held old group"),
    (Reply::Sent(SentKind::Proposal), "sent proposal"),
    (Reply::Sent(SentKind::Accept), "sent accept"),
    (Reply::Sent(SentKind::Confirm), "sent confirm"),
    (Reply::Sent(SentKind::Decline), "sent decline"),
    (Reply::Sent(SentKind::ConfirmLink), "sent confirm link"),
    (Reply::Sent(SentKind::AddLink), "sent add link"),
    (Reply::Sent(SentKind::ConfirmRkey), "sent confirm rkey"),
    (Reply::Sent(SentKind::DeleteRkey), "sent delete rkey"),
    (Reply::Sent(SentKind::TestLink), "sent test link"),
];

const LACKS: [(Reply, &str); 8] = [
    (
        Reply::Declined(Lack::NotCapable { a: true, b: false }),
        "declined not capable yes no",
    ),
    (
        Reply::Declined(Lack::NotCapable { a: false, b: true }),
        "declined not capable no yes",
    ),
    (Reply::Declined(Lack::NoSubnet), "declined no common subnet"),
    (
        Reply::Declined(Lack::NoServerElement { elements: 2 }),
        "declined no server element 2",
    ),
    (
        Reply::Declined(Lack::NoClientElement { elements: 1 }),
        "declined no client element 1",
    ),
    (
        Reply::Declined(Lack::NoSlot { links: 1 }),
        "declined no usable slot 1",
    ),
    (
        Reply::Declined(Lack::GroupLost {
            named: 1,
            stands: 0,
        }),
        "declined group lost 1 0",
    ),
    (Reply::Declined(Lack::Raw), "declined raw"),
];

const FIRST_LINK: LinkId = LinkId {
    group: 1,
    slot: 1,
    incarnation: 1,
};

const SECOND_LINK: LinkId = LinkId {
    group: 1,
    slot: 2,
    incarnation: 1,
};

const FIRST_RMB: u64 = 4_294_967_296;

const SECOND_RMB: u64 = 8_589_934_592;

const MAC: [u8; 6] = [0; 6];

const GID: [u8; 16] = [0; 16];

const PEER: [u8; 8] = [0; 8];

/// An empty page, and a sink with much room.
fn page_and_sink(rt: &HostRuntime) -> Result<(Page, MemorySink), Fail> {
    let Ok(page) = Page::new(rt.alloc()) else {
        return Err(Fail::new("no memory"));
    };
    let Ok(sink) = MemorySink::new(rt.alloc(), 10_000, Vec::new(rt.alloc())) else {
        return Err(Fail::new("no memory"));
    };
    Ok((page, sink))
}

/// Puts a table of replies, a line each, and tells whether it is the texts of the table.
fn are_told(rt: &HostRuntime, rows: &[(Reply, &'static str)]) -> Result<bool, Fail> {
    let (mut page, mut sink) = page_and_sink(rt)?;
    let mut want = Vec::new(rt.alloc());
    let mut is_put = true;
    for (reply, told) in rows {
        is_put = is_put && put_reply(&mut page, &mut sink, HEARD, *reply).is_ok();
        is_put = is_put && page.put(&mut sink, b"\n").is_ok();
        want.extend_from_slice(told.as_bytes())?;
        want.push(b'\n')?;
    }
    is_put = is_put && page.flush(&mut sink).is_ok();
    Ok(is_put && sink.held() == want.as_slice())
}

/// Every reply, with each of its causes.
#[test]
fn replies_are_told(rt: HostRuntime) -> Result<(), Fail> {
    assert!(rt; are_told(&rt, &PLAIN)?);
    assert!(rt; are_told(&rt, &CAUSES)?);
    assert!(rt; are_told(&rt, &HELD_AND_SENT)?);
    assert!(rt; are_told(&rt, &LACKS)?);
    Ok(())
}

/// Whether posts have these lines, where the sockets are `s` and `t`.
fn are_printed(rt: &HostRuntime, posts: &[Post], lines: &str) -> Result<bool, Fail> {
    let mut names = Vec::new(rt.alloc());
    names.push(String::from_str(rt.alloc(), "s")?)?;
    names.push(String::from_str(rt.alloc(), "t")?)?;
    let (mut page, mut sink) = page_and_sink(rt)?;
    let mut is_put = put_posts(&mut page, &mut sink, &names, posts).is_ok();
    is_put = is_put && page.flush(&mut sink).is_ok();
    Ok(is_put && sink.held() == lines.as_bytes())
}

fn cdc(from: Side, number: u16, told: u32, producer: u8, state: u8) -> Post {
    Post::Cdc {
        from,
        link: FIRST_LINK,
        message: CdcMessage {
            number,
            token: 1,
            told: Cursor {
                wrap: 0,
                count: told,
            },
            read: Cursor { wrap: 0, count: 0 },
            producer,
            state,
        },
    }
}

/// Writes and CDC messages.
#[test]
fn writes_and_cdc_messages_are_printed(rt: HostRuntime) -> Result<(), Fail> {
    let posts = [
        Post::Write {
            from: Side::A,
            link: FIRST_LINK,
            key: 513,
            address: 4_294_983_676,
            len: 4,
        },
        cdc(Side::A, 1, 2, 0, 0),
        cdc(Side::A, 0, 0, 0x08, 0),
        cdc(Side::A, 1, 0, 0, 0xc0),
        cdc(Side::B, 1, 0, 0, 0x20),
        cdc(Side::A, 2, 1, 0, 0x80),
        Post::Cdc {
            from: Side::B,
            link: SECOND_LINK,
            message: CdcMessage {
                number: 65_535,
                token: 2,
                told: Cursor { wrap: 1, count: 16 },
                read: Cursor { wrap: 0, count: 2 },
                producer: 0,
                state: 0,
            },
        },
    ];
    let lines =
        "  write A 1.1.1 key 513 at 4294983676 len 4\n  cdc A 1.1.1 token 1 number 1 told 0/2 read 0/0 -\n  cdc A 1.1.1 token 1 number 0 told 0/0 read 0/0 valid\n  cdc A 1.1.1 token 1 number 1 told 0/0 read 0/0 done,closed\n  cdc B 1.1.1 token 1 number 1 told 0/0 read 0/0 abort\n  cdc A 1.1.1 token 1 number 2 told 0/1 read 0/0 done\n  cdc B 1.2.1 token 2 number 65535 told 1/16 read 0/2 -\n";
    assert!(rt; are_printed(&rt, &posts, lines)?);
    Ok(())
}

fn llc(from: Side, link: LinkId, message: LlcMessage) -> Post {
    Post::Llc {
        from,
        link,
        message,
    }
}

fn confirm_link(reply: bool) -> LlcMessage {
    LlcMessage::ConfirmLink {
        reply,
        mac: MAC,
        gid: GID,
        qp: 17,
        link: 1,
        user: 1,
        most: 2,
    }
}

fn add_link(reply: bool, rejected: bool) -> LlcMessage {
    LlcMessage::AddLink {
        reply,
        rejected,
        reason: 0,
        mac: MAC,
        gid: GID,
        qp: 34,
        link: 2,
        mtu: 5,
        psn: 1,
    }
}

fn add_keys(reply: bool, count: u8) -> LlcMessage {
    LlcMessage::AddKeys {
        reply,
        link: 2,
        count,
        keys: [
            NewKey {
                reference: 257,
                fresh: 259,
                address: FIRST_RMB,
            },
            NewKey {
                reference: 258,
                fresh: 260,
                address: SECOND_RMB,
            },
        ],
    }
}

fn delete_link(reply: bool) -> LlcMessage {
    LlcMessage::DeleteLink {
        reply,
        all: false,
        orderly: false,
        link: 1,
        reason: 65_536,
    }
}

/// Messages about links.
#[test]
fn messages_about_links_are_printed(rt: HostRuntime) -> Result<(), Fail> {
    let posts = [
        llc(Side::B, FIRST_LINK, confirm_link(false)),
        llc(Side::A, FIRST_LINK, confirm_link(true)),
        llc(Side::B, FIRST_LINK, add_link(false, false)),
        llc(Side::A, FIRST_LINK, add_link(true, false)),
        llc(Side::A, FIRST_LINK, add_link(true, true)),
        llc(Side::B, FIRST_LINK, add_keys(false, 1)),
        llc(Side::A, FIRST_LINK, add_keys(true, 2)),
        llc(Side::A, FIRST_LINK, add_keys(true, 0)),
        llc(Side::A, SECOND_LINK, delete_link(false)),
        llc(Side::B, SECOND_LINK, delete_link(true)),
    ];
    let lines =
        "  llc B 1.1.1 confirm link 1\n  llc A 1.1.1 confirm link reply 1\n  llc B 1.1.1 add link 2\n  llc A 1.1.1 add link reply 2\n  llc A 1.1.1 add link reject 2\n  llc B 1.1.1 add keys 2 257=259\n  llc A 1.1.1 add keys reply 2 257=259,258=260\n  llc A 1.1.1 add keys reply 2 -\n  llc A 1.2.1 delete link 1\n  llc B 1.2.1 delete link reply 1\n";
    assert!(rt; are_printed(&rt, &posts, lines)?);
    Ok(())
}

fn confirm_rkey(reply: bool, retry: bool, others: u8) -> LlcMessage {
    LlcMessage::ConfirmRkey {
        reply,
        retry,
        negative: false,
        others,
        tokens: [
            KeyToken {
                number: others,
                key: 261,
                address: SECOND_RMB,
            },
            KeyToken {
                number: 1,
                key: 260,
                address: SECOND_RMB,
            },
            KeyToken {
                number: 3,
                key: 262,
                address: SECOND_RMB,
            },
        ],
    }
}

fn test_link(reply: bool) -> LlcMessage {
    LlcMessage::TestLink {
        reply,
        bytes: [0, 0, 1, 0xa3, 0, 0, 0, 0, 0, 0, 0, 0, 0, 0, 0, 0],
    }
}

fn delete_rkey(reply: bool, count: u8) -> LlcMessage {
    LlcMessage::DeleteRkey {
        reply,
        negative: false,
        count,
        mask: 0,
        keys: [513, 514, 0, 0, 0, 0, 0, 0],
    }
}

/// Messages about keys, and tests.
#[test]
fn messages_about_keys_are_printed(rt: HostRuntime) -> Result<(), Fail> {
    let posts = [
        llc(Side::A, SECOND_LINK, confirm_rkey(false, false, 2)),
        llc(Side::B, SECOND_LINK, confirm_rkey(true, false, 2)),
        llc(Side::A, SECOND_LINK, confirm_rkey(false, false, 0)),
        llc(Side::B, FIRST_LINK, confirm_rkey(true, true, 0)),
        llc(Side::B, FIRST_LINK, delete_rkey(false, 1)),
        llc(Side::A, FIRST_LINK, delete_rkey(true, 2)),
        llc(Side::A, FIRST_LINK, test_link(false)),
        llc(Side::B, FIRST_LINK, test_link(true)),
    ];
    let lines =
        "  llc A 1.2.1 confirm rkey 2 2=261,1=260,3=262\n  llc B 1.2.1 confirm rkey reply 2 2=261,1=260,3=262\n  llc A 1.2.1 confirm rkey 2 2=261\n  llc B 1.1.1 confirm rkey retry\n  llc B 1.1.1 delete rkey 513\n  llc A 1.1.1 delete rkey reply 513,514\n  llc A 1.1.1 test link 419\n  llc B 1.1.1 test link reply 419\n";
    assert!(rt; are_printed(&rt, &posts, lines)?);
    Ok(())
}

fn clc(from: Side, s: u32, link: Option<LinkId>, message: ClcMessage) -> Post {
    Post::Clc {
        from,
        s,
        link,
        message,
    }
}

fn offer(first: bool, key: u32, address: u64, index: u8, token: u32) -> Offer {
    Offer {
        first,
        peer: PEER,
        gid: GID,
        mac: MAC,
        qp: 17,
        key,
        index,
        token,
        size: 0,
        mtu: 5,
        address,
        psn: 1,
    }
}

fn decline(is_out: bool, diagnosis: u32) -> ClcMessage {
    ClcMessage::Decline(Refusal {
        out: is_out,
        peer: PEER,
        diagnosis,
    })
}

/// CLC messages.
#[test]
fn clc_messages_are_printed(rt: HostRuntime) -> Result<(), Fail> {
    let proposal = Proposal {
        peer: PEER,
        gid: GID,
        mac: MAC,
        subnet: 0x0a00_0000,
        prefix: 24,
        v6: 0,
    };
    let posts = [
        clc(Side::A, 0, None, ClcMessage::Proposal(proposal)),
        clc(
            Side::B,
            0,
            Some(FIRST_LINK),
            ClcMessage::Accept(offer(true, 513, FIRST_RMB, 1, 1)),
        ),
        clc(
            Side::A,
            0,
            Some(FIRST_LINK),
            ClcMessage::Confirm(offer(true, 257, FIRST_RMB, 1, 1)),
        ),
        clc(
            Side::B,
            1,
            Some(FIRST_LINK),
            ClcMessage::Accept(offer(false, 513, FIRST_RMB, 2, 2)),
        ),
        clc(
            Side::A,
            1,
            Some(FIRST_LINK),
            ClcMessage::Confirm(offer(false, 258, SECOND_RMB, 1, 2)),
        ),
        clc(Side::B, 0, None, decline(false, 3)),
        clc(Side::A, 1, None, decline(true, 6)),
    ];
    let lines =
        "  clc A s proposal\n  clc B s accept first 1.1.1 key 513 rmb 1 index 1 token 1\n  clc A s confirm first 1.1.1 key 257 rmb 1 index 1 token 1\n  clc B t accept later 1.1.1 key 513 rmb 1 index 2 token 2\n  clc A t confirm later 1.1.1 key 258 rmb 2 index 1 token 2\n  clc B s decline 3\n  clc A t decline 6 out of synch\n";
    assert!(rt; are_printed(&rt, &posts, lines)?);
    Ok(())
}
