//! Each call that needs no message, once; and the calls of the first worked row on the two sides, message by
//! message. Each of the row's helpers is one call, which takes a side from one plain manager of
//! `specs/FirstRow` to the next.
ghost use Rattle.std.specs.Prelude.{◌≡◌, IfOk};
ghost use Rattle.side_core.specs.Manager.{Represents};
ghost use Rattle.side_core.specs.FirstRow.{first_setup, a_open, a_confirmed, a_linked, a_wrote, a_heard, a_done, b_open, b_accepted, b_made, b_ready, b_linked, b_landed, b_heard, b_read, b_done};

use arrayvec::ArrayVec;
use cdc_wire::{ABNORMAL_CLOSE, CLOSED, CdcMessage, Cursor, SENDING_DONE};
use clc_handshake::EndState;
use clc_wire::{Offer, Proposal};
use conn_end::EndReply;
use llc_wire::LlcMessage;
use pipe_model::{
    ClcMessage, FlowStep, LinkId, LinkView, Post, Reply, SentKind, Setup, Side, Snapshot,
};
use side_core::{EndCall, SideCore};
use smc_num::NoMemory;
use std::alloc::Global;
use std::process::Abort;

/// One link and one RMB a side, and two sockets.
const SETUP: Setup = Setup {
    capable: [true, true],
    subnet: [(0x0a00_0000, 24), (0x0a00_0000, 24)],
    links: 1,
    size_code: 0,
    rmbs: [1, 1],
    elements: [4, 4],
    depth: 1,
    number: 1,
    sockets: 2,
};

/// What the client of this setup proposes.
const PROPOSAL: Proposal = Proposal {
    peer: [0, 1, 0x02, 0, 0, 0, 0x0a, 1],
    gid: [0xfe, 0x80, 0, 0, 0, 0, 0, 0, 0, 0, 0, 0, 0, 0, 0x0a, 1],
    mac: [0x02, 0, 0, 0, 0x0a, 1],
    subnet: 0x0a00_0000,
    prefix: 24,
    v6: 0,
};

#[test]
fn the_client_proposes_as_it_opens(rt: HostRuntime) -> Result<(), NoMemory> {
    let mut a = SideCore::new(rt.alloc(), Side::A, &SETUP)?;
    let mut posts: ArrayVec<Post, 6> = ArrayVec::new();
    assert_eq!(rt; a.group(), 0);
    assert_eq!(rt; a.link(1), None);
    assert_eq!(rt; a.end_state(0), EndState::Absent);
    a.open(0, false, &mut posts);
    assert_eq!(rt; a.end_state(0), EndState::Clc);
    let proposal = Post::Clc {
        from: Side::A,
        s: 0,
        link: None,
        message: ClcMessage::Proposal(PROPOSAL),
    };
    assert!(rt; *posts.as_slice() == *[proposal].as_slice());
    Ok(())
}

#[test]
fn the_server_falls_back(rt: HostRuntime) -> Result<(), NoMemory> {
    let mut b = SideCore::new(rt.alloc(), Side::B, &SETUP)?;
    b.fall_back(1);
    assert_eq!(rt; b.end_state(1), EndState::FellBack);
    Ok(())
}

/// The link of first contact.
const LINK: LinkId = LinkId {
    group: 1,
    slot: 1,
    incarnation: 1,
};

/// What the client's application writes.
const BYTES: [u8; 2] = [104, 105];

/// Where the server's first element begins.
const ADDRESS: u64 = 0x1_0000_0000;

/// What a side sees of its slot while the link is confirmed.
const VIEW: LinkView = LinkView {
    path_up: true,
    stands_here: true,
    stands_there: true,
};

/// What the server offers in its Accept.
const ACCEPT: ClcMessage = ClcMessage::Accept(Offer {
    first: true,
    peer: [0, 1, 2, 0, 0, 0, 0x0b, 1],
    gid: [0xfe, 0x80, 0, 0, 0, 0, 0, 0, 0, 0, 0, 0, 0, 0, 0x0b, 1],
    mac: [2, 0, 0, 0, 0x0b, 1],
    qp: 17,
    key: 513,
    index: 1,
    token: 1,
    size: 0,
    mtu: 5,
    address: 0x1_0000_0000,
    psn: 1,
});

/// What the client offers in its Confirm.
const CONFIRM: ClcMessage = ClcMessage::Confirm(Offer {
    first: true,
    peer: [0, 1, 2, 0, 0, 0, 0x0a, 1],
    gid: [0xfe, 0x80, 0, 0, 0, 0, 0, 0, 0, 0, 0, 0, 0, 0, 0x0a, 1],
    mac: [2, 0, 0, 0, 0x0a, 1],
    qp: 17,
    key: 257,
    index: 1,
    token: 1,
    size: 0,
    mtu: 5,
    address: 0x1_0000_0000,
    psn: 1,
});

/// The server asks the client to confirm the link.
const CONFIRM_LINK: LlcMessage = LlcMessage::ConfirmLink {
    reply: false,
    mac: [2, 0, 0, 0, 0x0b, 1],
    gid: [0xfe, 0x80, 0, 0, 0, 0, 0, 0, 0, 0, 0, 0, 0, 0, 0x0b, 1],
    qp: 17,
    link: 1,
    user: 1,
    most: 1,
};

/// The client's reply.
const LINK_REPLY: LlcMessage = LlcMessage::ConfirmLink {
    reply: true,
    mac: [2, 0, 0, 0, 0x0a, 1],
    gid: [0xfe, 0x80, 0, 0, 0, 0, 0, 0, 0, 0, 0, 0, 0, 0, 0x0a, 1],
    qp: 17,
    link: 1,
    user: 1,
    most: 1,
};

/// The client tells that it has written two bytes.
const WRITTEN: CdcMessage = CdcMessage {
    number: 1,
    token: 1,
    told: Cursor { wrap: 0, count: 2 },
    read: Cursor { wrap: 0, count: 0 },
    producer: 0,
    state: 0,
};

/// The same in plain numbers.
const WRITTEN_PLAIN: Snapshot = Snapshot {
    number: 1,
    told: 2,
    read: 0,
    done: false,
    closed: false,
    aborted: false,
};

/// The server tells that it has read them.
const READ: CdcMessage = CdcMessage {
    number: 1,
    token: 1,
    told: Cursor { wrap: 0, count: 0 },
    read: Cursor { wrap: 0, count: 2 },
    producer: 0,
    state: 0,
};

/// The same in plain numbers.
const READ_PLAIN: Snapshot = Snapshot {
    number: 1,
    told: 0,
    read: 2,
    done: false,
    closed: false,
    aborted: false,
};

// What a call posts.
type Posts = ArrayVec<Post, 6>;

// The default peers, but with the one slot and the one RMB a side that are built.
fn setup() -> Setup
    ensures { result ≡ first_setup }
{
    Setup {
        links: 1,
        rmbs: [1, 1],
        ..Setup::default()
    }
}

// The client, whose end waits for an answer.
fn client(alloc: Global) -> Result<SideCore, NoMemory>
    ensures { IfOk result (λ a. Represents a a_open) }
{
    let mut a = SideCore::new(alloc, Side::A, &setup())?;
    a.open(0, false, &mut Posts::new());
    Ok(a)
}

// The server, whose end waits for a Proposal.
fn server(alloc: Global) -> Result<SideCore, NoMemory>
    ensures { IfOk result (λ b. Represents b b_open) }
{
    let mut b = SideCore::new(alloc, Side::B, &setup())?;
    b.open(0, false, &mut Posts::new());
    Ok(b)
}

// The server takes the Proposal.
fn accept(b: &mut SideCore) -> (Reply, Posts)
    requires { Represents b.old b_open }
    ensures { Represents b.new b_accepted }
{
    let message = ClcMessage::Proposal(PROPOSAL);
    let mut posts = Posts::new();
    let reply = b.take_clc(0, &message, None, &[true], &mut posts);
    (reply, posts)
}

// The client takes the Accept.
fn confirm(a: &mut SideCore) -> (Reply, Posts)
    requires { Represents a.old a_open }
    ensures { Represents a.new a_confirmed }
{
    let mut posts = Posts::new();
    let reply = a.take_clc(0, &ACCEPT, Some(LINK), &[true], &mut posts);
    (reply, posts)
}

// The link that the client made is pending at the server.
fn make_link(b: &mut SideCore)
    requires { Represents b.old b_accepted }
    ensures { Represents b.new b_made }
{
    b.link_made(LINK);
}

// The server takes the Confirm.
fn ask_link(b: &mut SideCore) -> (Reply, Posts)
    requires { Represents b.old b_made }
    ensures { Represents b.new b_ready }
{
    let mut posts = Posts::new();
    let reply = b.take_clc(0, &CONFIRM, Some(LINK), &[true], &mut posts);
    (reply, posts)
}

// CONFIRM LINK lands at the client.
fn answer_link(a: &mut SideCore) -> (FlowStep, Posts)
    requires { Represents a.old a_confirmed }
    ensures { Represents a.new a_linked }
{
    let mut posts = Posts::new();
    let step = a.land_llc(LINK, &CONFIRM_LINK, &VIEW, &mut posts);
    (step, posts)
}

// The reply to it lands at the server.
fn establish(b: &mut SideCore) -> (FlowStep, Posts)
    requires { Represents b.old b_ready }
    ensures { Represents b.new b_linked }
{
    let mut posts = Posts::new();
    let step = b.land_llc(LINK, &LINK_REPLY, &VIEW, &mut posts);
    (step, posts)
}

// The client's application writes two bytes.
fn write(a: &mut SideCore) -> (Reply, Posts)
    requires { Represents a.old a_linked }
    ensures { Represents a.new a_wrote }
{
    let mut posts = Posts::new();
    let reply = a.write(0, &BYTES, &mut posts);
    (reply, posts)
}

// The client's application ends its part.
fn end(a: &mut SideCore, call: EndCall) -> (Reply, Posts)
    requires { Represents a.old a_linked }
{
    let mut posts = Posts::new();
    let reply = a.call(0, call, &mut posts);
    (reply, posts)
}

// They land at the server.
fn land_bytes(rt: &impl Abort, a: &SideCore, b: &mut SideCore)
    requires client { Represents a.now a_wrote }
    requires server { Represents b.old b_linked }
    ensures { Represents b.new b_landed }
{
    let (front, back) = a.outgoing(1, ADDRESS, 2);
    assert!(rt; front == BYTES.as_slice());
    assert!(rt; back.is_empty());
    b.land_write(LINK, 513, ADDRESS, front, back);
}

// The client's message lands at the server.
fn hear_written(b: &mut SideCore) -> (Option<u32>, Posts)
    requires { Represents b.old b_landed }
    ensures { Represents b.new b_heard }
{
    let mut posts = Posts::new();
    let dropped = b.land_cdc(LINK, &WRITTEN, &WRITTEN_PLAIN, &mut posts);
    (dropped, posts)
}

// The server's application reads them.
fn read(b: &mut SideCore) -> (EndReply, [u8; 2], Posts)
    requires { Represents b.old b_heard }
    ensures { Represents b.new b_read }
{
    let mut out = [0; 2];
    let mut posts = Posts::new();
    let reply = b.read(0, &mut out, &mut posts);
    (reply, out, posts)
}

// The server's message lands at the client.
fn hear_read(a: &mut SideCore) -> (Option<u32>, Posts)
    requires { Represents a.old a_wrote }
    ensures { Represents a.new a_heard }
{
    let mut posts = Posts::new();
    let dropped = a.land_cdc(LINK, &READ, &READ_PLAIN, &mut posts);
    (dropped, posts)
}

// The client's message completes.
fn complete_written(a: &mut SideCore) -> Posts
    requires { Represents a.old a_heard }
    ensures { Represents a.new a_done }
{
    let mut posts = Posts::new();
    a.complete(LINK, &WRITTEN, &WRITTEN_PLAIN, &mut posts);
    posts
}

// The server's message completes.
fn complete_read(b: &mut SideCore) -> Posts
    requires { Represents b.old b_read }
    ensures { Represents b.new b_done }
{
    let mut posts = Posts::new();
    b.complete(LINK, &READ, &READ_PLAIN, &mut posts);
    posts
}

// The post of a CLC message about the link.
fn clc(from: Side, message: ClcMessage) -> Post {
    Post::Clc {
        from,
        s: 0,
        link: Some(LINK),
        message,
    }
}

// The post of an LLC message.
fn llc(from: Side, message: LlcMessage) -> Post {
    Post::Llc {
        from,
        link: LINK,
        message,
    }
}

// The post of a CDC message.
fn cdc(from: Side, message: CdcMessage) -> Post {
    Post::Cdc {
        from,
        link: LINK,
        message,
    }
}

// The client and the server behind their first contact.
fn connected(rt: &impl Abort, alloc: Global) -> Result<(SideCore, SideCore), NoMemory>
    ensures { IfOk result (λ sides. Represents sides.0 a_linked × Represents sides.1 b_linked) }
{
    let mut a = client(alloc)?;
    let mut b = server(alloc)?;
    let (reply, posts) = accept(&mut b);
    assert_eq!(rt; reply, Reply::Sent(SentKind::Accept));
    assert!(rt; *posts.as_slice() == *[clc(Side::B, ACCEPT)].as_slice());
    let (reply, posts) = confirm(&mut a);
    assert_eq!(rt; reply, Reply::Sent(SentKind::Confirm));
    assert!(rt; *posts.as_slice() == *[clc(Side::A, CONFIRM)].as_slice());
    make_link(&mut b);
    let (reply, posts) = ask_link(&mut b);
    assert_eq!(rt; reply, Reply::Sent(SentKind::ConfirmLink));
    assert!(rt; *posts.as_slice() == *[llc(Side::B, CONFIRM_LINK)].as_slice());
    let (step, posts) = answer_link(&mut a);
    assert_eq!(rt;
        step,
        FlowStep::Live {
            reply: true,
            first: true
        }
    );
    assert!(rt; *posts.as_slice() == *[llc(Side::A, LINK_REPLY)].as_slice());
    let (step, posts) = establish(&mut b);
    assert_eq!(rt;
        step,
        FlowStep::Live {
            reply: false,
            first: true
        }
    );
    assert!(rt; posts.is_empty());
    Ok((a, b))
}

#[test]
fn first_contact_goes_message_by_message(rt: HostRuntime) -> Result<(), NoMemory> {
    let (a, b) = connected(&rt, rt.alloc())?;
    assert_eq!(rt; a.end_state(0), EndState::Up);
    assert_eq!(rt; b.end_state(0), EndState::Up);
    assert_eq!(rt; a.group(), 1);
    assert_eq!(rt; b.group(), 1);
    assert_eq!(rt; a.link(1), Some(LINK));
    assert_eq!(rt; b.link(1), Some(LINK));
    Ok(())
}

#[test]
fn two_bytes_go_message_by_message(rt: HostRuntime) -> Result<(), NoMemory> {
    let (mut a, mut b) = connected(&rt, rt.alloc())?;
    let (reply, posts) = write(&mut a);
    assert_eq!(rt; reply, Reply::Wrote(2));
    let bytes = Post::Write {
        from: Side::A,
        link: LINK,
        key: 513,
        address: ADDRESS,
        len: 2,
    };
    assert!(rt; *posts.as_slice() == *[bytes, cdc(Side::A, WRITTEN)].as_slice());
    land_bytes(&rt, &a, &mut b);
    let (dropped, posts) = hear_written(&mut b);
    assert_eq!(rt; dropped, None);
    assert!(rt; posts.is_empty());
    let (reply, out, posts) = read(&mut b);
    assert_eq!(rt; reply, EndReply::Take { from: 0, len: 2 });
    assert_eq!(rt; out, BYTES);
    assert!(rt; *posts.as_slice() == *[cdc(Side::B, READ)].as_slice());
    let (dropped, posts) = hear_read(&mut a);
    assert_eq!(rt; dropped, None);
    assert!(rt; posts.is_empty());
    assert!(rt; complete_written(&mut a).is_empty());
    assert!(rt; complete_read(&mut b).is_empty());
    Ok(())
}

// What the client's first CDC message says where it carries no bytes, by its connection state flags.
fn told_state(state: u8) -> Post {
    let message = CdcMessage {
        told: Cursor { wrap: 0, count: 0 },
        state,
        ..WRITTEN
    };
    cdc(Side::A, message)
}

#[test]
fn a_finish_tells_that_sending_is_done(rt: HostRuntime) -> Result<(), NoMemory> {
    let (mut a, _b) = connected(&rt, rt.alloc())?;
    let (reply, posts) = end(&mut a, EndCall::Finish);
    assert_eq!(rt; reply, Reply::Done);
    assert!(rt; *posts.as_slice() == *[told_state(SENDING_DONE)].as_slice());
    assert_eq!(rt; a.end_state(0), EndState::Up);
    Ok(())
}

#[test]
fn a_close_with_nothing_under_way_tells_done_and_closed(rt: HostRuntime) -> Result<(), NoMemory> {
    let (mut a, _b) = connected(&rt, rt.alloc())?;
    let (reply, posts) = end(&mut a, EndCall::Close);
    assert_eq!(rt; reply, Reply::Done);
    assert!(rt; *posts.as_slice() == *[told_state(SENDING_DONE + CLOSED)].as_slice());
    assert_eq!(rt; a.end_state(0), EndState::Up);
    Ok(())
}

#[test]
fn an_abort_tells_an_abnormal_close_alone(rt: HostRuntime) -> Result<(), NoMemory> {
    let (mut a, _b) = connected(&rt, rt.alloc())?;
    let (reply, posts) = end(&mut a, EndCall::Abort);
    assert_eq!(rt; reply, Reply::Done);
    assert!(rt; *posts.as_slice() == *[told_state(ABNORMAL_CLOSE)].as_slice());
    assert_eq!(rt; a.end_state(0), EndState::Up);
    Ok(())
}
