//! The parts of three scenes: a move after a write that has not completed, a move whose validation
//! message shows a gap, and an end that finishes.
use pipe_model::{PlainCall, PlainPipe, PlainTold, Reply, ResetCause, Sent, Snapshot};
use smc_num::{LinkId, LinkPhase, Side};
use std::alloc::Global;
use std::process::Abort;
use std::test::Fail;

const A: Side = Side::A;

const B: Side = Side::B;

const FIRST: LinkId = LinkId {
    group: 1,
    slot: 1,
    incarnation: 1,
};

const SECOND: LinkId = LinkId {
    group: 1,
    slot: 2,
    incarnation: 1,
};

/// One item of a part; a call with what it is told, a read that hands out bytes with them.
#[derive(Clone, Copy, Debug)]
enum Step {
    Live(Side, LinkId),
    Dead(Side, LinkId),
    Up(Side, LinkId),
    GroupEnd(Side),
    Told(Side, PlainCall<'static>, Reply),
    Handed(Side, u32, &'static [u8]),
    Lands(Side),
    Completes(Side),
}

fn told(
    rt: &impl Abort,
    alloc: Global,
    pipe: &mut PlainPipe,
    side: Side,
    call: PlainCall<'_>,
    want: Reply,
) -> Result<(), Fail> {
    match pipe.call(alloc, side, call)? {
        PlainTold::Answer(reply) => assert_eq!(rt; reply, want, "{call:?}"),
        PlainTold::HandsOut(bytes) => panic!(rt; "{call:?} hands out {bytes:?}"),
    }
    Ok(())
}

fn handed(
    rt: &impl Abort,
    alloc: Global,
    pipe: &mut PlainPipe,
    side: Side,
    n: u32,
    want: &[u8],
) -> Result<(), Fail> {
    match pipe.call(alloc, side, PlainCall::Read(n))? {
        PlainTold::Answer(reply) => panic!(rt; "a read is told {reply:?}"),
        PlainTold::HandsOut(bytes) => assert_eq!(rt; bytes.as_slice(), want),
    }
    Ok(())
}

fn feed(rt: &impl Abort, alloc: Global, pipe: &mut PlainPipe, step: Step) -> Result<(), Fail> {
    match step {
        Step::Live(side, link) => pipe.fate(side, link, LinkPhase::Live)?,
        Step::Dead(side, link) => pipe.fate(side, link, LinkPhase::Dead)?,
        Step::Up(side, link) => pipe.up(side, link)?,
        Step::GroupEnd(side) => pipe.group_end(side)?,
        Step::Told(side, call, want) => told(rt, alloc, pipe, side, call, want)?,
        Step::Handed(side, n, want) => handed(rt, alloc, pipe, side, n, want)?,
        Step::Lands(side) => {
            assert!(rt; pipe.half(side).next_to_land().is_some());
            pipe.lands(side)?;
        }
        Step::Completes(side) => pipe.completes(side)?,
    }
    Ok(())
}

/// A pipe with two live links at both sides, whose ends are on the first one.
fn on_two_links(alloc: Global) -> Result<PlainPipe, Fail> {
    let mut pipe = PlainPipe::new(alloc, 16_384, 1, 1);
    for side in [A, B] {
        pipe.fate(side, FIRST, LinkPhase::Live)?;
        pipe.up(side, FIRST)?;
        pipe.fate(side, SECOND, LinkPhase::Live)?;
    }
    Ok(pipe)
}

/// A message with a snapshot of which neither `done` nor `closed` is set, and that tells of no read.
fn message(link: LinkId, number: u64, from: u64, told: u64, aborted: bool) -> Sent {
    Sent {
        link,
        check: false,
        from,
        snapshot: Snapshot {
            number,
            told,
            read: 0,
            done: false,
            closed: false,
            aborted,
        },
    }
}

/// A validation message.
fn validation(link: LinkId, number: u64, told: u64) -> Sent {
    Sent {
        check: true,
        ..message(link, number, told, told, false)
    }
}

#[test]
fn bytes_go_again_after_a_move(rt: HostRuntime) -> Result<(), Fail> {
    let mut pipe = on_two_links(rt.alloc())?;
    for (step, sent_by_a) in [
        (Step::Told(A, PlainCall::Write(&[0x41]), Reply::Wrote(1)), 1),
        (Step::Lands(A), 1),
        (Step::Dead(A, FIRST), 1),
        (
            Step::Told(A, PlainCall::Move, Reply::Moved { from: 1, to: 2 }),
            3,
        ),
        (Step::Dead(B, FIRST), 3),
        (Step::Lands(A), 3),
        (Step::Lands(A), 3),
        (Step::Completes(A), 3),
        (Step::Completes(A), 3),
        (Step::Handed(B, 9, &[0x41]), 3),
        (Step::Told(B, PlainCall::Read(9), Reply::Empty), 3),
    ] {
        feed(&rt, rt.alloc(), &mut pipe, step)?;
        assert_eq!(rt; pipe.half(A).sent().len(), sent_by_a, "after {step:?}");
    }
    let sent = [
        message(FIRST, 1, 0, 1, false),
        validation(SECOND, 0, 0),
        message(SECOND, 2, 0, 1, false),
    ];
    assert_eq!(rt; pipe.half(A).sent(), sent.as_slice());
    assert!(rt; pipe.half(B).sent().is_empty());
    Ok(())
}

#[test]
fn a_gap_resets_both_ends(rt: HostRuntime) -> Result<(), Fail> {
    let mut pipe = on_two_links(rt.alloc())?;
    let reset = Reply::Reset(ResetCause::Gap { told: 4, taken: 3 });
    let moved = Reply::Moved { from: 1, to: 2 };
    for (step, sent_by_a, sent_by_b) in [
        (Step::Told(A, PlainCall::Write(&[1]), Reply::Wrote(1)), 1, 0),
        (Step::Lands(A), 1, 0),
        (Step::Completes(A), 1, 0),
        (Step::Told(A, PlainCall::Write(&[2]), Reply::Wrote(1)), 2, 0),
        (Step::Lands(A), 2, 0),
        (Step::Completes(A), 2, 0),
        (Step::Told(A, PlainCall::Write(&[3]), Reply::Wrote(1)), 3, 0),
        (Step::Lands(A), 3, 0),
        (Step::Completes(A), 3, 0),
        (Step::Told(A, PlainCall::Write(&[4]), Reply::Wrote(1)), 4, 0),
        (Step::Completes(A), 4, 0),
        (Step::Dead(A, FIRST), 4, 0),
        (Step::Told(A, PlainCall::Move, moved), 5, 0),
        (Step::Dead(B, FIRST), 5, 0),
        (Step::Lands(A), 5, 0),
        (Step::Completes(A), 5, 0),
        (Step::Told(B, PlainCall::Read(9), reset), 5, 0),
        (Step::Told(B, PlainCall::Move, moved), 5, 2),
        (Step::Lands(B), 5, 2),
        (Step::Lands(B), 6, 2),
        (Step::Lands(A), 6, 2),
        (Step::Completes(A), 6, 2),
        (Step::Completes(B), 6, 2),
        (Step::Completes(B), 6, 2),
        (
            Step::Told(
                A,
                PlainCall::Write(&[5]),
                Reply::Reset(ResetCause::PeerAbort),
            ),
            6,
            2,
        ),
    ] {
        feed(&rt, rt.alloc(), &mut pipe, step)?;
        assert_eq!(rt; pipe.half(A).sent().len(), sent_by_a, "after {step:?}");
        assert_eq!(rt; pipe.half(B).sent().len(), sent_by_b, "after {step:?}");
    }
    let sent = [
        message(FIRST, 1, 0, 1, false),
        message(FIRST, 2, 1, 2, false),
        message(FIRST, 3, 2, 3, false),
        message(FIRST, 4, 3, 4, false),
        validation(SECOND, 4, 4),
        message(SECOND, 5, 4, 4, true),
    ];
    assert_eq!(rt; pipe.half(A).sent(), sent.as_slice());
    let sent = [validation(SECOND, 0, 0), message(SECOND, 1, 0, 0, true)];
    assert_eq!(rt; pipe.half(B).sent(), sent.as_slice());
    assert_eq!(rt; pipe.half(B).sent_since(1), &sent[1..]);
    Ok(())
}

#[test]
fn one_direction_is_finished(rt: HostRuntime) -> Result<(), Fail> {
    let mut pipe = on_two_links(rt.alloc())?;
    let reset = Reply::Reset(ResetCause::NoLiveLink { group: 1 });
    for step in [
        Step::Told(B, PlainCall::Await, Reply::Idle),
        Step::Told(A, PlainCall::Finish, Reply::Done),
        Step::Lands(A),
        Step::Completes(A),
        Step::Told(B, PlainCall::Await, Reply::Done),
        Step::Told(B, PlainCall::Read(1), Reply::End),
        Step::Told(B, PlainCall::Read(1), Reply::End),
        Step::Told(A, PlainCall::Write(&[1]), Reply::Ended),
        Step::Told(B, PlainCall::Write(&[7]), Reply::Wrote(1)),
        Step::Told(A, PlainCall::Close, Reply::Done),
        Step::Told(A, PlainCall::Close, Reply::Ended),
        Step::Told(A, PlainCall::Abort, Reply::Ended),
        Step::Dead(B, FIRST),
        Step::Dead(B, SECOND),
        Step::GroupEnd(B),
        Step::Told(B, PlainCall::Read(1), reset),
    ] {
        feed(&rt, rt.alloc(), &mut pipe, step)?;
    }
    Ok(())
}
