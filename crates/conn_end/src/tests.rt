ghost use Rattle.std.specs.Prelude.{◌≡◌, true};
ghost use Rattle.pipe_model.specs.Ends.{Half};
ghost use Rattle.conn_end.specs.Kept.{Represents};
ghost use Rattle.conn_end.specs.Arrivals.{IsTakable};

use super::*;
use cdc_wire::{Cursor, FAILOVER_VALIDATION};
use std::process::Abort;
use std::test::Fail;

const SIZE: u32 = 10;

const TOKEN: u32 = 7;

const BYTES: [u8; 12] = [1, 2, 3, 4, 5, 6, 7, 8, 9, 10, 11, 12];

// What happens to an end. A write is of so many bytes; a message of the peer that lands is a snapshot,
// or one of validation with a number.
#[derive(Clone, Copy, Debug)]
enum Does {
    Write(usize),
    Read(u32),
    Finish,
    Close,
    Abort,
    Reset(ResetCause),
    Land(Snapshot),
    Check(u64),
    Complete,
    Move,
    Post,
}

#[derive(Clone, Copy, Debug, PartialEq, Eq)]
enum Gives {
    Nothing,
    Told(EndReply),
    Found(Taken),
    Posted(Option<Batch>),
}

// A snapshot of the peer.
const fn peer(number: u64, told: u64, read: u64) -> Snapshot {
    Snapshot {
        number,
        told,
        read,
        done: false,
        closed: false,
        aborted: false,
    }
}

// Whether the end may take a snapshot.
fn may_take(end: &ConnEnd, s: &Snapshot) -> bool
    ensures { (h : Half) → Represents end.now h → result ≡ true → IsTakable end.now.size s.now h }
{
    let taken = end.course.taken();
    let size = end.size as u64;
    let reads = taken.read <= s.read && s.read <= end.accepted;
    let fits = s.told.saturating_sub(end.course.bytes_read()) <= size;
    let tells = s.aborted || taken.told <= s.told;
    reads && (fits && tells)
}

fn land(rt: &impl Abort, end: &mut ConnEnd, s: Snapshot) -> Taken {
    assert!(rt; may_take(end, &s));
    let message = spell(end.size, end.token, s);
    end.take_cdc(&message, &s)
}

fn check(end: &mut ConnEnd, number: u64) -> Taken {
    let s = peer(number, 0, 0);
    let message = spell_check(end.size, end.token, s);
    end.take_cdc(&message, &s)
}

fn complete(end: &mut ConnEnd) {
    if let Some(s) = end.course.oldest() {
        let message = spell(end.size, end.token, s);
        end.completed(&message, &s);
    }
}

fn write(rt: &impl Abort, end: &mut ConnEnd, count: usize) -> EndReply {
    assert!(rt; count <= 12);
    assert!(rt; end.accepted < 1_000);
    end.write(&BYTES[..count])
}

fn post(rt: &impl Abort, end: &mut ConnEnd, live: bool) -> Option<Batch> {
    assert!(rt; end.course.number() < 1_000);
    end.next_batch(live)
}

// How many bytes it keeps of the `len` bytes behind the completed ones, and the first of them.
fn kept(rt: &impl Abort, end: &ConnEnd, len: u32) -> (usize, Option<u8>) {
    let told = end.course.fin().told;
    assert!(rt; len as u64 <= end.accepted.saturating_sub(told));
    let place = (told % end.size as u64) as u32;
    let (front, back) = end.outgoing(Piece { place, len });
    (front.len() + back.len(), front.first().copied())
}

fn run(rt: &impl Abort, end: &mut ConnEnd, does: Does) -> Gives {
    match does {
        Does::Write(count) => Gives::Told(write(rt, end, count)),
        Does::Read(len) => {
            let would = end.would_read(len);
            assert_eq!(rt; end.read(len), would);
            Gives::Told(would)
        }
        Does::Finish => Gives::Told(end.finish()),
        Does::Close => Gives::Told(end.close()),
        Does::Abort => Gives::Told(end.abort()),
        Does::Reset(cause) => {
            end.reset(cause);
            Gives::Nothing
        }
        Does::Land(s) => Gives::Found(land(rt, end, s)),
        Does::Check(number) => Gives::Found(check(end, number)),
        Does::Complete => {
            complete(end);
            Gives::Nothing
        }
        Does::Move => {
            end.move_to();
            Gives::Nothing
        }
        Does::Post => Gives::Posted(post(rt, end, true)),
    }
}

// A message of the end, whose cursors are places in its first round.
fn message(number: u16, told: u32, read: u32, producer: u8, state: u8) -> CdcMessage {
    CdcMessage {
        number,
        token: TOKEN,
        told: Cursor {
            wrap: 0,
            count: told,
        },
        read: Cursor {
            wrap: 0,
            count: read,
        },
        producer,
        state,
    }
}

// A batch without a validation message: `len` bytes from a place on.
fn batch(place: u32, len: u32, message: CdcMessage) -> Gives {
    Gives::Posted(Some(Batch {
        check: None,
        pieces: (Piece { place, len }, NO_PIECE),
        message: Some(message),
    }))
}

// The same behind a validation message that names a snapshot.
fn moved(number: u16, told: u32, len: u32, message_: CdcMessage) -> Gives {
    Gives::Posted(Some(Batch {
        check: Some(message(number, told, 0, FAILOVER_VALIDATION, 0)),
        pieces: (Piece { place: told, len }, NO_PIECE),
        message: Some(message_),
    }))
}

const NONE: Gives = Gives::Posted(None);

const DONE: Gives = Gives::Told(EndReply::Done);

const ENDED: Gives = Gives::Told(EndReply::Ended);

#[test]
fn a_full_flight_waits_and_an_abort_tells_no_more_bytes(rt: HostRuntime) -> Result<(), Fail> {
    let mut end = ConnEnd::new(rt.alloc(), SIZE, 2, 1)?;
    end.start(TOKEN);
    for (does, gives) in [
        (Does::Write(3), Gives::Told(EndReply::Wrote(3))),
        (Does::Post, batch(0, 3, message(1, 3, 0, 0, 0))),
        (Does::Write(2), Gives::Told(EndReply::Wrote(2))),
        (Does::Post, batch(3, 2, message(2, 5, 0, 0, 0))),
        (Does::Write(9), Gives::Told(EndReply::Wrote(5))),
        (Does::Write(1), Gives::Told(EndReply::Full)),
        (Does::Post, NONE),
        (Does::Abort, DONE),
        (Does::Post, NONE),
        (
            Does::Write(1),
            Gives::Told(EndReply::Reset(ResetCause::OwnAbort)),
        ),
        (Does::Complete, Gives::Nothing),
        (Does::Post, batch(5, 0, message(3, 5, 0, 0, 0x20))),
        (Does::Complete, Gives::Nothing),
        (Does::Complete, Gives::Nothing),
        (Does::Post, NONE),
    ] {
        assert_eq!(rt; run(&rt, &mut end, does), gives, "{does:?}");
    }
    assert!(rt; end.idle() && end.told_end() && !end.peer_end());
    assert!(rt; !end.may_move());
    assert_eq!(rt; end.last().number, 3);
    assert_eq!(rt; kept(&rt, &end, 4), (4, Some(1)));
    Ok(())
}

#[test]
fn bytes_are_handed_out_until_a_gap_is_found(rt: HostRuntime) -> Result<(), Fail> {
    let gap = ResetCause::Gap { told: 3, taken: 2 };
    let mut end = ConnEnd::new(rt.alloc(), SIZE, 1, 1)?;
    end.aim(TOKEN);
    for (does, gives) in [
        (Does::Read(1), Gives::Told(EndReply::Empty)),
        (Does::Land(peer(1, 4, 0)), Gives::Found(Taken::Fresh)),
        (
            Does::Read(3),
            Gives::Told(EndReply::Take { from: 0, len: 3 }),
        ),
        (Does::Post, batch(0, 0, message(1, 0, 3, 0, 0))),
        (Does::Land(peer(2, 5, 0)), Gives::Found(Taken::Fresh)),
        (Does::Check(2), Gives::Found(Taken::Valid)),
        (
            Does::Read(9),
            Gives::Told(EndReply::Take { from: 3, len: 2 }),
        ),
        (
            Does::Check(3),
            Gives::Found(Taken::Gap { told: 3, taken: 2 }),
        ),
        (Does::Read(1), Gives::Told(EndReply::Reset(gap))),
        (Does::Finish, Gives::Told(EndReply::Reset(gap))),
        (Does::Complete, Gives::Nothing),
        (Does::Post, batch(0, 0, message(2, 0, 5, 0, 0x20))),
    ] {
        assert_eq!(rt; run(&rt, &mut end, does), gives, "{does:?}");
    }
    assert!(rt; !end.idle() && !end.peer_done() && !end.peer_closed());
    assert!(rt; end.may_move());
    Ok(())
}

#[test]
fn an_end_moves_while_it_closes(rt: HostRuntime) -> Result<(), Fail> {
    let mut last = peer(1, 0, 3);
    last.done = true;
    last.closed = true;
    let mut end = ConnEnd::new(rt.alloc(), SIZE, 1, 1)?;
    end.start(TOKEN);
    for (does, gives) in [
        (Does::Write(3), Gives::Told(EndReply::Wrote(3))),
        (Does::Post, batch(0, 3, message(1, 3, 0, 0, 0))),
        (Does::Finish, DONE),
        (Does::Finish, ENDED),
        (Does::Close, DONE),
        (Does::Post, NONE),
        (Does::Move, Gives::Nothing),
        (Does::Post, moved(0, 0, 3, message(2, 3, 0, 0, 0x80))),
        (Does::Complete, Gives::Nothing),
        (Does::Post, batch(3, 0, message(3, 3, 0, 0, 0xc0))),
        (Does::Move, Gives::Nothing),
        (Does::Post, moved(2, 3, 0, message(4, 3, 0, 0, 0xc0))),
        (Does::Land(last), Gives::Found(Taken::Fresh)),
        (Does::Complete, Gives::Nothing),
        (Does::Post, NONE),
        (Does::Read(1), ENDED),
    ] {
        assert_eq!(rt; run(&rt, &mut end, does), gives, "{does:?}");
    }
    assert!(rt; end.over() && end.peer_done() && end.peer_closed());
    Ok(())
}

#[test]
fn an_end_moves_after_a_reset(rt: HostRuntime) -> Result<(), Fail> {
    let gone = ResetCause::NoLiveLink { group: 1 };
    let mut end = ConnEnd::new(rt.alloc(), SIZE, 1, 1)?;
    end.start(TOKEN);
    for (does, gives) in [
        (Does::Write(3), Gives::Told(EndReply::Wrote(3))),
        (Does::Post, batch(0, 3, message(1, 3, 0, 0, 0))),
        (Does::Abort, DONE),
        (Does::Move, Gives::Nothing),
        (Does::Post, moved(0, 0, 0, message(2, 0, 0, 0, 0x20))),
        (Does::Move, Gives::Nothing),
        (Does::Post, moved(0, 0, 0, message(3, 0, 0, 0, 0x20))),
        (Does::Complete, Gives::Nothing),
        (Does::Reset(gone), Gives::Nothing),
        (
            Does::Close,
            Gives::Told(EndReply::Reset(ResetCause::OwnAbort)),
        ),
    ] {
        assert_eq!(rt; run(&rt, &mut end, does), gives, "{does:?}");
    }
    end.start(TOKEN);
    end.reset(gone);
    assert_eq!(rt; end.abort(), EndReply::Reset(gone));
    assert_eq!(rt; post(&rt, &mut end, false), None);
    Ok(())
}
