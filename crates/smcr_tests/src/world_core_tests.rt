//! The calls of a world, each once: two bytes cross, and a setup is refused by its field.
use pipe_model::{End, Event, PostRef, Reply, Room, SentKind, Setup, Side};
use scene_text::built_setup;
use std::test::Fail;
use world_core::{Field, NewFault, World};

const A: End = End {
    side: Side::A,
    s: 0,
};

const B: End = End {
    side: Side::B,
    s: 0,
};

/// Two bytes go from A to B: the opening by its six entries, a write, its two posts, a read.
const CROSSING: [(Event, Reply); 10] = [
    (Event::Open(0), Reply::Opened),
    (
        Event::Clc { s: 0, dir: Side::A },
        Reply::Sent(SentKind::Accept),
    ),
    (
        Event::Clc { s: 0, dir: Side::B },
        Reply::Sent(SentKind::Confirm),
    ),
    (
        Event::Clc { s: 0, dir: Side::A },
        Reply::Sent(SentKind::ConfirmLink),
    ),
    (
        Event::Deliver {
            slot: 1,
            dir: Side::B,
        },
        Reply::Landed(PostRef { entry: 4, post: 1 }),
    ),
    (
        Event::Deliver {
            slot: 1,
            dir: Side::A,
        },
        Reply::Landed(PostRef { entry: 5, post: 1 }),
    ),
    (
        Event::Write {
            end: A,
            at: 0,
            len: 2,
        },
        Reply::Wrote(2),
    ),
    (
        Event::Deliver {
            slot: 1,
            dir: Side::A,
        },
        Reply::Landed(PostRef { entry: 7, post: 1 }),
    ),
    (
        Event::Deliver {
            slot: 1,
            dir: Side::A,
        },
        Reply::Landed(PostRef { entry: 7, post: 2 }),
    ),
    (
        Event::Read { end: B, len: 9 },
        Reply::Bytes { from: 0, len: 2 },
    ),
];

/// Two bytes cross, and pumps move the rest: each call once.
#[test]
fn two_bytes_cross(rt: HostRuntime) -> Result<(), Fail> {
    let payload = vec![in rt.alloc(); 104, 105]?;
    let Ok(mut world) = World::new(rt.alloc(), &built_setup(), payload, Room::default()) else {
        return Err(Fail::new("no world"));
    };
    assert_eq!(rt; world.next(), None);
    for (event, reply) in CROSSING {
        assert!(rt; world.fits(&event));
        assert_eq!(rt; world.step(0, event), Ok(reply));
    }
    assert!(rt; world.heard() == world.payload());
    let completes = Event::Complete {
        slot: 1,
        dir: Side::A,
    };
    assert!(rt; !world.fits(&Event::Cut(1)));
    assert_eq!(rt;
        world.pump(0),
        Ok(Some(Reply::Landed(PostRef { entry: 10, post: 1 })))
    );
    assert_eq!(rt; world.next(), Some(completes));
    assert_eq!(rt;
        world.pump(0),
        Ok(Some(Reply::Completed(PostRef { entry: 7, post: 1 })))
    );
    assert_eq!(rt; world.history().len(), 12);
    Ok(())
}

/// A setup of four links is refused, by that field.
#[test]
fn four_links_are_too_many(rt: HostRuntime) -> Result<(), Fail> {
    let setup = Setup {
        links: 4,
        ..built_setup()
    };
    let payload = vec![in rt.alloc(); 1]?;
    let fault = World::new(rt.alloc(), &setup, payload, Room::default()).err();
    assert_eq!(rt;
        fault,
        Some(NewFault::BadSetup {
            field: Field::Links,
            value: 4
        })
    );
    Ok(())
}
