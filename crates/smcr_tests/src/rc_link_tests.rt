ghost use Rattle.std.specs.Prelude.{false};
ghost use Rattle.rc_link.specs.Wire.{next_cdc};

use pipe_model::{CdcMessage, Cursor, LinkId, LlcMessage, Post, PostRef, Side, Snapshot};
use rc_link::*;
use std::test::Fail;

const LINK: LinkId = LinkId {
    group: 1,
    slot: 1,
    incarnation: 1,
};

const NOTHING: Snapshot = Snapshot {
    number: 0,
    told: 0,
    read: 0,
    done: false,
    closed: false,
    aborted: false,
};

const TOLD: Snapshot = Snapshot {
    number: 1,
    told: 2,
    read: 0,
    done: false,
    closed: false,
    aborted: false,
};

const START: Cursor = Cursor { wrap: 0, count: 0 };

fn carried(entry: u32, post: u8, what: Post, plain: Snapshot) -> InFlight {
    InFlight {
        at: PostRef { entry, post },
        post: what,
        plain,
    }
}

// A write of two bytes, and the message that tells them.
fn write() -> InFlight {
    let post = Post::Write {
        from: Side::A,
        link: LINK,
        key: 513,
        address: 4_294_967_296,
        len: 2,
    };
    carried(7, 1, post, NOTHING)
}

fn message() -> CdcMessage {
    CdcMessage {
        number: 1,
        token: 1,
        told: Cursor { wrap: 0, count: 2 },
        read: START,
        producer: 0,
        state: 0,
    }
}

fn told() -> InFlight {
    let post = Post::Cdc {
        from: Side::A,
        link: LINK,
        message: message(),
    };
    carried(7, 2, post, TOLD)
}

fn test_link() -> InFlight {
    let message = LlcMessage::TestLink {
        reply: false,
        bytes: [0; 16],
    };
    let post = Post::Llc {
        from: Side::A,
        link: LINK,
        message,
    };
    carried(8, 1, post, NOTHING)
}

#[test]
fn posts_land_and_complete_in_order(rt: HostRuntime) -> Result<(), Fail> {
    let mut wire = Wire::new(rt.alloc(), 4)?;
    wire.post(write());
    wire.post(told());
    wire.post(test_link());
    assert_eq!(rt; wire.room(), 1);
    assert_eq!(rt; wire.next_cdc(), Some(message()));
    assert_eq!(rt; wire.land(), Some(write()));
    assert_eq!(rt; wire.land(), Some(told()));
    assert_eq!(rt; wire.next_cdc(), None);
    assert_eq!(rt; wire.complete(), Some(write()));
    assert_eq!(rt; wire.land(), Some(test_link()));
    assert!(rt; !wire.can_land() && wire.can_complete());
    assert_eq!(rt; wire.complete(), Some(told()));
    assert_eq!(rt; wire.complete(), None);
    assert_eq!(rt; wire.room(), 4);
    Ok(())
}

#[test]
fn cut_and_reported_links_stop(rt: HostRuntime) -> Result<(), Fail> {
    let mut wire = Wire::new(rt.alloc(), 4)?;
    wire.post(write());
    wire.post(told());
    assert_eq!(rt; wire.swallow(), None);
    assert_eq!(rt; wire.land(), Some(write()));
    wire.cut();
    assert!(rt; wire.dead());
    assert_eq!(rt; wire.land(), None);
    assert_eq!(rt; wire.swallow(), None);
    assert_eq!(rt; wire.complete(), Some(write()));
    assert_eq!(rt; wire.swallow(), Some(told()));
    assert_eq!(rt; wire.room(), 4);
    wire.post(told());
    assert!(rt; wire.report(Side::A));
    assert!(rt; !wire.report(Side::A));
    assert_eq!(rt; wire.swallow(), None);
    assert!(rt; wire.report(Side::B));
    wire.renew(false);
    assert!(rt; !wire.dead() && !wire.can_land());
    assert_eq!(rt; wire.room(), 4);
    Ok(())
}
