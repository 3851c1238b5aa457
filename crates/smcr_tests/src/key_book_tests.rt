ghost use Rattle.std.specs.Prelude.{◌≡◌};

use key_book::*;
use smc_num::LinkId;
use std::test::Fail;

const RMB_1: u64 = 0x1_0000_0000;

const RMB_2: u64 = 0x2_0000_0000;

fn link(slot: u8, incarnation: u32) -> LinkId
    ensures { result.slot ≡ slot }
{
    LinkId {
        group: 1,
        slot,
        incarnation,
    }
}

// Side A learns the keys of side B's two RMBs on two links.
#[test]
fn keys_by_rmb_and_link(rt: HostRuntime) -> Result<(), Fail> {
    let mut book = KeyBook::new(rt.alloc(), 2, 2)?;
    book.learn(1, link(1, 1), 513, RMB_1);
    book.learn(1, link(2, 1), 514, RMB_1);
    book.learn(2, link(1, 1), 515, RMB_2);
    book.learn(2, link(2, 1), 516, RMB_2);
    assert_eq!(rt; book.key_for(1, link(2, 1)), Some((514, RMB_1)));
    assert_eq!(rt; book.rmb_of(515, link(1, 1)), Some(2));
    assert_eq!(rt; book.rmb_of(515, link(2, 1)), None);
    book.learn(1, link(1, 2), 513, RMB_1);
    assert_eq!(rt; book.key_for(1, link(1, 1)), None);
    assert_eq!(rt; book.key_for(1, link(1, 2)), Some((513, RMB_1)));
    book.forget(1);
    assert_eq!(rt; book.rmb_of(513, link(1, 2)), None);
    assert_eq!(rt; book.key_for(2, link(2, 1)), Some((516, RMB_2)));
    book.learn(1, link(1, 2), 513, RMB_1);
    book.forget_key(516, link(2, 1));
    assert_eq!(rt; book.key_for(2, link(1, 1)), None);
    assert_eq!(rt; book.key_for(1, link(1, 2)), Some((513, RMB_1)));
    book.clear();
    assert_eq!(rt; book.key_for(2, link(2, 1)), None);
    Ok(())
}
