ghost use Rattle.smc_num.specs.Keys.{number_for};

use rkey_table::*;
use smc_num::LinkId;
use std::test::Fail;

fn link(slot: u8, incarnation: u32) -> LinkId {
    LinkId {
        group: 1,
        slot,
        incarnation,
    }
}

// Side B with two RMBs on two links: four numbers above 512.
#[test]
fn numbers_by_rmb_and_slot(rt: HostRuntime) -> Result<(), Fail> {
    let mut table = KeyTable::new(rt.alloc(), 512, 4)?;
    for (rmb, slot, incarnation, answer) in [
        (1, 1, 1, Ok(513)),
        (2, 1, 1, Ok(514)),
        (1, 2, 1, Ok(515)),
        (2, 2, 1, Ok(516)),
        (2, 1, 2, Ok(514)),
        (3, 1, 2, Err(KeysFull)),
    ] {
        assert_eq!(rt; table.register(rmb, link(slot, incarnation)), answer);
    }
    assert_eq!(rt; table.lookup(514, link(1, 2)), Some(2));
    assert_eq!(rt; table.lookup(514, link(1, 1)), None);
    assert_eq!(rt; table.number(2, 1), Some(514));
    assert_eq!(rt; table.number(3, 1), None);
    assert_eq!(rt; table.withdraw(513), Ok(()));
    assert_eq!(rt; table.withdraw(513), Err(NoKey));
    assert_eq!(rt; table.lookup(513, link(1, 1)), None);
    assert_eq!(rt; table.register(3, link(1, 2)), Ok(513));
    table.withdraw_rmb(2);
    assert_eq!(rt; table.number(2, 2), None);
    assert_eq!(rt; table.number(1, 2), Some(515));
    table.clear();
    assert_eq!(rt; table.number(1, 2), None);
    Ok(())
}

#[test]
fn the_number_that_an_rmb_would_get(rt: HostRuntime) -> Result<(), Fail> {
    let mut table = KeyTable::new(rt.alloc(), 512, 4)?;
    assert_eq!(rt; table.number_for(2, 1), 513);
    assert_eq!(rt; table.register(2, link(1, 1)), Ok(513));
    assert_eq!(rt; table.number_for(2, 1), 513);
    assert_eq!(rt; table.number_for(1, 1), 514);
    Ok(())
}
