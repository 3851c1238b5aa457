ghost use Rattle.std.specs.Prelude.{false, true};
ghost use Rattle.smc_num.specs.Links.{is_live, lowest_live};
ghost use Rattle.smc_num.specs.declared.LinkPhase.TheVariants.{Pending, Live};

use failover::*;
use smc_num::{LinkId, LinkPhase};
use std::test::Fail;

const FIRST: LinkId = LinkId {
    group: 1,
    slot: 1,
    incarnation: 1,
};

const SECOND: LinkId = LinkId {
    group: 1,
    slot: 2,
    incarnation: 1,
};

// Two links are made and confirmed, and the first one fails.
#[test]
fn a_link_fails(rt: HostRuntime) -> Result<(), Fail> {
    let mut table = LinkTable::new(2);
    table.make(FIRST);
    table.confirm(1);
    assert_eq!(rt; lowest_live(table.phases()), Some(1));
    table.make(SECOND);
    let phases = [LinkPhase::Live, LinkPhase::Pending];
    assert!(rt; *table.phases() == *phases.as_slice());
    table.confirm(2);
    assert_eq!(rt; fewest(table.phases(), &[1, 1]), Some(1));
    assert_eq!(rt; fewest(table.phases(), &[2, 1]), Some(2));
    table.report(1);
    assert_eq!(rt; lowest_live(table.phases()), Some(2));
    assert!(rt; table.due_for_move(FIRST, true));
    assert!(rt; !table.due_for_move(FIRST, false));
    assert!(rt; !table.due_for_move(SECOND, true));
    assert_eq!(rt; table.lowest(), 2);
    assert!(rt; table.is_live(SECOND));
    assert!(rt; !table.is_live(FIRST));
    assert_eq!(rt; table.link(1), Some(FIRST));
    assert_eq!(rt; table.made(1), 1);
    table.report(2);
    table.clear();
    assert_eq!(rt; table.link(1), None);
    assert_eq!(rt; table.made(2), 1);
    Ok(())
}
