ghost use Rattle.std.specs.Prelude.{All, Some, false, ◌-◌, ◌<◌, ◌^◌};
ghost use Rattle.element_ledger.specs.Lendings.{own_gone, peer_gone};

use element_ledger::*;
use std::test::Fail;

// Lends an element to a connection, both of whose ends then go, and tells what was refused before.
fn lend_and_give_back(
    ledger: &mut Ledger,
    conn: u32,
) -> Option<(Element, Result<(), StillLent>, Result<(), StillLent>)>
    requires { All (λ r. r.epoch < 2 ^ 32 - 1) ledger.old.rows }
{
    let element = ledger.lend(conn)?;
    ledger.peer_gone(element);
    let early = ledger.give_back(element);
    if early.is_ok() {
        return None;
    }
    ledger.own_gone(element);
    let late = ledger.give_back(element);
    Some((element, early, late))
}

#[test]
fn an_element_is_given_back_by_both_ends(rt: HostRuntime) -> Result<(), Fail> {
    let mut ledger = Ledger::new(rt.alloc(), 1, 2)?;
    assert_eq!(rt; ledger.next_free(), Some((1, 1)));
    assert_eq!(rt; ledger.free(), 2);
    let peer_alone = Err(StillLent {
        own: false,
        peer: true,
    });
    let element = Element {
        rmb: 1,
        index: 1,
        epoch: 1,
    };
    let lent = lend_and_give_back(&mut ledger, 7);
    assert_eq!(rt; lent, Some((element, peer_alone, Ok(()))));
    assert!(rt; ledger.idle(1));
    ledger.end_all();
    assert_eq!(rt; ledger.next_free(), Some((1, 1)));
    Ok(())
}
