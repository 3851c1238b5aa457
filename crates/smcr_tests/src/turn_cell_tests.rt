// What no clause says: that calls succeed, that a try meets the turn of a thread that is at work, and that threads end.
ghost use Rattle.std.specs.Prelude.{◌≡◌};
ghost use Rattle.std.specs.Thread.{IsSync};

mod gate;
mod journal;

use crate::turn_cell_tests::gate::{Gate, Signals, comes};
use crate::turn_cell_tests::journal::{Journal, Said};
use std::sync::atomic::Ordering;
use std::sync::{Arc, Wait};
use std::test::*;
use std::thread;
use std::thread::Threads;
use turn_cell::*;

// How many calls each of two threads makes.
const CALLS: u32 = 10_000;

// Two passes of one thread call by turns. It answers how many calls were made.
fn take_turns(turn: &Turn<Journal>, one: &mut Pass<Journal>, two: &mut Pass<Journal>) -> u32
    requires { (one.old.turn ≡ turn.now.id) × (two.old.turn ≡ turn.now.id) }
    ensures { (one.new.turn ≡ turn.now.id) × (two.new.turn ≡ turn.now.id) }
{
    let mut made = 0;
    for what in 0..50 {
        made += u32::from(turn.try_call(one, Said { by: 1, what }).is_ok());
        made += u32::from(turn.try_call(two, Said { by: 2, what }).is_ok());
    }
    made
}

#[test]
fn two_seats_on_one_thread(rt: HostRuntime) -> Result<(), Fail> {
    let made = Turn::new(rt.alloc(), Journal::new(rt.alloc(), 100), 2).ok();
    let (turn, mut one) = made.expect(&rt, "memory");
    let mut two = turn.split(&mut one).ok().expect(&rt, "a seat to give");
    let spent = turn.split(&mut one).err();
    assert_eq!(rt; spent, Some(SeatsSpent { seats: 2 }));
    let made = take_turns(&turn, &mut one, &mut two);
    assert_eq!(rt; made, 100);
    assert_eq!(rt; one.seen(), 99);
    assert_eq!(rt; two.seen(), 100);
    let still = turn.close(one).err().expect(&rt, "a seat is out");
    assert_eq!(rt; still.out, 1);
    let StillOut { turn, mut pass, .. } = still;
    turn.join(&mut pass, two);
    assert_eq!(rt; pass.seen(), 100);
    let journal = turn.close(pass).ok().expect(&rt, "all seats");
    assert_eq!(rt; journal.heard(1), Some(50));
    assert_eq!(rt; journal.heard(2), Some(50));
    Ok(())
}

// The calls of one thread, each by a try first.
fn say_all<R: Wait>(rt: &R, turn: &Turn<Journal>, pass: Pass<Journal>, by: u32) -> Pass<Journal>
    requires { pass.turn ≡ turn.now.id }
    ensures { result.turn ≡ turn.now.id }
{
    let mut pass = pass;
    for what in 0..CALLS {
        if let Err(busy) = turn.try_call(&mut pass, Said { by, what }) {
            turn.call(rt, &mut pass, busy.call);
        }
    }
    pass
}

// Two threads, one for each pass.
fn say_beside<R: Threads + Wait + Sync>(
    rt: &R,
    turn: &Turn<Journal>,
    one: Pass<Journal>,
    two: Pass<Journal>,
) -> (Pass<Journal>, Pass<Journal>)
    requires { (one.turn ≡ turn.now.id) × (two.turn ≡ turn.now.id) }
    ensures { (result.0.turn ≡ turn.now.id) × (result.1.turn ≡ turn.now.id) }
{
    thread::join(
        rt,
        || -> Pass<Journal>
            requires { (one.turn ≡ turn.now.id) × IsSync R.row }
            ensures { result.turn ≡ turn.entry.now.id }
        { say_all(rt, turn, one, 1) },
        || -> Pass<Journal>
            requires { (two.turn ≡ turn.now.id) × IsSync R.row }
            ensures { result.turn ≡ turn.entry.now.id }
        { say_all(rt, turn, two, 2) },
    )
}

#[test]
fn two_threads_are_heard_once(rt: HostRuntime) -> Result<(), Fail> {
    let made = Turn::new(rt.alloc(), Journal::new(rt.alloc(), 2 * CALLS), 2).ok();
    let (turn, mut one) = made.expect(&rt, "memory");
    let two = turn.split(&mut one).ok().expect(&rt, "a seat to give");
    let (mut one, two) = say_beside(&rt, &turn, one, two);
    turn.join(&mut one, two);
    assert_eq!(rt; one.seen(), 2 * CALLS);
    let journal = turn.close(one).ok().expect(&rt, "all seats");
    assert_eq!(rt; journal.heard(1), Some(CALLS));
    assert_eq!(rt; journal.heard(2), Some(CALLS));
    Ok(())
}

// Stays inside the machine until it is let go. It answers whether it was.
fn stay(turn: &Turn<Gate>, pass: Pass<Gate>) -> bool
    requires { pass.turn ≡ turn.now.id }
{
    let mut pass = pass;
    matches!(turn.try_call(&mut pass, true), Ok(true))
}

// Tries once the other is inside, and lets it go. It answers the turn that it met.
fn meet(turn: &Turn<Gate>, pass: Pass<Gate>, signals: &Signals) -> Option<u64>
    requires { pass.turn ≡ turn.now.id }
{
    let mut pass = pass;
    if !comes(&signals.inside) {
        return None;
    }
    let met = turn.try_call(&mut pass, false).err().map(|busy| busy.turn);
    signals.leave.store(1, Ordering::SeqCst);
    met
}

// Both beside each other.
fn meet_beside<R: Threads + Sync>(
    rt: &R,
    turn: &Turn<Gate>,
    one: Pass<Gate>,
    two: Pass<Gate>,
    signals: &Signals,
) -> (bool, Option<u64>)
    requires { (one.turn ≡ turn.now.id) × (two.turn ≡ turn.now.id) }
{
    thread::join(
        rt,
        || -> bool
            requires { one.turn ≡ turn.now.id }
        { stay(turn, one) },
        || -> Option<u64>
            requires { two.turn ≡ turn.now.id }
        { meet(turn, two, signals) },
    )
}

#[test]
fn a_try_meets_the_turn_that_is_out(rt: HostRuntime) -> Result<(), Fail> {
    let signals = Arc::new(rt.alloc(), Signals::new())?;
    let made = Turn::new(rt.alloc(), Gate::new(Arc::try_clone(&signals)?), 2).ok();
    let (turn, mut one) = made.expect(&rt, "memory");
    let two = turn.split(&mut one).ok().expect(&rt, "a seat to give");
    let first = turn.try_call(&mut one, false).is_ok();
    assert!(rt; first);
    let (stayed, met) = meet_beside(&rt, &turn, one, two, &signals);
    assert!(rt; stayed);
    assert_eq!(rt; met, Some(2));
    Ok(())
}
