ghost use Rattle.std.specs.Prelude.{IsSome, None, Some, [], ℕ, ◌-◌, ◌<◌, ◌^◌, ◌≡◌, ◌≤◌};
ghost use Rattle.std.specs.Prelude.{◌≡◌, ◌<◌, ◌≤◌, ◌-◌, ◌^◌, ℕ, [], IsSome};
ghost use Rattle.alert_board.specs.Alerts.{log_at};
ghost use Rattle.wait_set.specs.Waiting.{waiting_at};

use alert_board::{Alert, Board, Look, Pen};
use std::test::Fail;
use std::thread;
use std::thread::Threads;
use wait_set::*;

const READABLE: Alert = Alert {
    readable: true,
    done: false,
    closed: false,
    reset: false,
};

// A member that waits for bytes.
fn reader(place: u32, edge: bool) -> Member
    ensures { (result.place ≡ place) × (result.edge ≡ edge) }
{
    Member {
        place,
        mask: READABLE,
        edge,
    }
}

// Publishes so often at each of two places.
fn publish_often(board: &Board, pen: Pen, count: u32) -> Pen
    requires board { (pen.board ≡ board.now) × (2 ≤ board.now.words) }
    requires empty { (log_at pen.logs 0 ≡ []) × (log_at pen.logs 1 ≡ []) }
    requires room { count < 2 ^ 32 - 1 }
{
    let mut pen = pen;
    for _ in 0..count {
        pen.publish(board, 0, READABLE);
        pen.publish(board, 1, READABLE);
    }
    pen
}

// Picks until each of two places has this number, or so often, and answers whether no number fell.
fn pick_often(board: &Board, look: Look, set: WaitSet, number: u32, rounds: u32) -> (Look, bool)
    requires board { look.board ≡ board.now }
    requires places { (p : ℕ) → IsSome (waiting_at set.members p) → p < board.now.words }
    ensures { result.0.board ≡ board.now }
{
    let mut look = look;
    let mut set = set;
    let mut rose = true;
    let mut first = 0;
    let mut second = 0;
    for _ in 0..rounds {
        if let Some((place, news)) = set.pick(&mut look, board) {
            if place == 0 {
                rose = rose && first <= news.number;
                first = news.number;
            } else {
                rose = rose && second <= news.number;
                second = news.number;
            }
        }
        if first == number && second == number {
            break;
        }
    }
    (look, rose)
}

// Both on threads of their own.
fn publish_beside<R: Threads + Sync>(
    rt: &R,
    board: &Board,
    pen: Pen,
    look: Look,
    set: WaitSet,
) -> (Look, bool)
    requires board { (pen.board ≡ board.now) × (look.board ≡ board.now) × (2 ≤ board.now.words) }
    requires empty { (log_at pen.logs 0 ≡ []) × (log_at pen.logs 1 ≡ []) }
    requires places { (p : ℕ) → IsSome (waiting_at set.members p) → p < board.now.words }
    ensures { result.0.board ≡ board.now }
{
    let (_, picked) = thread::join(
        rt,
        || -> Pen
            requires { (pen.board ≡ board.now) × (2 ≤ board.now.words) × (log_at pen.logs 0 ≡ []) × (log_at pen.logs 1 ≡ []) }
        { publish_often(board, pen, 1000) },
        || -> (Look, bool)
            requires { (look.board ≡ board.now) × ((p : ℕ) → IsSome (waiting_at set.members p) → p < board.now.words) }
            ensures { result.0.board ≡ board.entry.now }
        { pick_often(board, look, set, 1000, 1000000) },
    );
    picked
}

#[test]
fn lowest_ready_member(rt: HostRuntime) -> Result<(), Fail> {
    for edge in [true, false] {
        let (board, mut pen, mut look) = Board::new(rt.alloc(), 1)?;
        let mut set = WaitSet::new(rt.alloc(), 1)?;
        assert!(rt; set.add(reader(0, edge)).is_ok());
        assert_eq!(rt; set.add(reader(0, edge)), Err(SetFault::Twice { place: 0 }));
        assert_eq!(rt;
            set.add(reader(1, edge)),
            Err(SetFault::Full { members: 1 })
        );
        assert!(rt; set.pick(&mut look, &board).is_none());
        pen.publish(&board, 0, READABLE);
        let first = set.pick(&mut look, &board).map(|(place, _)| place);
        assert_eq!(rt; first, Some(0));
        let again = set.pick(&mut look, &board).map(|(place, _)| place);
        assert_eq!(rt; again, if edge { None } else { Some(0) });
        assert!(rt; !set.remove(1));
        assert!(rt; set.remove(0));
        assert!(rt; set.pick(&mut look, &board).is_none());
    }
    Ok(())
}

#[test]
fn numbers_never_fall_beside_a_pen(rt: HostRuntime) -> Result<(), Fail> {
    let (board, pen, look) = Board::new(rt.alloc(), 2)?;
    let mut set = WaitSet::new(rt.alloc(), 2)?;
    assert!(rt; set.add(reader(0, true)).is_ok());
    assert!(rt; set.add(reader(1, true)).is_ok());
    let (mut look, rose) = publish_beside(&rt, &board, pen, look, set);
    assert!(rt; rose);
    assert_eq!(rt; look.poll(&board, 0).number, 1000);
    assert_eq!(rt; look.poll(&board, 1).number, 1000);
    Ok(())
}
