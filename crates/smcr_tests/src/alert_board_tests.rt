ghost use Rattle.std.specs.Prelude.{[], false, true, ◌-◌, ◌<◌, ◌^◌, ◌≡◌, ◌≤◌};
ghost use Rattle.alert_board.specs.declared.flags.Alert.{Alert};
ghost use Rattle.alert_board.specs.declared.flags.News.{News};
ghost use Rattle.alert_board.specs.Known.{fresh};
ghost use Rattle.std.specs.Prelude.{◌≡◌, ◌<◌, ◌≤◌, ◌-◌, ◌^◌, []};
ghost use Rattle.alert_board.specs.Alerts.{log_at};

use alert_board::*;
use std::test::Fail;
use std::thread;
use std::thread::Threads;

const NONE: Alert = Alert {
    readable: false,
    done: false,
    closed: false,
    reset: false,
};

const READABLE: Alert = Alert {
    readable: true,
    done: false,
    closed: false,
    reset: false,
};

// Publishes so often at each of two places.
fn publish_often(board: &Board, pen: Pen, count: u32) -> Pen
    requires board { (pen.board ≡ board.now) × (2 ≤ board.now.words) }
    requires empty { (log_at pen.logs 0 ≡ []) × (log_at pen.logs 1 ≡ []) }
    requires room { count < 2 ^ 32 - 1 }
    ensures { result.board ≡ board.now }
{
    let mut pen = pen;
    for _ in 0..count {
        pen.publish(board, 0, READABLE);
        pen.publish(board, 1, READABLE);
    }
    pen
}

// Polls two places until each has this number, or so often, and answers whether no number fell.
fn poll_often(board: &Board, look: Look, number: u32, rounds: u32) -> (Look, bool)
    requires { (look.board ≡ board.now) × (2 ≤ board.now.words) }
    ensures { result.0.board ≡ board.now }
{
    let mut look = look;
    let mut rose = true;
    let mut last = (0, 0);
    for _ in 0..rounds {
        let now = (look.poll(board, 0).number, look.poll(board, 1).number);
        rose = rose && last.0 <= now.0 && last.1 <= now.1;
        last = now;
        if last.0 == number && last.1 == number {
            break;
        }
    }
    (look, rose)
}

// Both on threads of their own.
fn publish_beside<R: Threads + Sync>(rt: &R, board: &Board, pen: Pen, look: Look) -> (Look, bool)
    requires board { (pen.board ≡ board.now) × (look.board ≡ board.now) × (2 ≤ board.now.words) }
    requires empty { (log_at pen.logs 0 ≡ []) × (log_at pen.logs 1 ≡ []) }
    ensures { result.0.board ≡ board.now }
{
    let (_, looked) = thread::join(
        rt,
        || -> Pen
            requires { (pen.board ≡ board.now) × (2 ≤ board.now.words) × (log_at pen.logs 0 ≡ []) × (log_at pen.logs 1 ≡ []) }
        { publish_often(board, pen, 1000) },
        || -> (Look, bool)
            requires { (look.board ≡ board.now) × (2 ≤ board.now.words) }
            ensures { result.0.board ≡ board.entry.now }
        { poll_often(board, look, 1000, 1000000) },
    );
    looked
}

#[test]
fn publications_are_found(rt: HostRuntime) -> Result<(), Fail> {
    let (board, mut pen, mut look) = Board::new(rt.alloc(), 2)?;
    let nothing = News {
        number: 0,
        flags: NONE,
    };
    assert_eq!(rt; look.poll(&board, 0), nothing);
    assert_eq!(rt; look.poll(&board, 1), nothing);
    let mut copy = look.split(&board);
    let flags = Alert {
        readable: false,
        done: true,
        closed: true,
        reset: true,
    };
    pen.publish(&board, 1, READABLE);
    pen.publish(&board, 1, flags);
    let last = News { number: 2, flags };
    assert_eq!(rt; look.poll(&board, 0), nothing);
    assert_eq!(rt; look.poll(&board, 1), last);
    copy.join(&board, look);
    assert_eq!(rt; copy.poll(&board, 1), last);
    pen.meet(&board, copy);
    let mut fresh = pen.look(&board);
    assert_eq!(rt; fresh.poll(&board, 1), last);
    Ok(())
}

#[test]
fn numbers_never_fall_beside_a_pen(rt: HostRuntime) -> Result<(), Fail> {
    let (board, pen, look) = Board::new(rt.alloc(), 2)?;
    let (mut look, rose) = publish_beside(&rt, &board, pen, look);
    assert!(rt; rose);
    assert_eq!(rt; look.poll(&board, 0).number, 1000);
    assert_eq!(rt; look.poll(&board, 1).number, 1000);
    Ok(())
}
