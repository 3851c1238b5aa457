ghost use Rattle.std.specs.Prelude.{◌<◌, ◌≤◌};

use smc_num::*;

const SIZE: u32 = 16_384;

// A cursor moved on, and how far it then is ahead.
fn there_and_back(cursor: Cursor, n: u32) -> (Cursor, u32)
    requires inside { cursor.count < 16_384 }
    requires within { n ≤ 16_384 }
{
    let moved = cursor.forward(n, SIZE);
    (moved, moved.ahead_of(cursor, SIZE))
}

#[test]
fn cursors_go_round_the_element(rt: HostRuntime) {
    for (wrap, count, n, next_wrap, next_count) in [
        (0, 0, 0, 0, 0),
        (2, 7_232, 100, 2, 7_332),
        (0, 16_383, 1, 1, 0),
        (0, 0, 16_384, 1, 0),
        (7, 9, 16_384, 8, 9),
        (65_535, 16_383, 2, 0, 1),
        (65_535, 1, 16_383, 0, 0),
    ] {
        assert!(rt; count < SIZE);
        assert!(rt; n <= SIZE);
        let (moved, ahead) = there_and_back(Cursor { wrap, count }, n);
        assert_eq!(rt; moved.wrap, next_wrap, "{n} on from {count}");
        assert_eq!(rt; moved.count, next_count, "{n} on from {count}");
        assert_eq!(rt; ahead, n, "{n} on from {count}");
    }
}

#[test]
fn numbers_go_round_the_circle(rt: HostRuntime) {
    for (first, second, behind) in [
        (65_535, 0, true),
        (0, 65_535, false),
        (7, 7, false),
        (0, 32_767, true),
        (0, 32_768, false),
        (40_000, 2_000, true),
    ] {
        assert_eq!(rt;
            Seq16(first).behind(Seq16(second)),
            behind,
            "{first} and {second}"
        );
    }
    assert_eq!(rt; Seq16(7).next().0, 8);
    assert_eq!(rt; Seq16(65_535).next().0, 0);
    assert_eq!(rt; size_of_code(0), 16_384);
    assert_eq!(rt; size_of_code(5), 524_288);
}
