use cdc_ring::*;
use smc_num::Cursor;

fn piece(place: u32, len: u32) -> Piece {
    Piece { place, len }
}

#[test]
fn bytes_go_round_the_element(rt: HostRuntime) {
    let Ok(mut ring) = SendRing::new(rt.alloc(), 10) else {
        assert!(rt; false, "no memory");
        return;
    };
    assert_eq!(rt; ring.accept(&[1, 2, 3, 4, 5, 6, 7, 8]), 8);
    assert_eq!(rt; ring.pieces(), (piece(0, 8), piece(0, 0)));
    ring.posted();
    assert_eq!(rt; ring.accept(&[9, 10, 11]), 2);
    ring.complete(Cursor { wrap: 0, count: 8 });
    assert_eq!(rt; ring.accept(&[11]), 0);
    ring.acked(Cursor { wrap: 0, count: 8 });
    assert_eq!(rt; ring.accept(&[11, 12, 13]), 3);
    assert_eq!(rt; ring.pieces(), (piece(8, 2), piece(0, 3)));
    let (front, back) = ring.bytes_at(Piece { place: 0, len: 3 });
    assert_eq!(rt;
        (front.len() + back.len(), front.first().copied()),
        (3, Some(11))
    );
    ring.posted();
    assert_eq!(rt; ring.pieces(), (piece(3, 0), piece(0, 0)));
    ring.rewind();
    assert_eq!(rt; ring.pieces(), (piece(8, 2), piece(0, 3)));
    ring.clear();
    assert_eq!(rt; ring.pieces(), (piece(0, 0), piece(0, 0)));
    assert_eq!(rt; ring.accept(&[0; 11]), 10);
}
