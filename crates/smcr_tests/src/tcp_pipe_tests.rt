ghost use Rattle.std.specs.Prelude.{take};

use tcp_pipe::*;

#[test]
fn bytes_come_out_as_they_went_in(rt: HostRuntime) {
    let Ok(mut stream) = Stream::new(rt.alloc()) else {
        assert!(rt; false, "no memory");
        return;
    };
    assert_eq!(rt; stream.put(&[1, 2, 3]), 3);
    let mut out = [0; 2];
    assert_eq!(rt; stream.peek(&mut out), 2);
    assert_eq!(rt; out, [1, 2]);
    assert_eq!(rt; stream.held(), 3);
    let mut out = [0; 2];
    assert_eq!(rt; stream.take(&mut out), 2);
    assert_eq!(rt; out, [1, 2]);
    assert!(rt; !stream.ended() && !stream.was_reset());
    stream.end();
    stream.reset();
    assert!(rt; stream.ended() && stream.was_reset());
    assert_eq!(rt; stream.take(&mut out), 1);
    assert_eq!(rt; out, [3, 2]);
}

#[test]
fn what_does_not_fit_is_not_put(rt: HostRuntime) {
    let Ok(mut stream) = Stream::new(rt.alloc()) else {
        assert!(rt; false, "no memory");
        return;
    };
    let bytes = [7; 1_000];
    for _ in 0..65 {
        assert_eq!(rt; stream.put(&bytes), 1_000);
    }
    assert_eq!(rt; stream.put(&bytes), 536);
    assert_eq!(rt; stream.put(&bytes), 0);
    assert_eq!(rt; stream.held(), 65_536);
}
