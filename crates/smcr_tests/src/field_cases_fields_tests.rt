use arrayvec::ArrayVec;
use field_cases::*;

#[test]
fn fields_are_big_endian(rt: HostRuntime) {
    let mut out: ArrayVec<u8, 22> = ArrayVec::new();
    field_cases::put!(&mut out; u8 1, u16 0x0203, u24 0x040506, u32 0x0708090a, u64 0x0b0c0d0e0f101112);
    field_cases::put!(&mut out; bytes &[0x13, 0x14, 0x15, 0x16]);
    let message = match out.into_inner() {
        Ok(bytes) => bytes,
        Err(_) => unreachable!(),
    };
    for (place, byte) in message.iter().enumerate() {
        assert_eq!(rt; *byte as usize, place + 1, "at {place}");
    }
    assert_eq!(rt; field_cases::get!(message; u8 at 0), 1);
    assert_eq!(rt; field_cases::get!(message; u16 at 1), 0x0203);
    assert_eq!(rt; field_cases::get!(message; u24 at 3), 0x040506);
    assert_eq!(rt; field_cases::get!(message; u32 at 6), 0x0708090a);
    assert_eq!(rt; field_cases::get!(message; u64 at 10), 0x0b0c0d0e0f101112);
    assert_eq!(rt;
        field_cases::get!(message; 4 bytes at 18),
        [0x13, 0x14, 0x15, 0x16]
    );
}
