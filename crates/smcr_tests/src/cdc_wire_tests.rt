ghost use Rattle.std.specs.Prelude.{Ok};

use cdc_wire::*;

fn with_reserved_zeros(front: &[u8; 26]) -> [u8; 44] {
    let mut bytes = [0; 44];
    bytes[..26].copy_from_slice(front);
    bytes
}

#[test]
fn messages_by_their_bytes(rt: HostRuntime) {
    let rows = [
        (
            [
                0xfe, 0x2c, 0xff, 0xe6, 0x00, 0xec, 0x00, 0x01, 0x00, 0x00, 0x00, 0xff, 0x00, 0x00,
                0x00, 0x01, 0x00, 0x00, 0x00, 0x00, 0x00, 0x00, 0x05, 0x0d, 0x00, 0x80,
            ],
            CdcMessage {
                number: 65_510,
                token: 15_466_497,
                told: Cursor {
                    wrap: 255,
                    count: 1,
                },
                read: Cursor {
                    wrap: 0,
                    count: 1_293,
                },
                producer: 0,
                state: SENDING_DONE,
            },
        ),
        (
            [
                0xfe, 0x2c, 0xff, 0x40, 0x01, 0x00, 0x00, 0x06, 0x00, 0x00, 0x00, 0x00, 0x00, 0x00,
                0x00, 0x00, 0x00, 0x00, 0x00, 0x00, 0x00, 0x00, 0x00, 0x00, 0x08, 0x00,
            ],
            CdcMessage {
                number: 65_344,
                token: 16_777_222,
                told: Cursor { wrap: 0, count: 0 },
                read: Cursor { wrap: 0, count: 0 },
                producer: FAILOVER_VALIDATION,
                state: 0,
            },
        ),
    ];
    for (front, message) in rows {
        let bytes = with_reserved_zeros(&front);
        assert_eq!(rt; read_cdc(&bytes), Ok(message));
        assert!(rt; write_cdc(&message) == bytes);
    }

    // Bytes that are passed over, and bytes that are no message.
    let mut bytes = with_reserved_zeros(&[
        0xfe, 0x2c, 0xce, 0x16, 0x00, 0x00, 0x00, 0x03, 0x02, 0x00, 0x00, 0x01, 0x00, 0x00, 0x00,
        0x00, 0x10, 0x00, 0x00, 0x00, 0x00, 0x00, 0x00, 0x04, 0x00, 0x80,
    ]);
    bytes[40] = 0x80;
    let message = CdcMessage {
        number: 52_758,
        token: 3,
        told: Cursor { wrap: 1, count: 0 },
        read: Cursor { wrap: 0, count: 4 },
        producer: 0,
        state: SENDING_DONE,
    };
    assert_eq!(rt; read_cdc(&bytes), Ok(message));
    bytes[1] = 0x01;
    assert_eq!(rt; read_cdc(&bytes), Err(CdcFault::BadLength { value: 1 }));
    bytes[0] = 0x7e;
    assert_eq!(rt; read_cdc(&bytes), Err(CdcFault::BadType { value: 126 }));
}
