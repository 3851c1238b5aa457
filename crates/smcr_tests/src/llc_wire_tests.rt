ghost use Rattle.std.specs.Prelude.{Ok, ◌<◌};
ghost use Rattle.llc_wire.specs.Llc.{Fits};

use llc_wire::*;
use std::process::Abort;

fn digit(letter: u8) -> u8
    ensures { result < 16 }
{
    match letter {
        b'0'..=b'9' => letter - b'0',
        b'a'..=b'f' => letter - b'a' + 10,
        _ => 0,
    }
}

fn bytes_of(text: &[u8; 88]) -> [u8; 44] {
    let mut bytes = [0; 44];
    for i in 0..44 {
        bytes[i] = 16 * digit(text[2 * i]) + digit(text[2 * i + 1]);
    }
    bytes
}

fn is_spelling(rt: &impl Abort, text: &[u8; 88], message: LlcMessage)
    requires { Fits message }
{
    assert!(rt; write_llc(&message) == bytes_of(text), "{message:?}");
    assert_eq!(rt; read_llc(&bytes_of(text)), Ok(message));
}

#[test]
fn messages_by_their_bytes(rt: HostRuntime) {
    is_spelling(
        &rt,
        b"012c0080020000000a01fe800000000000000000000000000a01000011010000000103000000000000000000",
        LlcMessage::ConfirmLink {
            reply: true,
            mac: [2, 0, 0, 0, 10, 1],
            gid: [0xfe, 0x80, 0, 0, 0, 0, 0, 0, 0, 0, 0, 0, 0, 0, 10, 1],
            qp: 17,
            link: 1,
            user: 1,
            most: 3,
        },
    );
    is_spelling(
        &rt,
        b"022c0000020000000b020000fe800000000000000000000000000b0200002202050000010000000000000000",
        LlcMessage::AddLink {
            reply: false,
            rejected: false,
            reason: 0,
            mac: [2, 0, 0, 0, 11, 2],
            gid: [0xfe, 0x80, 0, 0, 0, 0, 0, 0, 0, 0, 0, 0, 0, 0, 11, 2],
            qp: 34,
            link: 2,
            mtu: 5,
            psn: 1,
        },
    );
    is_spelling(
        &rt,
        b"022c01c000000000000000000000000000000000ff0000000000000000000001000000000000000000000000",
        LlcMessage::AddLink {
            reply: true,
            rejected: true,
            reason: NO_ALTERNATE_PATH,
            mac: [0; 6],
            gid: [0, 0, 0, 0, 0, 0, 0, 0, 0xff, 0, 0, 0, 0, 0, 0, 0],
            qp: 0,
            link: 1,
            mtu: 0,
            psn: 0,
        },
    );
    is_spelling(
        &rt,
        b"032c000002020000000002010000020200000001000000000000020400000205000000020000000000000000",
        LlcMessage::AddKeys {
            reply: false,
            link: 2,
            count: 2,
            keys: [
                NewKey {
                    reference: 513,
                    fresh: 514,
                    address: 4_294_967_296,
                },
                NewKey {
                    reference: 516,
                    fresh: 517,
                    address: 8_589_934_592,
                },
            ],
        },
    );
    is_spelling(
        &rt,
        b"042c004001000102000000000000000000000000000000000000000000000000000000000000000000000000",
        LlcMessage::DeleteLink {
            reply: false,
            all: true,
            orderly: false,
            link: 1,
            reason: 66_048,
        },
    );
    is_spelling(
        &rt,
        b"062c000002000002040000000200000000020000020500000002000000000300000206000000020000000000",
        LlcMessage::ConfirmRkey {
            reply: false,
            retry: false,
            negative: false,
            others: 2,
            tokens: [
                KeyToken {
                    number: 2,
                    key: 516,
                    address: 8_589_934_592,
                },
                KeyToken {
                    number: 2,
                    key: 517,
                    address: 8_589_934_592,
                },
                KeyToken {
                    number: 3,
                    key: 518,
                    address: 8_589_934_592,
                },
            ],
        },
    );
    is_spelling(
        &rt,
        b"072c0000000001a3000000000001000000000000000000000000000000000000000000000000000000000000",
        LlcMessage::TestLink {
            reply: false,
            bytes: [0, 0, 1, 0xa3, 0, 0, 0, 0, 0, 1, 0, 0, 0, 0, 0, 0],
        },
    );
    is_spelling(
        &rt,
        b"092c000001800000000002020000000000000000000000000000000000000000000000000000000000000000",
        LlcMessage::DeleteRkey {
            reply: false,
            negative: false,
            count: 1,
            mask: 0x80,
            keys: [514, 0, 0, 0, 0, 0, 0, 0],
        },
    );
}

#[test]
fn reserved_bits_and_faults(rt: HostRuntime) {
    let rows = [
        (
            b"042c00ff03000100000000000000000000000000000000000000000000000000ff0000000003000000000000",
            Ok(LlcMessage::DeleteLink {
                reply: true,
                all: true,
                orderly: true,
                link: 3,
                reason: LOST_PATH,
            }),
        ),
        (
            b"072c080000000118000000000000000000000000000000000000000000000000000000008000000000000000",
            Ok(LlcMessage::TestLink {
                reply: false,
                bytes: [0, 0, 1, 0x18, 0, 0, 0, 0, 0, 0, 0, 0, 0, 0, 0, 0],
            }),
        ),
        (
            b"352c0080020003000a03fe800000000000000000000000000a03000063030000000103000000000000000000",
            Err(LlcFault::BadType { value: 53 }),
        ),
        (
            b"0801000000000000000000000000000000000000000000000000000000000000000000000000000000000000",
            Err(LlcFault::BadType { value: 8 }),
        ),
        (
            b"01400000020200000b01fe800000000000000000000000000b01000011010000000103000000000000000000",
            Err(LlcFault::BadLength { value: 64 }),
        ),
        (
            b"062c000010000002040000000200000000020000020500000002000000000300000206000000020000000000",
            Err(LlcFault::BadCount { value: 16 }),
        ),
    ];
    for (text, want) in rows {
        assert_eq!(rt; read_llc(&bytes_of(text)), want);
    }
}
