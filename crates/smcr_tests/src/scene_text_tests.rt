use pipe_model::{End, Event, Room, Setup, Side};
use scene_text::*;
use std::alloc::{AllocError, Global};
use std::test::Fail;

/// Line and kind of the first line that is refused.
fn refused(read: Result<Scene, SceneFault>) -> Option<(u32, LineKind)> {
    match read {
        Err(SceneFault::BadLine { line, kind }) => Some((line, kind)),
        _ => None,
    }
}

/// The line that passes a limit, and the limit.
fn passed(read: Result<Scene, SceneFault>) -> Option<(u32, u32)> {
    match read {
        Err(SceneFault::TooMany { line, limit }) => Some((line, limit)),
        _ => None,
    }
}

/// So many times one line.
fn lines(alloc: Global, line: &str, count: u32) -> Result<String, AllocError> {
    let mut text = String::new(alloc);
    for _ in 0..count {
        text.push_str(line)?;
    }
    Ok(text)
}

/// Lines with so many names.
fn openings(alloc: Global, count: u32) -> Result<String, AllocError> {
    let mut text = String::new(alloc);
    for s in 0..count {
        let line = format!(in alloc; "open s{s}\n")?;
        text.push_str(&line)?;
    }
    Ok(text)
}

#[test]
fn refusals(rt: HostRuntime) -> Result<(), Fail> {
    let bad = [
        ("write A.s 6", 1, LineKind::Bytes),
        ("pump 1\n\topen s", 2, LineKind::Char),
        ("read B.s 9\r", 1, LineKind::Char),
        ("pump 1\r\r\n", 1, LineKind::Char),
        ("shout \u{7f}", 1, LineKind::Char),
        ("# \u{ff}\n\r\n   \n # x", 4, LineKind::Word),
        ("shout s s s", 1, LineKind::Word),
        ("set foo 1 2 3", 1, LineKind::Word),
        ("set links 1", 1, LineKind::Word),
        ("set", 1, LineKind::Count),
        ("set size", 1, LineKind::Count),
        ("set size A 1", 1, LineKind::Count),
        ("set capable no", 1, LineKind::Count),
        ("complete 1", 1, LineKind::Count),
        ("pump 1\nset size", 2, LineKind::Count),
        ("pump 1\nset size x", 2, LineKind::Order),
        ("set size 1\nset size x", 2, LineKind::Again),
        ("set capable A yes\nset capable A maybe", 2, LineKind::Again),
        ("set rmbs A 1\nset rmbs X 1", 2, LineKind::Side),
        ("open", 1, LineKind::Count),
        ("pump 1 2", 1, LineKind::Count),
        ("read X.s", 1, LineKind::Count),
        ("open S", 1, LineKind::Name),
        ("open 1a", 1, LineKind::Name),
        ("open abcdefghijklmnopq", 1, LineKind::Name),
        ("read A. 1", 1, LineKind::Name),
        ("read A.S x", 1, LineKind::Name),
        ("read X.s x", 1, LineKind::Side),
        ("write As 6", 1, LineKind::Side),
        ("set capable X yes", 1, LineKind::Side),
        ("deliver 1 X", 1, LineKind::Side),
        ("complete 1 AB", 1, LineKind::Side),
        ("clc s C", 1, LineKind::Side),
        ("clc S C", 1, LineKind::Name),
        ("deliver x X", 1, LineKind::Number),
        ("set size -", 1, LineKind::Number),
        ("set capable B Yes", 1, LineKind::Answer),
        ("set subnet A 10.0.0.0", 1, LineKind::Subnet),
        ("set subnet A 10.0.0/24", 1, LineKind::Subnet),
        ("set subnet A 10.0.0.0.0/24", 1, LineKind::Subnet),
        ("set subnet A 10.0.0.0/24/1", 1, LineKind::Subnet),
        ("set subnet A 10.0.0.0/33", 1, LineKind::Subnet),
        ("set subnet A 10.0.256.0/24", 1, LineKind::Subnet),
        ("set subnet A 10.0.0.1/24", 1, LineKind::Subnet),
        ("pump x", 1, LineKind::Number),
        ("pump 0000000001", 1, LineKind::Number),
        ("read A.s -1", 1, LineKind::Number),
        ("write A.s 68,", 1, LineKind::Bytes),
        ("write A.s 00*0", 1, LineKind::Bytes),
        ("write A.s -,68", 1, LineKind::Bytes),
        ("pump 0", 1, LineKind::Range),
        ("pump 10001", 1, LineKind::Range),
        ("set size 6", 1, LineKind::Range),
        ("set rmbs A 2", 1, LineKind::Range),
        ("set elements B 33", 1, LineKind::Range),
        ("set elements B 0", 1, LineKind::Range),
        ("set depth 2", 1, LineKind::Range),
        ("set number 0", 1, LineKind::Range),
        ("set number 65536", 1, LineKind::Range),
        ("set entries 262145", 1, LineKind::Range),
        ("set bytes 67108865", 1, LineKind::Range),
        ("deliver 2 X", 1, LineKind::Range),
        ("complete 0 A", 1, LineKind::Range),
        ("read A.s 1048577", 1, LineKind::Range),
    ];
    for (text, line, kind) in bad {
        assert!(rt; text.len() < 100);
        let read = read_scene(rt.alloc(), text.as_bytes());
        assert_eq!(rt; refused(read), Some((line, kind)), "{text:?}");
    }
    let names = openings(rt.alloc(), 257)?;
    let many = lines(rt.alloc(), "pump 1\n", 65_537)?;
    let limits = [
        (names.as_str(), 257, 256),
        (many.as_str(), 65_537, 65_536),
        ("write A.s 00*16777216\nwrite B.s ff", 2, 16_777_216),
        ("write A.s 00*999999999,00*999999999", 1, 16_777_216),
    ];
    for (text, line, limit) in limits {
        assert!(rt; text.len() < 1_000_000);
        let read = read_scene(rt.alloc(), text.as_bytes());
        assert_eq!(rt; passed(read), Some((line, limit)));
    }
    Ok(())
}

#[test]
fn scenes(rt: HostRuntime) -> Result<(), Fail> {
    let a = End {
        side: Side::A,
        s: 0,
    };
    let b = End {
        side: Side::B,
        s: 0,
    };
    let text = "open s\npump 9\nwrite A.s 68,69\r\npump 2\nread B.s 9\n";
    assert!(rt; text.len() < 100);
    let scene = read_scene(rt.alloc(), text.as_bytes())?;
    let whats = [
        SceneWhat::One(Event::Open(0)),
        SceneWhat::Pump(9),
        SceneWhat::One(Event::Write {
            end: a,
            at: 0,
            len: 2,
        }),
        SceneWhat::Pump(2),
        SceneWhat::One(Event::Read { end: b, len: 9 }),
    ];
    assert_eq!(rt;
        scene.lines.as_slice(),
        whats.map(|what| SceneLine { what }).as_slice()
    );
    assert_eq!(rt; scene.payload.as_slice(), b"hi".as_slice());
    assert_eq!(rt; scene.names.len(), 1);
    assert_eq!(rt; scene.names.get_index_of("s"), Some(0));
    assert_eq!(rt;
        scene.setup,
        Setup {
            sockets: 1,
            ..built_setup()
        }
    );

    let text = "  write  B.a_1 61*3,AA \n#\nwrite A.a_1 -\nwrite A.a_1 00*00002";
    assert!(rt; text.len() < 100);
    let scene = read_scene(rt.alloc(), text.as_bytes())?;
    let writes = [(b, 0, 4), (a, 4, 0), (a, 4, 2)];
    let lines = writes.map(|(end, at, len)| SceneLine {
        what: SceneWhat::One(Event::Write { end, at, len }),
    });
    assert_eq!(rt; scene.lines.as_slice(), lines.as_slice());
    assert_eq!(rt;
        scene.payload.as_slice(),
        [0x61, 0x61, 0x61, 0xaa, 0, 0].as_slice()
    );
    Ok(())
}

#[test]
fn settings(rt: HostRuntime) -> Result<(), Fail> {
    let text =
        "set size 5\nset capable B no\nset subnet A 10.1.0.0/16\nset rmbs A 1\nset elements B 32\n# set\n\nset depth 1\nset number 65535\nset entries 262144\nset bytes 67108864\nclc s B\ndeliver 1 A\ncomplete 001 B";
    assert!(rt; text.len() < 1_000);
    let scene = read_scene(rt.alloc(), text.as_bytes())?;
    let setup = Setup {
        capable: [true, false],
        subnet: [(0x0a01_0000, 16), (0x0a00_0000, 24)],
        size_code: 5,
        elements: [4, 32],
        number: 65_535,
        ..built_setup()
    };
    assert_eq!(rt; scene.setup, setup);
    let room = Room {
        entries: 262_144,
        bytes: 67_108_864,
    };
    assert_eq!(rt; scene.room, room);
    let events = [
        Event::Clc { s: 0, dir: Side::B },
        Event::Deliver {
            slot: 1,
            dir: Side::A,
        },
        Event::Complete {
            slot: 1,
            dir: Side::B,
        },
    ];
    let lines = events.map(|event| SceneLine {
        what: SceneWhat::One(event),
    });
    assert_eq!(rt; scene.lines.as_slice(), lines.as_slice());

    let text = "set subnet A 0.0.0.0/0\nset subnet B 255.255.255.255/32\n";
    assert!(rt; text.len() < 100);
    let scene = read_scene(rt.alloc(), text.as_bytes())?;
    assert_eq!(rt; scene.setup.subnet, [(0, 0), (0xffff_ffff, 32)]);
    Ok(())
}

/// The text of a scene that is printed.
fn printed(alloc: Global, text: &[u8]) -> Result<Vec<u8>, AllocError> {
    let mut out = Vec::new(alloc);
    if text.len() < 100_000 {
        if let Ok(scene) = read_scene(alloc, text) {
            if print_scene(alloc, &scene, &mut out).is_err() {
                return Err(AllocError);
            }
        }
    }
    Ok(out)
}

/// The settings of a scene that sets nothing, and of one that sets all.
const DEFAULTS: &str =
    "set capable A yes\nset capable B yes\nset subnet A 10.0.0.0/24\nset subnet B 10.0.0.0/24\nset size 0\nset rmbs A 1\nset rmbs B 1\nset elements A 4\nset elements B 4\nset depth 1\nset number 1\nset entries 65536\nset bytes 1048576\n";

const OTHERS: &str =
    "set capable A yes\nset capable B no\nset subnet A 0.0.0.0/0\nset subnet B 255.255.255.255/32\nset size 5\nset rmbs A 1\nset rmbs B 1\nset elements A 7\nset elements B 32\nset depth 1\nset number 65535\nset entries 262144\nset bytes 67108864\n";

#[test]
fn printed_scenes(rt: HostRuntime) -> Result<(), Fail> {
    let rows = [
        ("", DEFAULTS, ""),
        (
            "# x\nopen  s\nwrite A.s AA,aa",
            DEFAULTS,
            "open s\nwrite A.s aa*2\n",
        ),
        (
            "set bytes 067108864\nset entries 262144\nset number 65535\nset depth 1\nset elements B 32\nset elements A 7\nset rmbs A 1\nset size 5\nset subnet B 255.255.255.255/32\nset subnet A 000.0.0.0/00\nset capable B no\n",
            OTHERS,
            "",
        ),
        (
            " open b_1 \r\npump 00010\nwrite B.a -\nwrite A.b_1 00*00002,00,0F\nread B.a 0\nclc a B\ndeliver 01 A\ncomplete 1 B\nopen a",
            DEFAULTS,
            "open b_1\npump 10\nwrite B.a -\nwrite A.b_1 00*3,0f\nread B.a 0\nclc a B\ndeliver 1 A\ncomplete 1 B\nopen a\n",
        ),
        (
            "open s\npump 9\nwrite A.s 68,69,69*16000000\nread B.s 1048576\n",
            DEFAULTS,
            "open s\npump 9\nwrite A.s 68,69*16000001\nread B.s 1048576\n",
        ),
    ];
    for (text, settings, lines) in rows {
        let out = printed(rt.alloc(), text.as_bytes())?;
        let mut wanted = String::from_str(rt.alloc(), settings)?;
        wanted.push_str(lines)?;
        assert_eq!(rt; out.as_slice(), wanted.as_bytes());
        let again = printed(rt.alloc(), wanted.as_bytes())?;
        assert_eq!(rt; again.as_slice(), wanted.as_bytes());
    }
    Ok(())
}

/// The scenes of the folder `scenes` that are not refused, without their comments.
#[test]
fn scenes_of_the_folder(rt: HostRuntime) -> Result<(), Fail> {
    let scenes = [
        "set bytes 1\nopen s\npump 9\nwrite A.s 68,69\npump 2\nread B.s 9\n",
        "open s\npump 9\nwrite A.s 61*16380\npump 4\nread B.s 16380\npump 2\nwrite A.s 62*20\n",
        "",
        "set entries 2\nopen s\npump 9\n",
        "open s\npump 9\nwrite A.s 68,69\npump 2\nread B.s 9\n",
        "open a\nopen b\nclc a A\nclc b A\n",
        "set rmbs A 1\nset elements A 1\nopen s\npump 9\nopen t\nclc t A\nclc t B\nclc t A\nwrite B.t 07\nread A.t 1\nopen u\nclc u A\n",
        "set subnet B 10.0.1.0/24\nopen s\nclc s A\nclc s B\nwrite A.s 01,02\nread B.s 9\n",
        "set rmbs B 1\nset elements B 2\nopen a\npump 9\nopen b\npump 9\nopen c\nclc c A\nclc c B\nwrite A.c 01,02\nread B.c 9\n",
        "set capable B no\nopen s\nwrite A.s 05\nread B.s 9\nopen s\nread A.x 1\n",
        "open s\npump 9\nopen t\nclc t A\nclc t B\nwrite A.t 41\ndeliver 1 A\ndeliver 1 A\nread B.t 5\nclc t A\nread B.t 5\n",
        "open s\npump 9\nwrite A.s 61*16385\nwrite A.s 62\npump 4\nread B.s 100\npump 1\nwrite A.s 62*200\n",
    ];
    for text in scenes {
        let out = printed(rt.alloc(), text.as_bytes())?;
        assert!(rt; out.len() > 200);
        let again = printed(rt.alloc(), &out)?;
        assert_eq!(rt; again.as_slice(), out.as_slice());
    }
    Ok(())
}
