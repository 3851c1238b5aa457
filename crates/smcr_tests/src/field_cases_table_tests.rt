ghost use Rattle.std.specs.Prelude.{false};

use field_cases::*;

fn row(state: u8, message: u8, action: u8) -> Row {
    Row {
        state,
        message,
        action,
    }
}

fn fault_of(rows: [Row; 3]) -> Option<RowFault> {
    let cases = Cases {
        rows,
        states: 2,
        messages: 2,
    };
    match cases.check() {
        Ok(_) => None,
        Err(fault) => Some(fault),
    }
}

#[test]
fn checks_tables(rt: HostRuntime) {
    let twice = RowFault::Twice {
        first: 0,
        second: 2,
    };
    assert_eq!(rt;
        fault_of([row(0, 0, 1), row(0, 1, 2), row(0, 0, 3)]),
        Some(twice)
    );
    let missing = RowFault::Missing {
        state: 1,
        message: 0,
    };
    assert_eq!(rt;
        fault_of([row(0, 0, 1), row(0, 1, 2), row(1, 1, 3)]),
        Some(missing)
    );

    let doors = Cases {
        rows: [row(1, 0, 5), row(0, 0, 7)],
        states: 2,
        messages: 1,
    };
    match doors.check() {
        Ok(table) if table.cases.states == 2 && table.cases.messages == 1 => {
            assert_eq!(rt; table.pick(0, 0), 7);
            assert_eq!(rt; table.pick(1, 0), 5);
        }
        _ => assert!(rt; false, "the table of doors is sound"),
    }
}
