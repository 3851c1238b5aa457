//! The top call over memory: worked scenes, refusals, and faults of the outside.
ghost use Rattle.std.specs.Prelude.{None};

use byte_port::{Failed, MemorySink, MemorySource, Sink, Source};
use smcr_calls::{Status, smcr};
use std::test::Fail;

/// Words and an input, with what they are answered and the text that goes with it.
struct Case {
    words: &'static [&'static str],
    input: &'static [u8],
    status: Status,
    text: &'static [u8],
}

const USAGE: &[u8] = b"usage: smcr run|show|trace\n";

const CASES: [Case; 29] = [
    Case {
        words: &["run"],
        input: b"",
        status: Status::Ok,
        text: b"ok 0\n",
    },
    Case {
        words: &["go"],
        input: b"",
        status: Status::Usage,
        text: USAGE,
    },
    Case {
        words: &[],
        input: b"",
        status: Status::Usage,
        text: USAGE,
    },
    Case {
        words: &["run", "1"],
        input: b"",
        status: Status::Usage,
        text: USAGE,
    },
    Case {
        words: &["run", "trace"],
        input: b"",
        status: Status::Usage,
        text: USAGE,
    },
    Case {
        words: &["show", "x"],
        input: b"",
        status: Status::Usage,
        text: USAGE,
    },
    Case {
        words: &["--help"],
        input: b"",
        status: Status::Usage,
        text: USAGE,
    },
    Case {
        words: &["run", "--", "--"],
        input: b"",
        status: Status::Usage,
        text: USAGE,
    },
    Case {
        words: &["run", "--"],
        input: b"",
        status: Status::Ok,
        text: b"ok 0\n",
    },
    Case {
        words: &["run"],
        input: b"open s\npump 9\nwrite A.s 68,69\npump 2\nread B.s 9\n",
        status: Status::Ok,
        text: b"1 main open s: opened\n  clc A s proposal\n2 main clc s A: sent accept\n  clc B s accept first 1.1.1 key 513 rmb 1 index 1 token 1\n3 main clc s B: sent confirm\n  clc A s confirm first 1.1.1 key 257 rmb 1 index 1 token 1\n4 main clc s A: sent confirm link\n  llc B 1.1.1 confirm link 1\n5 main deliver 1 B: landed 4.1\n  llc A 1.1.1 confirm link reply 1\n6 main deliver 1 A: landed 5.1\n7 main write A.s 68,69: wrote 2\n  write A 1.1.1 key 513 at 4294967296 len 2\n  cdc A 1.1.1 token 1 number 1 told 0/2 read 0/0 -\n8 main deliver 1 A: landed 7.1\n9 main deliver 1 A: landed 7.2\n10 main read B.s 9: data 68,69\n  cdc B 1.1.1 token 1 number 1 told 0/0 read 0/2 -\nsocket s A wrote 2 read 0 B wrote 0 read 2\nok 10\n",
    },
    Case {
        words: &["run"],
        input: b"write A.s 00*16777216\nwrite B.s ff\n",
        status: Status::Refused,
        text: b"line 2: too many\n",
    },
    Case {
        words: &["run"],
        input: b"write A.s 6\n",
        status: Status::Refused,
        text: b"line 1: bytes\n",
    },
    Case {
        words: &["run"],
        input: b"open s\n\topen s\n",
        status: Status::Refused,
        text: b"line 2: char\n",
    },
    Case {
        words: &["run"],
        input: b"# a comment\ngrow\n",
        status: Status::Refused,
        text: b"line 2: word\n",
    },
    Case {
        words: &["run"],
        input: b"open\n",
        status: Status::Refused,
        text: b"line 1: count\n",
    },
    Case {
        words: &["run"],
        input: b"open S\n",
        status: Status::Refused,
        text: b"line 1: name\n",
    },
    Case {
        words: &["run"],
        input: b"read X.s 1\n",
        status: Status::Refused,
        text: b"line 1: side\n",
    },
    Case {
        words: &["run"],
        input: b"pump x\n",
        status: Status::Refused,
        text: b"line 1: number\n",
    },
    Case {
        words: &["run"],
        input: b"pump 10001\n",
        status: Status::Refused,
        text: b"line 1: range\n",
    },
    Case {
        words: &["run"],
        input: b"read A.s 1\n",
        status: Status::Ok,
        text: b"1 main read A.s 1: no socket\nok 1\n",
    },
    Case {
        words: &["run"],
        input: b"open s\nread A.s 0\nread A.s 1\nopen s",
        status: Status::Ok,
        text: b"1 main open s: opened\n  clc A s proposal\n2 main read A.s 0: not yet\n3 main read A.s 1: not yet\n4 main open s: name used\nsocket s A wrote 0 read 0 B wrote 0 read 0\nok 4\n",
    },
    Case {
        words: &["run"],
        input: b"set capable B no\nset bytes 1\nopen s\nwrite A.s 05\nread B.s 9\nwrite A.s 06\nread B.s 9\n",
        status: Status::Spent,
        text: b"1 main open s: declined not capable yes no\n2 main write A.s 05: wrote 1\n3 main read B.s 9: data 05\n4 main write A.s 06: wrote 1\nsocket s A wrote 2 read 0 B wrote 0 read 1\nspent bytes 1\n",
    },
    Case {
        words: &["run"],
        input: b"set entries 1\nopen s\nclc s A\n",
        status: Status::Spent,
        text: b"1 main open s: opened\n  clc A s proposal\nsocket s A wrote 0 read 0 B wrote 0 read 0\nspent entries 1\n",
    },
    Case {
        words: &["run"],
        input: b"open s\nset size 1\n",
        status: Status::Refused,
        text: b"line 2: order\n",
    },
    Case {
        words: &["run"],
        input: b"set size 1\nset size 2\n",
        status: Status::Refused,
        text: b"line 2: again\n",
    },
    Case {
        words: &["run"],
        input: b"set subnet A 10.0.0.1/8\n",
        status: Status::Refused,
        text: b"line 1: subnet\n",
    },
    Case {
        words: &["run"],
        input: b"set capable A maybe\n",
        status: Status::Refused,
        text: b"line 1: answer\n",
    },
    Case {
        words: &["show"],
        input: b"# cut off\nclc e2d4c3d901\nllc 08\n",
        status: Status::Refused,
        text: b"line 3: bytes\n",
    },
    Case {
        words: &["--", "show"],
        input: b"clc e2d4c3d901",
        status: Status::Ok,
        text: b"fault short\n",
    },
];

/// Every case, over memory that tells all and never fails.
#[test]
fn words_and_inputs_are_answered(rt: HostRuntime) -> Result<(), Fail> {
    for case in &CASES {
        let input = Vec::from_slice(rt.alloc(), case.input)?;
        let mut source = MemorySource::new(input, Vec::new(rt.alloc()));
        let Ok(mut sink) = MemorySink::new(rt.alloc(), 1_000, Vec::new(rt.alloc())) else {
            return Err(Fail::new("no memory"));
        };
        let status = smcr(rt.alloc(), case.words, &mut source, &mut sink);
        assert_eq!(rt; status, case.status);
        assert!(rt; sink.held() == case.text);
    }
    Ok(())
}

/// A first read that fails, a first write that fails, and an input that is one byte too long.
#[test]
fn faults_of_the_outside_have_their_statuses(rt: HostRuntime) -> Result<(), Fail> {
    let mut first = Vec::new(rt.alloc());
    first.push(1)?;
    let mut source = MemorySource::new(Vec::new(rt.alloc()), first);
    let Ok(mut sink) = MemorySink::new(rt.alloc(), 1_000, Vec::new(rt.alloc())) else {
        return Err(Fail::new("no memory"));
    };
    let status = smcr(rt.alloc(), &["run"], &mut source, &mut sink);
    assert_eq!(rt; status, Status::ReadFault);
    assert!(rt; sink.held().is_empty());

    let mut first = Vec::new(rt.alloc());
    first.push(1)?;
    let mut source = MemorySource::new(Vec::new(rt.alloc()), Vec::new(rt.alloc()));
    let Ok(mut sink) = MemorySink::new(rt.alloc(), 1_000, first) else {
        return Err(Fail::new("no memory"));
    };
    let status = smcr(rt.alloc(), &["run"], &mut source, &mut sink);
    assert_eq!(rt; status, Status::WriteFault);

    let mut long = Vec::new(rt.alloc());
    long.resize(1_048_577, b' ')?;
    let mut source = MemorySource::new(long, Vec::new(rt.alloc()));
    let Ok(mut sink) = MemorySink::new(rt.alloc(), 1_000, Vec::new(rt.alloc())) else {
        return Err(Fail::new("no memory"));
    };
    let status = smcr(rt.alloc(), &["run"], &mut source, &mut sink);
    assert_eq!(rt; status, Status::TooLong);
    assert!(rt; sink.held() == b"too long\n".as_slice());
    Ok(())
}

/// A source that hands over at most so many bytes a call, and whose call of this number fails.
#[derive(Drop)]
struct SlowSource {
    bytes: Vec<u8>,
    at: usize,
    most: usize,
    calls: u32,
    fail: u32,
    faults: u64,
}

impl Source for SlowSource {
    ghost left = { λ _. None };

    ghost faults = { λ s. s.faults };

    fn read(&mut self, out: &mut [u8]) -> Result<usize, Failed> {
        self.calls = self.calls.saturating_add(1);
        if self.calls == self.fail {
            self.faults = self.faults.saturating_add(1);
            return Err(Failed);
        }
        let rest = &self.bytes[self.at.min(self.bytes.len())..];
        let count = rest.len().min(self.most).min(out.len());
        out[..count].copy_from_slice(&rest[..count]);
        self.at = self.at.saturating_add(count);
        Ok(count)
    }
}

/// A sink that takes at most so many bytes a call, and whose call of this number fails.
#[derive(Drop)]
struct SlowSink {
    bytes: Vec<u8>,
    most: usize,
    calls: u32,
    fail: u32,
    faults: u64,
}

impl Sink for SlowSink {
    ghost held = { λ _. None };

    ghost faults = { λ s. s.faults };

    fn write(&mut self, piece: &[u8]) -> Result<usize, Failed> {
        self.calls = self.calls.saturating_add(1);
        let count = piece.len().min(self.most.max(1));
        if self.calls != self.fail && self.bytes.extend_from_slice(&piece[..count]).is_ok() {
            Ok(count)
        } else {
            self.faults = self.faults.saturating_add(1);
            Err(Failed)
        }
    }
}

/// What a run came to.
#[derive(Drop)]
struct Outcome {
    status: Status,
    text: Vec<u8>,
}

/// Does what one word asks for, where a call of the source and one of the sink fail, by their
/// numbers from 1; no call has number 0.
fn run_slowly(
    rt: &HostRuntime,
    case: &Slow<'_>,
    failing_read: u32,
    failing_write: u32,
) -> Result<Outcome, Fail> {
    let mut source = SlowSource {
        bytes: Vec::from_slice(rt.alloc(), case.input)?,
        at: 0,
        most: case.most,
        calls: 0,
        fail: failing_read,
        faults: 0,
    };
    let mut sink = SlowSink {
        bytes: Vec::new(rt.alloc()),
        most: case.most,
        calls: 0,
        fail: failing_write,
        faults: 0,
    };
    let status = smcr(rt.alloc(), &[case.word], &mut source, &mut sink);
    Ok(Outcome {
        status,
        text: sink.bytes,
    })
}

/// A word and an input, how many bytes a call of source and sink moves, and how many calls there
/// are of each.
#[derive(Clone, Copy)]
struct Slow<'a> {
    word: &'a str,
    input: &'a [u8],
    most: usize,
    reads: u32,
    writes: u32,
}

/// Whether each read fails in turn, and nothing is written, and each write, and a front of the text
/// is; with the number past the last call none fails.
fn each_call_fails_in_turn(rt: &HostRuntime, case: &Slow<'_>) -> Result<bool, Fail> {
    let whole = run_slowly(rt, case, 0, 0)?;
    for n in 1..=case.reads {
        let got = run_slowly(rt, case, n, 0)?;
        if got.status != Status::ReadFault || !got.text.is_empty() {
            return Ok(false);
        }
    }
    for n in 1..=case.writes {
        let got = run_slowly(rt, case, 0, n)?;
        if got.status != Status::WriteFault || !is_true_front(&got.text, &whole.text) {
            return Ok(false);
        }
    }
    let reads = case.reads.saturating_add(1);
    let writes = case.writes.saturating_add(1);
    let last = run_slowly(rt, case, reads, writes)?;
    Ok(last.status == whole.status && last.text == whole.text)
}

/// Whether a text is a front of another that is longer.
fn is_true_front(front: &[u8], text: &[u8]) -> bool {
    front.len() < text.len() && text.starts_with(front)
}

/// The first worked scene, its trace, and a message that is shown, seven bytes a call.
#[test]
fn each_call_of_a_slow_source_and_sink_fails_in_turn(rt: HostRuntime) -> Result<(), Fail> {
    let case = Slow {
        word: "run",
        input: b"open s\npump 9\nwrite A.s 68,69\npump 2\nread B.s 9\n",
        most: 7,
        reads: 8,
        writes: 100,
    };
    assert!(rt; each_call_fails_in_turn(&rt, &case)?);
    let case = Slow {
        word: "trace",
        writes: 82,
        ..case
    };
    assert!(rt; each_call_fails_in_turn(&rt, &case)?);
    let case = Slow {
        word: "show",
        input: b"# cut off\nclc e2d4c3d901\n",
        most: 7,
        reads: 5,
        writes: 2,
    };
    assert!(rt; each_call_fails_in_turn(&rt, &case)?);
    Ok(())
}

/// A scene whose text has more than two pages.
#[test]
fn each_call_over_many_pages_fails_in_turn(rt: HostRuntime) -> Result<(), Fail> {
    let mut input = Vec::new(rt.alloc());
    for _ in 0..5_000u32 {
        input.extend_from_slice(b"read A.s 1\n")?;
    }
    let case = Slow {
        word: "run",
        input: &input,
        most: 1_000_000,
        reads: 15,
        writes: 3,
    };
    assert!(rt; each_call_fails_in_turn(&rt, &case)?);
    Ok(())
}
