//! Words by `clap` and without memory: both read every row alike.

use smcr_words::{Command, WordsFault, command_of, read_command};
use std::test::Fail;

const RUN: Option<Command> = Some(Command::Run);

const SHOW: Option<Command> = Some(Command::Show);

const TRACE: Option<Command> = Some(Command::Trace);

/// Words, and the command that they are.
const ROWS: [(&'static [&'static str], Option<Command>); 31] = [
    (&["run"], RUN),
    (&["show"], SHOW),
    (&["trace"], TRACE),
    // the first `--` is left out, wherever it stands
    (&["--", "run"], RUN),
    (&["run", "--"], RUN),
    (&["--", "show"], SHOW),
    (&["show", "--"], SHOW),
    // a second one is a word
    (&["--"], None),
    (&["--", "--"], None),
    (&["--", "--", "run"], None),
    (&["--", "run", "--"], None),
    (&["run", "--", "--"], None),
    // no word, and no command's name
    (&[], None),
    (&[""], None),
    (&["go"], None),
    (&["Run"], None),
    (&["runs"], None),
    (&["ru"], None),
    (&["läuft"], None),
    // no command takes a value
    (&["run", "1"], None),
    (&["show", "x"], None),
    (&["run", ""], None),
    (&["run", "--", "1"], None),
    (&["run", "show"], None),
    (&["run", "1", "2"], None),
    // there is no flag
    (&["--help"], None),
    (&["-h"], None),
    (&["--version"], None),
    (&["run", "--help"], None),
    (&["--", "--help"], None),
    (&["-"], None),
];

#[test]
fn words_are_read_alike_with_memory_and_without(rt: HostRuntime) -> Result<(), Fail> {
    for (words, command) in &ROWS {
        assert_eq!(rt; command_of(words), *command);
        let read = read_command(rt.alloc(), words);
        assert_eq!(rt; read, command.ok_or(WordsFault::Usage));
    }
    Ok(())
}
