//! The parser: one value that is required, one that may follow, and no flag.

ghost use Rattle.std.specs.Prelude.{◌≡◌, IfOk, IfErr, map};
ghost use Rattle.clap.specs.Words.{app_of};
ghost use Rattle.smcr_words.specs.Reading.{IsNoCommand, IsRead, IsRefused, IsWholly, smcr};

use crate::WordsFault;
use clap::error::ErrorKind;
use clap::{Arg, ArgAction, Command};
use std::alloc::{AllocError, Global};

/// A command and its value, as they were written.
#[derive(Clone, Copy, Debug)]
pub struct Asked<'a> {
    /// The first word.
    pub command: &'a str,
    /// The word that follows it.
    pub value: Option<&'a str>,
}

/// The parser of one value that is required and one that may follow.
fn parser<'a>(alloc: Global) -> Result<Command<'a>, AllocError>
    ensures { IfOk result (λ c. app_of c ≡ smcr) }
{
    let command = Arg::new(alloc, "command")
        .required(true)
        .action(ArgAction::Set);
    let value = Arg::new(alloc, "value").action(ArgAction::Set);
    Command::new(alloc, "smcr")
        .no_binary_name(true)
        .disable_help_flag(true)
        .arg(command)?
        .arg(value)
}

/// Reads words as the values that `clap` finds in them. A parser is built by its first parse, so
/// each reading has its own.
fn read_values<'a>(alloc: Global, words: &'a [&'a str]) -> Result<Asked<'a>, WordsFault>
    ensures ok { IfOk result (λ r. IsRead (map (λ w. w.now) words.entry.now) r) }
    ensures err { IfErr result (IsRefused (map (λ w. w.now) words.entry.now)) }
{
    let Ok(command) = parser(alloc) else {
        return Err(WordsFault::NoMemory);
    };
    match command.try_get_matches_from(words) {
        Ok(matches) => match matches.get_str("command") {
            Some(command) => Ok(Asked {
                command,
                value: matches.get_str("value"),
            }),
            None => Err(WordsFault::Usage),
        },
        Err(error) => Err(match error.kind() {
            ErrorKind::OutOfMemory => WordsFault::NoMemory,
            _ => WordsFault::Usage,
        }),
    }
}

/// Reads all of the words but the first `--`. [`WordsFault::Usage`] comes only where those are not
/// one or two, or one of them begins with a hyphen.
pub fn read_wholly<'a>(alloc: Global, words: &'a [&'a str]) -> Result<Asked<'a>, WordsFault>
    ensures ok { IfOk result (λ r. IsWholly (map (λ w. w.now) words.entry.now) r) }
    ensures err { IfErr result (IsNoCommand (map (λ w. w.now) words.entry.now)) }
{
    read_values(alloc, words)
}
