//! The words of the program, and the command that they are.
//!
//! [`read_command`] reads them with the crate `clap`, which takes memory; [`command_of`] reads them
//! without. Both give the command of one definition, for every list of words: the first `--` is left
//! out wherever it stands, and what is left is the name of a command and nothing more. So `--help`
//! is no command, nor are `run 1`, `show x` or no word at all.
#![tactic(auto)]

ghost use Rattle.std.specs.Prelude.{◌≡◌, IfOk, IfErr, map, option_map, ◌∷◌, None, Some};
ghost use Rattle.smcr_words.specs.Commands.{command_named, command_of, only_command};
ghost use Rattle.smcr_words.specs.Reading.{option_listed};

mod parser;

use crate::parser::read_wholly;
use std::alloc::Global;

/// What the program may be asked to do with its input.
#[derive(Clone, Copy, Debug, PartialEq, Eq)]
pub enum Command {
    /// Run a scene, and write its history.
    Run,
    /// Show messages, a line each.
    Show,
    /// Run a scene, and write the trace of its history.
    Trace,
}

/// Why words were not read as a command.
#[derive(Clone, Copy, Debug, PartialEq, Eq)]
pub enum WordsFault {
    /// Memory was asked for and there was none.
    NoMemory,
    /// The words are no command.
    Usage,
}

/// The command of this name.
fn command_named(word: &str) -> Option<Command>
    ensures { result ≡ command_named word.now }
{
    if word == "run" {
        Some(Command::Run)
    } else if word == "show" {
        Some(Command::Show)
    } else if word == "trace" {
        Some(Command::Trace)
    } else {
        None
    }
}

/// The command that the words after the program's name are. It takes no memory.
pub fn command_of(words: &[&str]) -> Option<Command>
    ensures { result ≡ command_of (map (λ w. w.now) words.now) }
{
    match *words {
        [only] if only == "--" => None,
        [only] => command_named(only),
        [first, second] => {
            if first == "--" {
                command_named(second)
            } else if second == "--" {
                command_named(first)
            } else {
                None
            }
        }
        _ => None,
    }
}

/// The command of a name, and of a value where one follows: no command takes a value.
fn asked_for(name: &str, value: Option<&str>) -> Option<Command>
    ensures { result ≡ only_command (name.now ∷ option_listed (option_map (λ v. v.now) value.entry)) }
{
    match value {
        None => command_named(name),
        Some(_) => None,
    }
}

/// Reads the words after the program's name with `clap`. [`WordsFault::Usage`] comes only where the
/// words are no command, and an answer `Ok` only where they are this one; so what words get is said
/// exactly, but that want of memory may come in place of either.
pub fn read_command(alloc: Global, words: &[&str]) -> Result<Command, WordsFault>
    ensures ok { IfOk result (λ c. command_of (map (λ w. w.now) words.now) ≡ Some c) }
    ensures err { IfErr result (λ e. e ≡ WordsFault.Usage → command_of (map (λ w. w.now) words.now) ≡ None) }
{
    let asked = read_wholly(alloc, words)?;
    match asked_for(asked.command, asked.value) {
        Some(command) => Ok(command),
        None => Err(WordsFault::Usage),
    }
}
