//! The program `smcr`: it reads a scene, runs it, and writes the history.
//!
//! `main` hands the real words, standard input and standard output to [`smcr_calls::smcr`], which does
//! all that the program does.
#![tactic(auto)]

use byte_port::{ReaderSource, WriterSink};
use smcr_calls::{Status, smcr};
use std::process::ExitCode;
use std::{env, io};

/// Runs the program with the real words, standard input and standard output. Words that are no text
/// are no command.
fn run_program(rt: &HostRuntime) -> Status {
    let arguments = match env::args(rt) {
        Ok(arguments) => arguments,
        Err(error) if error.kind() == io::ErrorKind::OutOfMemory => return Status::NoMemory,
        Err(_) => return serve(rt, &[]),
    };
    let Ok(texts) = arguments.collect::<Vec<String>>(rt.alloc()) else {
        return Status::NoMemory;
    };
    let mut words = Vec::new(rt.alloc());
    for text in texts.iter().skip(1) {
        if words.push(text.as_str()).is_err() {
            return Status::NoMemory;
        }
    }
    serve(rt, &words)
}

/// Does what the words ask for with standard input and output.
fn serve(rt: &HostRuntime, words: &[&str]) -> Status {
    let mut source = ReaderSource::new(rt.reader());
    let mut sink = WriterSink::new(io::writer(rt));
    smcr(rt.alloc(), words, &mut source, &mut sink)
}

fn main(rt: HostRuntime) -> ExitCode {
    ExitCode::from(run_program(&rt) as u8)
}
