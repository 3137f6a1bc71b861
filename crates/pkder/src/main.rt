//! `pkder` reads documents in BER or DER, from files or from standard input, and writes what its command says: what
//! they are, whether they are in DER, whether two are the same, their one DER text, a part of them.
//!
//! Proved here: which words ask for what, and that others are refused; in `respond`, what is done then, whatever the
//! streams and files are that it is handed. Only tested, by the tables of `tests/` and tests/harness/files.py: the
//! texts of help and of lines that clap refuses, which file a name opens, and `main`, which hands on what the system
//! gives.
#![tactic(auto)]

mod arguments;
mod command;
mod help;
mod line;
mod new_file;
mod pair;
mod refusal;
mod respond;
mod terminal;

use commands::closing::{complain, finish};
use commands::file_system::FileSystem;
use commands::flush::ToFlush;
use commands::from_buffer::FromBuffer;
use commands::outcome::Outcome;
use commands::standard::Standard;
use new_file::FilesBeside;
use respond::{System, respond};
use std::io::{BufReader, ErrorKind};
use std::process::ExitCode;
use terminal::is_terminal;
use tlv_core::target::ToWrite;

const NO_TEXT: &str = "\
error: the line is not UTF-8

  tip: --files0-from takes names one by one, and reads all other files

For more information, try '--help'.
";

fn main(rt: HostRuntime) -> ExitCode {
    let alloc = rt.alloc();
    let mut errors = ToWrite::new(rt.stderr());
    let arguments = match std::env::args(&rt) {
        Ok(arguments) => arguments,
        Err(error) if error.kind() == ErrorKind::OutOfMemory => {
            return ExitCode::from(finish(&Outcome::Memory, &mut errors));
        }
        Err(_) => return ExitCode::from(complain(NO_TEXT, &mut errors)),
    };
    let words: Vec<String> = match arguments.collect(alloc) {
        Ok(words) => words,
        Err(_) => return ExitCode::from(finish(&Outcome::Memory, &mut errors)),
    };
    let Ok(input) = BufReader::new(alloc, rt.stdin()) else {
        return ExitCode::from(finish(&Outcome::Memory, &mut errors));
    };
    let mut standard = Standard {
        input: Some(FromBuffer::new(input)),
        output: ToFlush::new(rt.stdout()),
        errors,
    };
    let system = System {
        opener: FileSystem::new(&rt),
        files: FilesBeside::new(&rt),
        is_terminal: is_terminal(&rt),
    };
    ExitCode::from(respond(alloc, words.as_slice(), &mut standard, &system))
}
