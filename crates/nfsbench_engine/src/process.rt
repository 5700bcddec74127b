//! The process: its words, its standard input and its standard output.

use crate::words::run_words;
use program_streams::{Sink, Stream, tell, tell_want_of_memory};
use recording_command::RecordingRuntime;
use std::env;
use std::io::{self, ErrorKind, IsTerminal};
use std::process::ExitCode;
use std::rt::Env;

fn words_of<R: Env + AllocGlobal>(rt: &R) -> io::Result<Vec<String>> {
    Ok(env::args(rt)?.collect(rt.alloc())?)
}

/// Says that standard input is read, since no word says what to do.
fn tell_of_bundle<R: Eprint>(rt: &R) {
    let _ = eprintln!(rt;
        "nfsbench: reads a bundle from standard input: a history in hexadecimal, a line feed, a certificate; nfsbench --help lists the commands"
    );
}

/// Does what the process's words ask for, on standard input and standard output, and gives its exit status.
pub fn run_process<R>(rt: &R) -> ExitCode
where
    R: Env + Input + Print + RecordingRuntime,
    R::Reader: IsTerminal,
{
    let mut output = Sink::new(io::writer(rt));
    let status = match words_of(rt) {
        Ok(words) => {
            let reader = rt.reader();
            let is_bundle = words.len() < 2;
            let is_terminal = reader.is_terminal();
            // At a terminal it waits.
            if is_bundle && is_terminal {
                tell_of_bundle(rt);
            }
            let mut input = Stream::new(reader);
            let status = run_words(rt, words.as_slice(), &mut input, &mut output);
            if is_bundle && !is_terminal && status == 2 {
                tell_of_bundle(rt);
            }
            status
        }
        Err(error) if error.kind() == ErrorKind::OutOfMemory => tell_want_of_memory(&mut output),
        Err(_) => tell(&mut output, b"error: a word is no text in UTF-8\n", 2),
    };
    ExitCode::from(status)
}
