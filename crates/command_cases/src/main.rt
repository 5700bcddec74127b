//! Answers the cases on standard input, and ends with the status of the last command line.
//!
//! A line that begins with `nfsbench` is a command line: what its words ask for is done with nothing on standard input, and the line,
//! what was said and the status are printed. Of another case the name and the answer are printed; if memory runs out it is tried once
//! more. The case of a plan is a line with its name, a line with a history file in lower case hex, the lines of a certificate, and an empty line. Another
//! case is one line: a name, a kind, numbers that the kind asks for, and a text in lower case hex. `bench/make_cases.py` writes these.
#![tactic(auto)]

mod again;
mod case;
mod events;
mod search;
mod verdict;

use again::put_again;
use anyhow::Result;
use case::{Case, Kind};
use events::{put_built, put_lines};
use nfsbench_engine::run_words;
use recording_command::RecordingRuntime;
use search::put_search;
use std::io::{self, BufWriter, Write};
use std::net::{TcpListener, TcpStream};
use std::process::ExitCode;
use verdict::put_verdict;

// Does what the words of a command line ask for, prints what was said, and gives the status.
fn print_command<R: RecordingRuntime, W: Write>(rt: &R, output: &mut W, line: &str) -> Result<u8> {
    let words: Vec<&str> = line.split(' ').collect(rt.alloc())?;
    let mut answer = Vec::new(rt.alloc());
    let status = run_words(rt, words.as_slice(), &mut b"".as_slice(), &mut answer);
    writeln!(output, "$ {line}")?;
    output.write_all(answer.as_slice())?;
    writeln!(output, "status {status}\n")?;
    Ok(status)
}

// Appends what is said of a case.
fn put_answer<R: RecordingRuntime>(rt: &R, answer: &mut Vec<u8>, case: Case<'_>) -> Result<()> {
    let alloc = rt.alloc();
    let Case {
        kind,
        numbers,
        text,
        ..
    } = case;
    match kind {
        Kind::Plan => put_verdict(alloc, answer, text),
        Kind::Again(format) => put_again(alloc, answer, format, numbers, text),
        Kind::Built => put_built(alloc, answer, text),
        Kind::Lines => put_lines(alloc, answer, text, numbers),
        Kind::Search => put_search(rt, answer, text, numbers),
    }
}

// What is said of a case, at the end its fault if it has one.
fn answer_of<R: RecordingRuntime>(rt: &R, case: Case<'_>) -> Result<Vec<u8>> {
    let mut answer = Vec::new(rt.alloc());
    if let Err(fault) = put_answer(rt, &mut answer, case) {
        writeln!(answer, " {fault}")?;
    }
    Ok(answer)
}

// Whether memory ran out.
fn is_out_of_memory(answer: &[u8]) -> bool {
    answer.ends_with(b"out of memory\n".as_slice())
        || answer.ends_with(b"memory allocation failed\n".as_slice())
}

// Prints the name of a case, and what is said of it.
fn print_case<R: RecordingRuntime, W: Write>(rt: &R, output: &mut W, case: Case<'_>) -> Result<()> {
    let mut answer = answer_of(rt, case)?;
    if is_out_of_memory(answer.as_slice()) {
        answer = answer_of(rt, case)?;
    }
    let name = case.name;
    write!(output, "{name}:")?;
    output.write_all(answer.as_slice())?;
    Ok(())
}

// Prints what is said of a line that names a case, a kind and a text.
fn print_line<R: RecordingRuntime, W: Write>(rt: &R, output: &mut W, line: &str) -> Result<()> {
    let words: Vec<&str> = line.split(' ').collect(rt.alloc())?;
    print_case(rt, output, Case::parse(words.as_slice())?)
}

// Answers each case, and gives the status of the last command line; 0 without one.
fn print_all<R: RecordingRuntime, W: Write>(rt: &R, output: &mut W, cases: &str) -> Result<u8> {
    let mut status = 0;
    let mut name = None;
    let mut bundle = String::new(rt.alloc());
    for line in cases.split('\n') {
        match name {
            None if line.is_empty() => {}
            None if line.starts_with("nfsbench") => status = print_command(rt, output, line)?,
            None if line.contains(' ') => print_line(rt, output, line)?,
            None => name = Some(line),
            // The line of an empty history file is empty, and ends no case.
            Some(its_name) if line.is_empty() && !bundle.is_empty() => {
                print_case(rt, output, Case::of_plan(its_name, bundle.as_str()))?;
                bundle.clear();
                name = None;
            }
            Some(_) => {
                bundle.push_str(line)?;
                bundle.push('\n')?;
            }
        }
    }
    Ok(status)
}

fn main(rt: HostRuntime) -> Result<ExitCode> {
    // The prover knows the types that a function names: the engine has values of these two.
    let _listener: Option<TcpListener> = None;
    let _stream: Option<TcpStream> = None;
    let cases = io::read_to_string(rt.alloc(), rt.reader())?;
    let mut output = BufWriter::new(rt.alloc(), io::writer(&rt))?;
    let status = print_all(&rt, &mut output, cases.as_str())?;
    output.flush()?;
    Ok(ExitCode::from(status))
}
