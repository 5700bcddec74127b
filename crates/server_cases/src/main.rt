//! Drives the books of journal servers, and whole servers, by the commands on standard input, and prints the answer to each, in a line.
//!
//! An empty line parts a block of commands from the next. A server's block begins with `server`, which makes it, and ends with `close`;
//! `soak`, `figures` and `bench` are blocks by themselves: servers that threads call. Other blocks command books.
//! `bench/make_journals.py` writes the commands, and what has to be answered.
#![tactic(auto)]

mod bench;
mod books;
mod command;
mod letters;
mod messages;
mod opening;
mod random;
mod servers;
mod soak;

use anyhow::Result;
use bench::measure;
use books::Driver;
use command::{Command, split_off};
use servers::run_server;
use soak::{print_figures, run_soak};
use std::io::{self, BufWriter, Write};

fn main(rt: HostRuntime) -> Result<()> {
    let alloc = rt.alloc();
    let commands = io::read_to_string(alloc, rt.reader())?;
    let mut output = BufWriter::new(alloc, io::writer(&rt))?;
    let mut driver = Driver::new(alloc)?;
    let mut passes = Vec::new(alloc);
    let mut figures = [0; 8];
    for block in commands.split("\n\n") {
        let (line, lines) = split_off(block, '\n');
        let first = Command::parse(line)?;
        let done = match first.word {
            "server" => run_server(&rt, alloc, &mut output, &mut passes, first, lines),
            "soak" => run_soak(&rt, alloc, &mut output, &mut figures, first),
            "figures" => print_figures(&mut output, figures),
            "bench" => measure(&rt, alloc, &mut output, first),
            _ => driver.obey_all(&mut output, block),
        };
        if let Err(fault) = done {
            writeln!(output, "{fault}")?;
        }
    }
    output.flush()?;
    Ok(())
}
