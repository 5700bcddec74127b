//! The parser of the table.

use crate::rows::{Need, Row, Verb};
use crate::table::{JUDGING, RECORDING, RUNNING};
use clap::builder::ValueParser;
use clap::{Arg, ArgAction, Command};
use std::alloc::{AllocError, Global};

/// The argument, which has to be said so.
fn with_need<'a>(arg: Arg<'a>, need: Need) -> Result<Arg<'a>, AllocError> {
    match need {
        Need::Free => Ok(arg),
        Need::Wanted => Ok(arg.required(true)),
        Need::Unless(other) => arg.required_unless_present(other),
        Need::With(other) => arg.requires_arg(other),
        Need::WithBut(other, without) => arg.requires_arg(other)?.conflicts_with(without),
        Need::Without(one, other) => arg.conflicts_with(one)?.conflicts_with(other),
    }
}

/// The argument of a row.
fn arg_of<'a>(alloc: Global, row: Row) -> Result<Arg<'a>, AllocError> {
    match row {
        Row::Path(name, need, help) => with_need(Arg::new(alloc, name).help(help), need),
        Row::Count(name, least, most, help) => {
            let arg = Arg::new(alloc, name).required(true).help(help);
            Ok(arg.value_parser(ValueParser::unsigned(least, most)))
        }
        Row::Flag(name, help) => {
            let arg = Arg::new(alloc, name).long(name).help(help);
            Ok(arg.action(ArgAction::SetTrue))
        }
        Row::Text(name, need, value, help) => {
            let arg = Arg::new(alloc, name).long(name).help(help);
            with_need(arg.value_name(value), need)
        }
        Row::OneOf(name, words, value, help) => {
            let arg = Arg::new(alloc, name).long(name).help(help);
            Ok(arg.value_name(value).value_parser(words))
        }
        Row::Number(name, least, most, need, value, help) => {
            let arg = Arg::new(alloc, name).long(name).help(help);
            let arg = arg.value_parser(ValueParser::unsigned(least, most));
            with_need(arg.value_name(value), need)
        }
    }
}

/// A command with its rows.
fn command_of<'a>(alloc: Global, verb: Verb) -> Result<Command<'a>, AllocError> {
    let mut command = Command::new(alloc, verb.name).about(verb.about);
    for row in verb.rows {
        command = command.arg(arg_of(alloc, *row)?)?;
    }
    Ok(command)
}

/// The program, without its commands.
fn bare_program<'a>(alloc: Global) -> Result<Command<'a>, AllocError> {
    let program = Command::new(alloc, "nfsbench")
        .bin_name("nfsbench")?
        .version("0.1.0")
        .about(
            "Judges histories of NFS version 3 servers. Without a command, reads a bundle from standard input.",
        );
    Ok(program)
}

/// The program with these commands.
fn with_verbs<'a>(
    alloc: Global,
    program: Command<'a>,
    verbs: &[Verb],
) -> Result<Command<'a>, AllocError> {
    let mut program = program;
    for verb in verbs {
        program = program.subcommand(command_of(alloc, *verb)?)?;
    }
    Ok(program)
}

// Each list by a function of its own: to the prover a function knows each text of it.

fn with_judging<'a>(alloc: Global, program: Command<'a>) -> Result<Command<'a>, AllocError> {
    with_verbs(alloc, program, JUDGING)
}

fn with_running<'a>(alloc: Global, program: Command<'a>) -> Result<Command<'a>, AllocError> {
    with_verbs(alloc, program, RUNNING)
}

fn with_recording<'a>(alloc: Global, program: Command<'a>) -> Result<Command<'a>, AllocError> {
    with_verbs(alloc, program, RECORDING)
}

/// The parser of the program's words: `nfsbench`, and what comes after it.
pub fn program<'a>(alloc: Global) -> Result<Command<'a>, AllocError> {
    let program = bare_program(alloc)?;
    let program = with_judging(alloc, program)?;
    let program = with_running(alloc, program)?;
    with_recording(alloc, program)
}
