//! How many calls a second a server answers, and how long its book is held for each.

ghost use Rattle.std.specs.Prelude.{◌≡◌, IfOk};

use crate::books::print_verdict;
use crate::command::Command;
use crate::messages::{bytes_of, made_object, number_at, procedure_of};
use crate::random::Random;
use crate::servers::{SimServer, close_after};
use anyhow::{Context, Result, bail, ensure};
use client_calls::{Creation, create, read, remove, rename, write};
use journal_server::{Desk, OpenGate, Pass, Profile, Server, SimDevice, SpelledReply, Start};
use nfs_history::Event;
use nfs3_msgs::read_result;
use nfs3_types::{NfsReply, Procedure, StableHow};
use rpc_reader::{ReplyBody, read_reply};
use std::alloc::{AllocError, Global};
use std::io::Write;
use std::sync::Wait;
use std::thread::{self, Threads};
use std::time::{Clock, Instant};

/// How many files there are before the calls.
const FILES: u64 = 64;

/// What threads ask for.
#[derive(Clone, Copy)]
enum Kind {
    /// CREATE, each of a file, before the calls of another kind. The file is the object of its number.
    Files,
    /// WRITE, each to a file of its own.
    Private,
    /// CREATE, WRITE, RENAME and REMOVE in one directory.
    Shared,
    /// READ, four in five, and WRITE, of some files.
    Reads,
}

// A name in two letters.
fn name_of(first: u8, number: u64) -> [u8; 2] {
    [first, b'A'.saturating_add((number % 64) as u8)]
}

// One of four calls in the root, by turns. The last file was made by this thread.
fn change(alloc: Global, lane: u64, last: u64, turn: u64) -> Result<Vec<u8>, AllocError> {
    let (one, two) = (name_of(b'x', lane), name_of(b'y', lane));
    match turn % 4 {
        0 => create(alloc, 1, 0, one.as_slice(), Creation::Unchecked(None)),
        1 => write(alloc, 1, last, 0, StableHow::Unstable, bytes_of(64)),
        2 => rename(alloc, 1, (0, one.as_slice()), (0, two.as_slice())),
        _ => remove(alloc, 1, 0, two.as_slice()),
    }
}

// A READ, or a WRITE.
fn use_file(alloc: Global, file: u64, turn: u64, is_read: bool) -> Result<Vec<u8>, AllocError> {
    let offset = turn % 16 * 64;
    if is_read {
        return read(alloc, 1, file, offset, 64);
    }
    write(alloc, 1, file, offset, StableHow::Unstable, bytes_of(64))
}

// Makes all calls of one thread, and gives what it knows at its end.
fn run_thread<R: Wait>(
    rt: &R,
    alloc: Global,
    server: &SimServer,
    kind: Kind,
    calls: u64,
) -> Result<Pass> {
    let mut pass = server.join_lane(rt)?;
    let lane = u64::from(pass.lane());
    let mut random = Random::new(lane);
    let mut last = 0;
    for turn in 0..calls {
        let message = match kind {
            Kind::Files => {
                let name = name_of(b'f', turn);
                create(alloc, 1, 0, name.as_slice(), Creation::Unchecked(None))
            }
            Kind::Private => use_file(alloc, (lane % 64).max(1), turn, false),
            Kind::Shared => change(alloc, lane, last, turn),
            Kind::Reads => use_file(alloc, 1 + random.below(8), turn, random.below(5) > 0),
        }?;
        let reply = server.call(rt, &mut pass, message.as_slice())?;
        last = made_object(reply.as_slice()).unwrap_or(last);
    }
    Ok(pass)
}

// What all threads know, after the files were made. Notes how many microseconds they took.
fn run_threads<R: Wait + Threads + Clock + Sync>(
    rt: &R,
    alloc: Global,
    server: &SimServer,
    kind: Kind,
    (threads, calls): (u64, u64),
    taken: &mut u64,
) -> Result<Vec<Pass>> {
    let mut passes = Vec::new(alloc);
    passes.push(run_thread(rt, alloc, server, Kind::Files, FILES)?)?;
    let calls = calls / threads.max(1);
    let start = Instant::now(rt)?;
    let ran = thread::map_indices(
        rt,
        alloc,
        threads as usize,
        &|_| { run_thread(rt, alloc, server, kind, calls).ok() },
    )?;
    *taken = u64::try_from(start.elapsed(rt)?.as_micros())?;
    for pass in ran {
        passes.push(pass.context("a call failed")?)?;
    }
    Ok(passes)
}

// A reply, its message as a server makes it before it takes its book's lock, and whether it is answered once its record is safe.
fn read_exchange(
    alloc: Global,
    message: &[u8],
    reply: &[u8],
) -> Result<(NfsReply, SpelledReply, bool)>
    ensures { IfOk result (λ exchange. exchange.1.reply ≡ exchange.0) }
{
    let procedure = procedure_of(message).context("a call was of no procedure")?;
    let head = read_reply(reply)?;
    let ReplyBody::Success(results) = head.body else {
        bail!("a call failed");
    };
    let is_safe = procedure.changes_the_tree()
        && procedure != Procedure::Write
        && number_at(results, 0, 4) == 0;
    let reply = read_result(alloc, procedure.number(), results)?;
    let spelled = SpelledReply::new(alloc, head.xid, &reply)?;
    Ok((reply, spelled, is_safe))
}

// The steps of a book for one call, as a server takes them under its book's lock; but the call's message is read here, too.
fn keep_book(
    alloc: Global,
    desk: &mut Desk<SimDevice>,
    message: &[u8],
    exchange: (NfsReply, SpelledReply, bool),
) -> Result<()>
    requires { exchange.1.reply ≡ exchange.0 }
{
    let (reply, spelled, is_safe) = exchange;
    let token = desk.book.begin(1, message)?;
    if !is_safe {
        let answer = desk.reply(token, reply, spelled)?;
        ensure!(
            answer.is_some(),
            "a call that promised nothing wasn't answered"
        );
        return Ok(());
    }
    let records = desk.place(token, reply, &spelled)?;
    drop(desk.flush(alloc, records)?);
    drop(desk.answer(token)?);
    Ok(())
}

// How many nanoseconds the steps of a book take for each of a history's calls, on one thread with nothing beside them.
fn measure_book<R: Clock>(rt: &R, alloc: Global, events: &[Event]) -> Result<u64> {
    let device = SimDevice::new(alloc, None, None, None);
    let mut desk = Desk::new_from(alloc, device, Profile::Plain, Start::empty(alloc))?;
    let mut taken = 0u64;
    for pair in events.chunks(2) {
        let [
            Event::Call { message, .. },
            Event::Reply { message: reply, .. },
        ] = pair
        else {
            bail!("calls overlapped");
        };
        let exchange = read_exchange(alloc, message.as_slice(), reply.as_slice())?;
        let start = Instant::now(rt)?;
        keep_book(alloc, &mut desk, message.as_slice(), exchange)?;
        taken = taken.saturating_add(u64::try_from(start.elapsed(rt)?.as_nanos())?);
    }
    Ok(taken / (events.len() as u64 / 2).max(1))
}

/// Measures one server as a command says, and prints how it was.
pub fn measure<R: Wait + Threads + Clock + Sync, W: Write>(
    rt: &R,
    alloc: Global,
    output: &mut W,
    command: Command<'_>,
) -> Result<()> {
    let [threads, calls, ..] = command.numbers;
    let kind = match command.text {
        "private" => Kind::Private,
        "shared" => Kind::Shared,
        "reads" => Kind::Reads,
        _ => bail!("no kind of calls"),
    };
    let server = Server::new(alloc, OpenGate, SimDevice::new(alloc, None, None, None))?;
    let mut taken = 0;
    let passes = run_threads(rt, alloc, &server, kind, (threads, calls), &mut taken);
    let closed = close_after(alloc, server, passes)?;
    let speed = calls.saturating_mul(1_000_000) / taken.max(1);
    writeln!(output, "microseconds {taken}, calls a second {speed}")?;
    if threads == 1 {
        let book = measure_book(rt, alloc, closed.history.events())?;
        writeln!(output, "the book's steps of a call take {book} nanoseconds")?;
    }
    print_verdict(output, alloc, &closed.history, &closed.certificate)
}
