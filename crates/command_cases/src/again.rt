//! Texts that are read, and written again.

use crate::case::Format;
use anyhow::{Result, ensure};
use certificate::{read_certificate, write_certificate};
use history_file::{copy_events, read_file, write_history, write_history_from};
use nfs_history::Start;
use nfs3_msgs::{put_args, put_result, read_args, read_result};
use nfs3_types::{NfsCall, NfsReply};
use rpc_reader::{CallHead, ReplyHead, put_call, put_reply, read_call, read_reply};
use std::alloc::{AllocError, Global};
use std::io::Write;
use xdr_records::{FeedFault, RECORD_LIMIT, RecordFeed, frame};

/// A message that is written.
#[derive(Clone, Copy)]
enum Message<'a> {
    Arguments(&'a NfsCall),
    Result(&'a NfsReply),
    /// With no credential.
    RpcCall(&'a CallHead<'a>),
    RpcReply(&'a ReplyHead<'a>),
}

impl Message<'_> {
    // Appends it.
    fn put(self, bytes: &mut Vec<u8>) -> Result<(), AllocError> {
        match self {
            Message::Arguments(call) => put_args(bytes, call),
            Message::Result(reply) => put_result(bytes, reply),
            Message::RpcCall(head) => put_call(
                bytes,
                head.xid,
                head.program,
                head.version,
                head.procedure,
                head.args,
            ),
            Message::RpcReply(head) => put_reply(bytes, head.xid, &head.body),
        }
    }

    // Its bytes, put after one that is there. If memory runs out that byte is still there alone, and they are put once more.
    fn bytes(self, alloc: Global) -> Result<Vec<u8>> {
        let mut bytes = Vec::new(alloc);
        bytes.push(7)?;
        if self.put(&mut bytes).is_err() {
            ensure!(bytes.as_slice() == [7].as_slice(), "half of it is there");
            self.put(&mut bytes)?;
        }
        Ok(Vec::from_slice(alloc, bytes.get(1..).unwrap_or(&[]))?)
    }
}

fn history_again(alloc: Global, file: &[u8]) -> Result<Vec<u8>> {
    let recording = read_file(alloc, file)?;
    let events = copy_events(alloc, recording.events.as_slice())?;
    if file.starts_with(b"NFSHIST1".as_slice()) {
        return Ok(write_history(alloc, recording.root, events.as_slice())?);
    }
    let start = Start::of_seen(alloc, &recording.start)?;
    Ok(write_history_from(
        alloc,
        recording.root,
        recording.profile,
        &start,
        events.as_slice(),
    )?)
}

// Feeds a piece of a stream, once more if memory ran out.
fn feed(records: &mut RecordFeed, piece: &[u8]) -> Result<(), FeedFault> {
    match records.feed(piece) {
        Err(FeedFault::NoMemory) => records.feed(piece),
        fed => fed,
    }
}

// Each record is written as one fragment.
fn records_again(alloc: Global, stream: &[u8]) -> Result<Vec<u8>> {
    let mut records = RecordFeed::new(alloc);
    for piece in stream.chunks(7) {
        feed(&mut records, piece)?;
    }
    let mut again = Vec::new(alloc);
    for _ in 0..stream.len() {
        let Some(record) = records.take() else {
            break;
        };
        ensure!(record.len() <= RECORD_LIMIT, "a record is too long");
        again.extend_from_slice(&frame(alloc, &record)?)?;
    }
    Ok(again)
}

// What is written of what a text was read as, or why it wasn't read.
fn written_again(alloc: Global, format: Format, procedure: u32, text: &[u8]) -> Result<Vec<u8>> {
    match format {
        Format::Call => Message::Arguments(&read_args(alloc, procedure, text)?).bytes(alloc),
        Format::Result => Message::Result(&read_result(alloc, procedure, text)?).bytes(alloc),
        Format::RpcCall => Message::RpcCall(&read_call(text)?).bytes(alloc),
        Format::RpcReply => Message::RpcReply(&read_reply(text)?).bytes(alloc),
        Format::History => history_again(alloc, text),
        Format::Certificate => Ok(write_certificate(alloc, &read_certificate(alloc, text)?)?),
        Format::Records => records_again(alloc, text),
    }
}

/// Says whether a text that is read and written again is the same text, and reads what was written if it isn't.
pub fn put_again(
    alloc: Global,
    answer: &mut Vec<u8>,
    format: Format,
    numbers: [u64; 3],
    text: &str,
) -> Result<()> {
    let text = hex::decode(alloc, text)?;
    let procedure = u32::try_from(numbers[0])?;
    let again = written_again(alloc, format, procedure, text.as_slice())?;
    if again.as_slice() == text.as_slice() {
        writeln!(answer, " ok")?;
        return Ok(());
    }
    // The text has bytes in its padding: what is written is another text, which has to be read as the same.
    let third = written_again(alloc, format, procedure, again.as_slice())?;
    let words = if third.as_slice() == again.as_slice() {
        "respelled"
    } else {
        "unlike"
    };
    writeln!(answer, " {words}")?;
    Ok(())
}
