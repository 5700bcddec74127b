//! A client of one lane.

use client_calls::{
    Creation, commit, create, look_up, make_directory, read, remove, rename, write,
};
use journal_server::{CallFault, OpenGate, Pass, Server, SimDevice};
use plan_text::{Operation, PlanName};
use rpc_reader::{ReplyBody, read_reply};
use std::alloc::Global;
use std::sync::Wait;
use xdr_records::Reader;

/// A server of a run.
pub(crate) type SimServer = Server<OpenGate, SimDevice>;

/// The number of the root directory, in which all names stand.
const ROOT: u64 = 0;

/// A client of one lane.
pub(crate) struct Client {
    alloc: Global,
    pass: Pass,
    /// The transaction number of its next call.
    xid: u32,
}

impl Drop for Client {
    fn drop(self) {
        let Client {
            alloc: _,
            pass,
            xid: _,
        } = self;
        drop(pass);
    }
}

/// The object whose handle the results of a LOOKUP have: a status of 0, the length 8, and the object's number
/// (RFC 1813, section 3.3.3).
fn found_object(results: &[u8]) -> Option<u64> {
    let mut reader = Reader::new(results);
    let status = reader.u32().ok()?;
    let length = reader.u32().ok()?;
    let number = reader.u64().ok()?;
    (status == 0 && length == 8).then_some(number)
}

impl Client {
    /// With this pass, ahead of its first call.
    pub(crate) fn new(alloc: Global, pass: Pass) -> Client {
        Client {
            alloc,
            pass,
            xid: 1,
        }
    }

    /// What it knows.
    pub(crate) fn into_pass(self) -> Pass {
        let Client {
            alloc: _,
            pass,
            xid: _,
        } = self;
        pass
    }

    fn next_xid(&mut self) -> u32 {
        let xid = self.xid;
        self.xid = xid.wrapping_add(1);
        xid
    }

    /// Makes a call.
    fn call<R: Wait>(
        &mut self,
        rt: &R,
        server: &SimServer,
        message: Vec<u8>,
    ) -> Result<(), CallFault> {
        let reply = server.call(rt, &mut self.pass, message.as_slice())?;
        drop(reply);
        Ok(())
    }

    /// The object that a name stands for, if the server says it.
    fn find<R: Wait>(
        &mut self,
        rt: &R,
        server: &SimServer,
        name: &PlanName,
    ) -> Result<Option<u64>, CallFault> {
        let message = look_up(self.alloc, self.next_xid(), ROOT, name.as_slice())?;
        let reply = server.call(rt, &mut self.pass, message.as_slice())?;
        match read_reply(reply.as_slice()) {
            Ok(reply) => match reply.body {
                ReplyBody::Success(results) => Ok(found_object(results)),
                _ => Ok(None),
            },
            Err(_) => Ok(None),
        }
    }

    /// The message of an operation on names.
    fn name_message(&mut self, operation: &Operation) -> Result<Option<Vec<u8>>, CallFault> {
        let (alloc, xid) = (self.alloc, self.xid);
        let message = match operation {
            Operation::Create(name) => {
                create(alloc, xid, ROOT, name.as_slice(), Creation::Unchecked(None))?
            }
            Operation::MakeDirectory(name) => make_directory(alloc, xid, ROOT, name.as_slice())?,
            Operation::Remove(name) => remove(alloc, xid, ROOT, name.as_slice())?,
            Operation::Lookup(name) => look_up(alloc, xid, ROOT, name.as_slice())?,
            Operation::Rename(from, to) => {
                rename(alloc, xid, (ROOT, from.as_slice()), (ROOT, to.as_slice()))?
            }
            _ => return Ok(None),
        };
        self.xid = xid.wrapping_add(1);
        Ok(Some(message))
    }

    /// The message of an operation on a file, which a LOOKUP finds.
    fn file_message<R: Wait>(
        &mut self,
        rt: &R,
        server: &SimServer,
        operation: &Operation,
    ) -> Result<Option<Vec<u8>>, CallFault> {
        let (Operation::Write(name, ..) | Operation::Read(name, ..) | Operation::Commit(name)) =
            operation
        else {
            return Ok(None);
        };
        let Some(object) = self.find(rt, server, name)? else {
            return Ok(None);
        };
        let (alloc, xid) = (self.alloc, self.next_xid());
        match operation {
            Operation::Write(_, offset, text, level) => Ok(Some(write(
                alloc,
                xid,
                object,
                *offset,
                *level,
                text.as_slice(),
            )?)),
            Operation::Read(_, offset, count) => Ok(Some(read(
                alloc, xid, object, *offset, *count,
            )?)),
            _ => Ok(Some(commit(alloc, xid, object, 0, 0)?)),
        }
    }

    /// Asks for an operation. One on a file that a LOOKUP doesn't find asks for no more.
    pub(crate) fn run<R: Wait>(
        &mut self,
        rt: &R,
        server: &SimServer,
        operation: &Operation,
    ) -> Result<(), CallFault> {
        if let Some(message) = self.name_message(operation)? {
            return self.call(rt, server, message);
        }
        match self.file_message(rt, server, operation)? {
            Some(message) => self.call(rt, server, message),
            None => Ok(()),
        }
    }
}
