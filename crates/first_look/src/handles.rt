//! Which handles replies give, and which ones calls use.

use indexmap::IndexMap;
use nfs_history::{KnownCalls, Meaning, RecordedCall};
use nfs3_types::{
    Answer, CreateSuccess, FileHandle, NfsCall, NfsReply, Outcome, ReadDirPlusSuccess,
};
use std::alloc::{AllocError, Global};
use tree_answers::{first_handle, second_handle};

/// A successful call that used a handle.
#[derive(Clone, Copy)]
struct HandleUse {
    /// The number of the call.
    number: u64,
    /// The event with which it began.
    begin: u64,
}

/// When a handle was given first, and used first.
#[derive(Clone, Copy)]
struct HandleSpan {
    /// The event of the first reply that gave it; 0 of the root handle.
    given: Option<u64>,
    /// The first successful call that used it.
    used: Option<HandleUse>,
}

impl HandleSpan {
    const NEW: HandleSpan = HandleSpan {
        given: None,
        used: None,
    };

    /// The call that used it before a reply gave it, if one did.
    fn unknown_to(&self) -> Option<u64> {
        let used = self.used?;
        match self.given {
            Some(given) if given < used.begin => None,
            _ => Some(used.number),
        }
    }
}

/// The handles of a history.
#[derive(Drop)]
pub(crate) struct HandlesSeen<'k> {
    alloc: Global,
    root: &'k [u8],
    spans: IndexMap<Vec<u8>, HandleSpan>,
    /// Whether a call is judged.
    has_calls: bool,
    /// Whether a judged call uses the root handle.
    uses_root: bool,
}

impl<'k> HandlesSeen<'k> {
    /// Of the calls that are known. Each is read once.
    pub(crate) fn of(
        alloc: Global,
        known: &'k KnownCalls<'_>,
    ) -> Result<HandlesSeen<'k>, AllocError> {
        let mut seen = HandlesSeen {
            alloc,
            root: known.root().as_slice(),
            spans: IndexMap::new(alloc),
            has_calls: false,
            uses_root: false,
        };
        seen.give(known.root(), 0)?;
        for index in 0..known.count() {
            let number = index as u64 + 1;
            if let Some(recorded) = known.call(alloc, number)? {
                seen.note(&recorded, number)?;
            }
        }
        Ok(seen)
    }

    /// The first successful call that used a handle which no reply ahead of it gave.
    pub(crate) fn first_unknown(&self) -> Option<u64> {
        let mut first: Option<u64> = None;
        for span in self.spans.values() {
            if let Some(number) = span.unknown_to() {
                first = Some(first.unwrap_or(number).min(number));
            }
        }
        first
    }

    /// Whether calls are judged, and none of them uses the root handle.
    pub(crate) fn lacks_root(&self) -> bool {
        self.has_calls && !self.uses_root
    }

    /// When a handle was given and used, so far.
    fn span_of(&self, handle: &FileHandle) -> HandleSpan {
        match self.spans.get(handle.as_slice()) {
            Some(span) => *span,
            None => HandleSpan::NEW,
        }
    }

    /// Sets when a handle was given and used.
    fn set(&mut self, handle: &FileHandle, span: HandleSpan) -> Result<(), AllocError> {
        if let Some(there) = self.spans.get_mut(handle.as_slice()) {
            *there = span;
            return Ok(());
        }
        let key = Vec::from_slice(self.alloc, handle.as_slice())?;
        self.spans.insert(key, span)?;
        Ok(())
    }

    /// Notes that a reply gives a handle.
    fn give(&mut self, handle: &FileHandle, event: u64) -> Result<(), AllocError> {
        let span = self.span_of(handle);
        let given = Some(span.given.unwrap_or(event).min(event));
        self.set(
            handle,
            HandleSpan {
                given,
                used: span.used,
            },
        )
    }

    /// Notes that a successful call uses a handle. Calls are noted in the order in which they began.
    fn employ(&mut self, handle: &FileHandle, by: HandleUse) -> Result<(), AllocError> {
        let span = self.span_of(handle);
        if span.used.is_some() {
            return Ok(());
        }
        self.set(
            handle,
            HandleSpan {
                given: span.given,
                used: Some(by),
            },
        )
    }

    /// Notes the handles in a list of entries.
    fn give_listed(&mut self, list: &ReadDirPlusSuccess, event: u64) -> Result<(), AllocError> {
        for entry in list.entries.as_slice() {
            if let Some(handle) = &entry.object {
                self.give(handle, event)?;
            }
        }
        Ok(())
    }

    /// Notes the handle of what was made.
    fn give_made(&mut self, made: &CreateSuccess, event: u64) -> Result<(), AllocError> {
        match &made.object {
            Some(handle) => self.give(handle, event),
            None => Ok(()),
        }
    }

    /// Notes the handles that a reply gives.
    fn give_all(&mut self, reply: &NfsReply, event: u64) -> Result<(), AllocError> {
        match reply {
            NfsReply::Lookup(Answer::Done(success)) => self.give(&success.object, event),
            NfsReply::Create(Answer::Done(success))
            | NfsReply::MkDir(Answer::Done(success))
            | NfsReply::SymLink(Answer::Done(success)) => self.give_made(success, event),
            NfsReply::ReadDirPlus(Answer::Done(success)) => self.give_listed(success, event),
            _ => Ok(()),
        }
    }

    /// Notes that there is a judged call, and whether it uses the root handle.
    fn note_judged(&mut self, call: &NfsCall) {
        self.has_calls = true;
        let is_second = match second_handle(call) {
            Some(handle) => handle.as_slice() == self.root,
            None => false,
        };
        if is_second || first_handle(call).as_slice() == self.root {
            self.uses_root = true;
        }
    }

    /// Notes the handles that a successful call uses.
    fn employ_all(&mut self, call: &NfsCall, by: HandleUse) -> Result<(), AllocError> {
        self.employ(first_handle(call), by)?;
        match second_handle(call) {
            Some(handle) => self.employ(handle, by),
            None => Ok(()),
        }
    }

    /// Notes the handles of a call and of its reply.
    fn note(&mut self, recorded: &RecordedCall, number: u64) -> Result<(), AllocError> {
        let Meaning::Judged(call) = &recorded.meaning else {
            return Ok(());
        };
        self.note_judged(call);
        let Some(Outcome::Received(reply)) = &recorded.outcome else {
            return Ok(());
        };
        if reply.failure().is_some() {
            return Ok(());
        }
        let begin = recorded.begin;
        self.employ_all(call, HandleUse { number, begin })?;
        match recorded.end {
            Some(event) => self.give_all(reply, event),
            None => Ok(()),
        }
    }
}
