//! From what stops an explorer to what its user is told.

use crate::explorer::Explorer;
use crate::paths::{path_of, push_name};
use crate::refusal::{Cause, Refusal, Spot, Stop, WalkFault};
use nfs3_types::{NfsCall, NfsReply};
use std::alloc::AllocError;
use tree_starts::StartFault;

/// How many names of an export are told that isn't empty.
const NAMES_TOLD: usize = 5;

impl Explorer {
    /// Takes in an exchange, which has this index.
    pub(crate) fn learn(
        &mut self,
        index: usize,
        call: &NfsCall,
        reply: &NfsReply,
    ) -> Result<(), WalkFault> {
        if !call.is_answered_by(reply) {
            return Err(self.fault(Stop::at(Cause::WrongReply, self.spot())));
        }
        match self.take(index, reply) {
            Ok(()) => Ok(()),
            Err(stop) => Err(self.fault(stop)),
        }
    }

    /// What the user is told.
    pub(crate) fn fault(&self, stop: Stop) -> WalkFault {
        match stop {
            Stop::Refused { cause, spot, other } => match self.refusal(cause, spot, other) {
                Ok(refusal) => WalkFault::Refused(refusal),
                Err(_) => WalkFault::NoMemory,
            },
            Stop::NoMemory => WalkFault::NoMemory,
        }
    }

    /// The walk isn't at its end.
    pub(crate) fn unfinished(&self) -> WalkFault {
        self.fault(Stop::at(Cause::Unfinished, Spot::Account(0)))
    }

    /// The objects are no start.
    pub(crate) fn no_start(&self, fault: StartFault) -> WalkFault {
        let stop = match fault {
            StartFault::BadStart(number) | StartFault::TooLarge(number) => {
                Stop::at(Cause::NoStart(fault), Spot::Account(number as usize))
            }
            StartFault::NoMemory => Stop::NoMemory,
        };
        self.fault(stop)
    }

    fn refusal(
        &self,
        cause: Cause,
        spot: Spot,
        other: Option<usize>,
    ) -> Result<Refusal, AllocError> {
        let path = self.path(spot)?;
        let others = match other {
            Some(number) => self.path(Spot::Account(number))?,
            None => self.first_names(cause)?,
        };
        Ok(Refusal {
            cause,
            path,
            others,
        })
    }

    fn path(&self, spot: Spot) -> Result<String, AllocError> {
        let accounts = self.known.accounts.as_slice();
        match spot {
            Spot::Account(number) => path_of(self.alloc, accounts, number, None),
            Spot::Entry(index) => {
                let name = match self.list.entries.get(index) {
                    Some(entry) => Some(entry.name.as_slice()),
                    None => None,
                };
                path_of(self.alloc, accounts, self.listed, name)
            }
        }
    }

    /// The first names of an export that isn't empty.
    fn first_names(&self, cause: Cause) -> Result<String, AllocError> {
        let mut text = String::new(self.alloc);
        if cause != Cause::NotEmpty {
            return Ok(text);
        }
        for (index, entry) in self.list.entries.iter().enumerate() {
            if index == NAMES_TOLD {
                text.push_str(", ..")?;
                break;
            }
            if index > 0 {
                text.push_str(", ")?;
            }
            push_name(&mut text, entry.name.as_slice())?;
        }
        Ok(text)
    }
}
