//! What was met in the calls.

use nfs3_types::{
    CreateArguments, CreateMode, DirectoryName, NfsCall, NfsReply, StableHow, Verifier,
    WriteArguments,
};
use night_calls::{Stamp, whose};

/// The judged procedures, by their numbers (RFC 1813, section 3.3).
const JUDGED: [usize; 15] = [1, 2, 3, 5, 6, 7, 8, 9, 10, 12, 13, 14, 16, 17, 21];

/// NOENT, EXIST, NOTDIR, ISDIR, INVAL, NOTEMPTY and STALE, by their numbers (RFC 1813, section 2.6).
const STATUSES: [usize; 7] = [2, 17, 20, 21, 22, 66, 70];

/// Where the features of calls are counted. The first is of CREATE: UNCHECKED with and without a size, GUARDED, EXCLUSIVE, and EXCLUSIVE with the verifier
/// of an earlier one of the client.
const CREATES: usize = 0;
/// UNSTABLE, DATA_SYNC, FILE_SYNC.
const LEVELS: usize = 5;
/// COMMIT of the whole, and of a part.
const COMMITS: usize = 8;
/// SETATTR with a size, without one, with a guard.
const SETS: usize = 10;
/// Pages after the first of READDIR and READDIRPLUS.
const PAGES: usize = 13;
/// WRITEs of at least 31 bytes whose calls were told from sixteen bytes.
const TOLD: usize = 15;
/// Names of 255 bytes, with bytes above 127, with spaces. Not every mix has these and what comes after them.
const NAMES: usize = 16;
/// RENAME to another directory.
const MOVES: usize = 19;

const FEATURES: usize = 20;

/// How often each was met.
#[derive(Clone, Copy)]
pub(super) struct Seen {
    /// Successes by the number of the procedure.
    done: [u32; 22],
    features: [u32; FEATURES],
    failures: [u32; 80],
    /// The verifier of each client's last exclusive CREATE.
    last: [Verifier; 4],
    /// WRITEs of at least 31 bytes whose calls weren't told from sixteen bytes.
    pub(super) untold: u32,
    /// A number that follows from all calls.
    pub(super) trace: u64,
}

fn add(counts: &mut [u32], index: usize) {
    if let Some(count) = counts.get_mut(index) {
        *count = count.saturating_add(1);
    }
}

/// Which of these isn't counted.
fn first_zero(counts: &[u32], wanted: &[usize]) -> Option<usize> {
    for index in wanted {
        if counts.get(*index).copied().unwrap_or(0) == 0 {
            return Some(*index);
        }
    }
    None
}

impl Seen {
    pub(super) fn new() -> Seen {
        Seen {
            done: [0; 22],
            features: [0; FEATURES],
            failures: [0; 80],
            last: [Verifier { value: 0 }; 4],
            untold: 0,
            trace: 0,
        }
    }

    fn meet(&mut self, feature: usize) {
        add(self.features.as_mut_slice(), feature);
    }

    fn mix(&mut self, word: u64) {
        self.trace = (self.trace ^ word).wrapping_mul(0x0000_0100_0000_01b3);
    }

    fn mix_bytes(&mut self, bytes: &[u8]) {
        for byte in bytes {
            self.mix(u64::from(*byte));
        }
    }

    fn see_name(&mut self, place: &DirectoryName) {
        let name = place.name.as_slice();
        self.mix_bytes(name);
        if name.len() == 255 {
            self.meet(NAMES);
        }
        for byte in name {
            if *byte > 127 {
                self.meet(NAMES + 1);
            }
            if *byte == b' ' {
                self.meet(NAMES + 2);
            }
        }
    }

    fn see_verifier(&mut self, client: usize, verifier: Verifier) {
        if let Some(last) = self.last.get_mut(client) {
            let is_again = *last == verifier;
            *last = verifier;
            // The two that many calls have don't count.
            if is_again && verifier.value > 1 {
                self.meet(CREATES + 4);
            }
        }
    }

    pub(super) fn see(&mut self, stamp: Stamp, call: &NfsCall, reply: &NfsReply) {
        let procedure = call.procedure().number();
        self.mix(u64::from(procedure));
        match reply.failure() {
            None => add(self.done.as_mut_slice(), procedure as usize),
            Some(failure) => add(
                self.failures.as_mut_slice(),
                (failure.number() % 80) as usize,
            ),
        }
        self.see_arguments(stamp, call);
    }

    fn see_arguments(&mut self, stamp: Stamp, call: &NfsCall) {
        match call {
            NfsCall::SetAttr(arguments) => {
                match arguments.attributes.size {
                    Some(_) => self.meet(SETS),
                    None => self.meet(SETS + 1),
                }
                if arguments.guard.is_some() {
                    self.meet(SETS + 2);
                }
            }
            NfsCall::Write(arguments) => self.see_write(stamp, arguments),
            NfsCall::Create(arguments) => self.see_create(stamp, arguments),
            NfsCall::Rename(arguments) => {
                if arguments.from.directory.as_slice() != arguments.to.directory.as_slice() {
                    self.meet(MOVES);
                }
                self.see_name(&arguments.to);
            }
            NfsCall::Commit(arguments) => {
                if arguments.offset == 0 && arguments.count == 0 {
                    self.meet(COMMITS);
                } else {
                    self.meet(COMMITS + 1);
                }
            }
            NfsCall::ReadDir(arguments) if arguments.cookie != 0 => self.meet(PAGES),
            NfsCall::ReadDirPlus(arguments) if arguments.cookie != 0 => self.meet(PAGES + 1),
            _ => {}
        }
    }

    fn see_write(&mut self, stamp: Stamp, arguments: &WriteArguments) {
        self.meet(match arguments.level {
            StableHow::Unstable => LEVELS,
            StableHow::DataSync => LEVELS + 1,
            StableHow::FileSync => LEVELS + 2,
        });
        self.mix(arguments.offset);
        self.mix_bytes(arguments.bytes.as_slice());
        match told(stamp, arguments.offset, arguments.bytes.as_slice()) {
            Some(true) => self.meet(TOLD),
            Some(false) => self.untold = self.untold.saturating_add(1),
            None => {}
        }
    }

    fn see_create(&mut self, stamp: Stamp, arguments: &CreateArguments) {
        match arguments.mode {
            CreateMode::Unchecked(attributes) if attributes.size.is_some() => self.meet(CREATES),
            CreateMode::Unchecked(_) => self.meet(CREATES + 1),
            CreateMode::Guarded(_) => self.meet(CREATES + 2),
            CreateMode::Exclusive(verifier) => {
                self.meet(CREATES + 3);
                self.see_verifier(stamp.client as usize, verifier);
            }
        }
        self.see_name(&arguments.place);
    }

    /// What wasn't met: a success of a procedure or a status by its number, or a feature by its place.
    pub(super) fn missing(&self) -> Option<(&'static str, usize)> {
        if let Some(procedure) = first_zero(self.done.as_slice(), &JUDGED) {
            return Some(("success", procedure));
        }
        if let Some(status) = first_zero(self.failures.as_slice(), &STATUSES) {
            return Some(("status", status));
        }
        for (feature, count) in self.features.iter().enumerate() {
            if feature < NAMES && *count == 0 {
                return Some(("feature", feature));
            }
        }
        None
    }

    /// Whether each kind of name was met, and a RENAME to another directory.
    pub(super) fn has_moves_and_names(&self) -> bool {
        first_zero(
            self.features.as_slice(),
            &[NAMES, NAMES + 1, NAMES + 2, MOVES],
        )
        .is_none()
    }
}

/// Whether sixteen bytes of a WRITE tell its call; nothing if it is too short to have them.
fn told(stamp: Stamp, offset: u64, bytes: &[u8]) -> Option<bool> {
    let skipped = (16 - offset % 16) % 16;
    let rest = bytes.get(skipped as usize..)?;
    let block = rest.get(..16)?;
    let who = whose(stamp.seed, offset.saturating_add(skipped), block);
    Some(who == Some((stamp.client, stamp.call)))
}
