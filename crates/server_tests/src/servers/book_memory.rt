//! A book for which memory is wanting once.

use nfs3_msgs::read_result;
use nfs3_types::NfsReply;
use recorder::{
    AnswerFault, BeginFault, Book, CrashFault, FlushFault, JournalDevice, PlaceFault, SimDevice,
    Token,
};
use std::alloc::Global;
use std::test::Fail;
use witness_check::{Verdict, check};

/// A CREATE (UNCHECKED, without attributes) of `a` in the root, of transaction 1.
const CREATE: &[u8] =
    b"\0\0\0\x01\0\0\0\0\0\0\0\x02\0\x01\x86\xa3\0\0\0\x03\0\0\0\x08\0\0\0\0\0\0\0\0\0\0\0\0\0\0\0\0\0\0\0\x08\0\0\0\0\0\0\0\0\
    \0\0\0\x01a\0\0\0\0\0\0\0\0\0\0\0\0\0\0\0\0\0\0\0\0\0\0\0\0\0\0\0\0\0\0\0";

/// The result of a CREATE that made object 1.
const MADE: &[u8] = b"\0\0\0\0\0\0\0\x01\0\0\0\x08\0\0\0\0\0\0\0\x01\0\0\0\0\0\0\0\0\0\0\0\0";

/// The reply to the CREATE; asked for again where memory was wanting.
fn reply(alloc: Global) -> Result<NfsReply, Fail> {
    match read_result(alloc, 8, MADE) {
        Ok(reply) => Ok(reply),
        Err(_) => Ok(read_result(alloc, 8, MADE)?),
    }
}

/// A new book.
fn book(alloc: Global) -> Result<Book<SimDevice>, Fail> {
    match Book::new(alloc, SimDevice::new(alloc, None, None, None)) {
        Ok(book) => Ok(book),
        Err(_) => Ok(Book::new(alloc, SimDevice::new(alloc, None, None, None))?),
    }
}

/// Begins the CREATE.
fn begin(book: &mut Book<SimDevice>, lane: u32) -> Result<Token, BeginFault> {
    match book.begin(lane, CREATE) {
        Err(BeginFault::NoMemory) => book.begin(lane, CREATE),
        begun => begun,
    }
}

/// Answers a call: how long the message is.
fn answer(book: &mut Book<SimDevice>, token: Token) -> Result<usize, AnswerFault> {
    match book.answer(token) {
        Ok(message) => Ok(message.len()),
        Err(AnswerFault::NoMemory) => Ok(book.answer(token)?.len()),
        Err(fault) => Err(fault),
    }
}

/// Whether the book's certificate is a witness of its history.
fn explains(alloc: Global, book: &Book<SimDevice>) -> Result<bool, Fail> {
    let certificate = match book.certificate() {
        Ok(certificate) => certificate,
        Err(_) => book.certificate()?,
    };
    let verdict = match check(alloc, book.history(), &certificate) {
        Ok(verdict) => verdict,
        Err(_) => check(alloc, book.history(), &certificate)?,
    };
    Ok(matches!(verdict, Verdict::Yes))
}

/// Whether a CREATE is placed and answered; where memory was wanting for its place, whether the book is down.
fn is_served(alloc: Global, book: &mut Book<SimDevice>, token: Token) -> Result<bool, Fail> {
    match book.place(token, reply(alloc)?) {
        Ok(()) => {
            book.flush()?;
            Ok(answer(book, token)? == 56)
        }
        Err(fault) => Ok(fault == PlaceFault::NoMemory && book.flush() == Err(FlushFault::Down)),
    }
}

/// Whether a crash that keeps all records lets calls begin, or else leaves the book down for good.
fn is_ended(book: &mut Book<SimDevice>) -> bool {
    let keep = book.device().len();
    let crashed = book.crash(keep);
    let begun = begin(book, 2);
    match crashed {
        Ok(()) => begun.is_ok(),
        Err(fault) => fault == CrashFault::NoMemory && begun == Err(BeginFault::Down),
    }
}

// It passes as well where any one allocation is refused, as by `rt try --test --fail-alloc N`.
#[test]
fn a_refused_growth_leaves_a_book_that_explains_itself(rt: HostRuntime) -> Result<(), Fail> {
    let alloc = rt.alloc();
    let mut book = book(alloc)?;
    let token = begin(&mut book, 1)?;
    assert!(rt; is_served(alloc, &mut book, token)?);
    assert!(rt; explains(alloc, &book)?);
    assert!(rt; is_ended(&mut book));
    assert!(rt; explains(alloc, &book)?);
    Ok(())
}
