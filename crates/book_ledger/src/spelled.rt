//! Replies whose messages are made ahead of the book.

ghost use Rattle.std.specs.Prelude.{◌≡◌, IfOk};
ghost use Rattle.book_laws.specs.Steps.{reply_message};
ghost use Rattle.book_ledger.specs.Spelling.{IsSpelled};

use crate::placing::reply_message;
use nfs_history::Message;
use nfs3_types::NfsReply;
use std::alloc::{AllocError, Global};
use std::marker::Model;

/// A reply with its message, made ahead of the book's lock: the bytes that go out, those that the history keeps, and the reply that it
/// keeps beside them.
pub struct SpelledReply {
    xid: u32,
    reply: NfsReply,
    message: Message,
    answer: Vec<u8>,
}

impl Model for SpelledReply {
    ghost use Rattle.std.specs.Prelude.{◌≡◌};
    ghost use Rattle.book_ledger.specs.Spelling.{Spelled, IsSpelled};

    ghost Value = { Spelled };

    ghost view = { λ s. record { xid = s.xid; reply = s.reply } };

    // Both messages are the reply's.
    ghost invariant = { λ s. IsSpelled s.xid s.reply s.answer.items × (s.message ≡ s.answer.items) };
}

impl Drop for SpelledReply {
    fn drop(self) {
        let SpelledReply {
            xid: _,
            reply,
            message,
            answer,
        } = self;
        drop(reply);
        drop(message);
        drop(answer);
    }
}

impl SpelledReply {
    /// The message of a reply to a call with this transaction number, and a copy of the reply.
    pub fn new(alloc: Global, xid: u32, reply: &NfsReply) -> Result<SpelledReply, AllocError>
        ensures { IfOk result (λ spelled. spelled ≡ record { xid = xid; reply = reply.now }) }
    {
        let answer = reply_message(alloc, xid, reply)?;
        let message = Message::from_slice(alloc, answer.as_slice())?;
        Ok(SpelledReply {
            xid,
            reply: reply.copy()?,
            message,
            answer,
        })
    }

    /// The transaction number of the call that it answers.
    pub fn xid(&self) -> u32
        ensures { result ≡ self.now.xid }
    {
        self.xid
    }

    /// The message.
    pub fn answer(&self) -> &[u8]
        ensures { IsSpelled self.now.xid self.now.reply result.now }
    {
        self.answer.as_slice()
    }

    /// The reply and the message that a history keeps, and the message that goes out.
    pub(crate) fn into_parts(self) -> (NfsReply, Message, Vec<u8>)
        ensures reply { result.0 ≡ self.reply }
        ensures message { result.1 ≡ result.2.items }
        ensures spelled { IsSpelled self.xid self.reply result.2.items }
    {
        let SpelledReply {
            xid: _,
            reply,
            message,
            answer,
        } = self;
        (reply, message, answer)
    }
}
