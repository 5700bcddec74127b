//! Where a READ may succeed with these bytes (RFC 1813, section 3.3.6).

ghost use Rattle.std.specs.Prelude.{◌≡◌};
ghost use Rattle.tree_answers.specs.Look.{read_is_right, read_is_legal};

use nfs3_types::{Answer, NfsReply, ReadArguments, ReadSuccess};
use tree_handles::tree_nodes::reaches_end;
use tree_handles::{View, file_of};
use tree_stores::FileBytes;

/// Whether the answer is what a read of these bytes gives.
fn is_right(bytes: &FileBytes, call: &ReadArguments, success: &ReadSuccess) -> bool
    ensures { result ≡ read_is_right bytes.now call.now success.now }
{
    let answered = success.bytes.as_slice();
    let count = answered.len();
    success.count as usize == count
        && count <= call.count as usize
        && bytes.has_at(call.offset, answered)
        && success.eof == reaches_end(bytes.len() as usize, call.offset, count)
}

/// A READ succeeds with the file's bytes.
pub fn read_is_legal(view: &View<'_>, call: &ReadArguments, reply: &NfsReply) -> bool
    ensures { result ≡ read_is_legal view.now.binds.now view.now.nodes.now call.now reply.now }
{
    match reply {
        NfsReply::Read(Answer::Done(success)) => {
            match file_of(view, &call.file) {
                Some(entry) => is_right(&entry.file.bytes, call, success),
                None => false,
            }
        }
        _ => false,
    }
}
