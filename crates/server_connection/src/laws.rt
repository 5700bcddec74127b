//! What is mounted stands in no history: the law is the contract of a function that does nothing.

ghost use Rattle.std.specs.Prelude.{IsTrue};
ghost use Rattle.rpc_reader.specs.Values.{CallValue};
ghost use Rattle.nfs3_types.specs.declared.calls.NfsCall.{NfsCall};
ghost use Rattle.server_requests.specs.Mounting.{is_mountable};
ghost use Rattle.server_requests.specs.Handling.{IsRecorded};

/// No call that is answered ahead of a server, so that stock clients can mount it, is one that the server records.
pub fn no_mounted_call_is_recorded()
    ensures { (head : CallValue) (call : NfsCall) → IsTrue (is_mountable head) → ¬ IsRecorded head call }
{}
