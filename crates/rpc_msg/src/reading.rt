// A message as a call.
ghost use Rattle.std.specs.Prelude.{◌≡◌, ◌≢◌, ◌≤◌, ℕ, IfOk, Ok, Err};
ghost use Rattle.rpc_msg.specs.declared.fault.CallFault.{CallFault};
ghost use Rattle.rpc_msg.specs.Calls.{CallText, call_of};
ghost use Rattle.rpc_msg.specs.Views.{call_view};

use crate::parts::read_parts;
use crate::{Call, CallFault};
use bytes::Bytes;
use std::alloc::Global;

/// Reads a message as a call. The first fault in the order of the bytes decides; want of memory comes
/// only where the message is a call. The arguments share the message's memory.
pub fn read_call(alloc: Global, message: Bytes) -> Result<Call, CallFault>
    ensures ok { IfOk result (λ call. call_of message ≡ Ok (call_view call)) }
    ensures whole { IfOk result (λ call. call.whole ≡ message) }
    ensures few { IfOk result (λ call. call.caller.gid_count ≤ 16) }
    ensures fault { (fault : CallFault) → result ≡ Err fault → ((xid : ℕ) → fault ≢ CallFault.Memory xid)
        → call_of message ≡ Err fault }
    ensures memory { (xid : ℕ) → result ≡ Err (CallFault.Memory xid)
        → (call : CallText) × (call_of message ≡ Ok call) × (call.xid ≡ xid) }
{
    let parts = match read_parts(message.as_slice()) {
        Ok(parts) => parts,
        Err(fault) => return Err(fault),
    };
    let xid = parts.xid;
    let caller = parts.sender.caller;
    // The arguments are the end of the message.
    let end = message.len();
    let place = end - parts.args.len();
    let Ok(host) = Bytes::copy_from_slice(alloc, parts.sender.host) else {
        return Err(CallFault::Memory { xid });
    };
    let Ok(args) = message.slice(place..end) else {
        return Err(CallFault::Memory { xid });
    };
    Ok(Call {
        xid,
        prog: parts.prog,
        vers: parts.vers,
        proc_no: parts.proc_no,
        caller,
        host,
        args,
        whole: message,
    })
}
