// What a message is answered with.
ghost use Rattle.std.specs.Prelude.{◌≡◌, ◌≢◌, ◌≤◌, ℕ, List, IfOk, OnOk, OnErr, Ok, Err, length};
ghost use Rattle.rpc_msg.specs.declared.fault.CallFault.{CallFault};
ghost use Rattle.rpc_msg.specs.Calls.{call_of};
ghost use Rattle.rpc_msg.specs.Views.{call_view};
ghost use Rattle.portmap.specs.declared.ports.Mapping.{Mapping};
ghost use Rattle.portmap.specs.declared.message.MessageReply.{MessageReply};
ghost use Rattle.portmap.specs.Requests.{request_of, call_reply, table_after, table_after_call};
ghost use Rattle.portmap.specs.Answers.{reply_record};
ghost use Rattle.portmap.specs.Links.{IsMessageReply, IsReplyOf};

use crate::ports::Ports;
use crate::reply::{record_of, refusal_record, request_record};
use crate::request::{Request, read_request};
use bytes::Bytes;
use rpc_msg::numbers::{AUTH_BADCRED, AUTH_REJECTEDCRED};
use rpc_msg::{Call, CallFault, auth_error, read_call, rpc_mismatch};
use std::alloc::Global;
use xdr::NoMemory;

/// What a message is answered with.
#[derive(Drop)]
pub enum MessageReply {
    /// It is no call, and its link ends.
    NoCall,
    /// The reply, as a record.
    Record(Vec<u8>),
    /// Memory was wanting for the request of this number, and it wasn't done.
    Refused { xid: u32 },
}

// Does what a request asks for. Takes memory, and does nothing for want of it.
fn do_request(ports: &mut Ports, client: u32, request: &Request) -> Result<(), NoMemory>
    ensures ok { OnOk result (ports.new ≡ table_after ports.old client request.now) }
    ensures err { OnErr result (ports.new ≡ ports.old) }
{
    match request {
        Request::Set(mapping) => {
            ports.set(client, *mapping)?;
        }
        Request::Unset(mapping) => {
            ports.unset(client, mapping);
        }
        Request::Null | Request::GetPort(_) | Request::Dump => {}
    }
    Ok(())
}

// Answers a call. The reply is made first, so that a request is done only where it is there.
fn answer_call(
    alloc: Global,
    ports: &mut Ports,
    client: u32,
    call: &Call,
) -> Result<Vec<u8>, NoMemory>
    ensures ok { IfOk result (λ bytes. bytes.items ≡ reply_record (call_reply ports.old client call.now.xid (request_of (call_view call.now)))) }
    ensures table { OnOk result (ports.new ≡ table_after_call ports.old client (request_of (call_view call.now))) }
    ensures err { OnErr result (ports.new ≡ ports.old) }
{
    match read_request(call) {
        Ok(request) => {
            let record = request_record(alloc, ports, client, call.xid, &request)?;
            do_request(ports, client, &request)?;
            Ok(record)
        }
        Err(stat) => refusal_record(alloc, call.xid, stat),
    }
}

// A reply without results.
fn reply(alloc: Global, xid: u32, head: &[u8]) -> MessageReply
    requires short { length head.now ≤ 24 }
    ensures { IsReplyOf result xid head.now }
{
    match record_of(alloc, head, &[]) {
        Ok(record) => MessageReply::Record(record),
        Err(_) => MessageReply::Refused { xid },
    }
}

// What a message is answered with that can't be read as a call.
fn answer_fault(alloc: Global, fault: CallFault) -> MessageReply
    ensures read { (client : ℕ) (table : List Mapping) → ((xid : ℕ) → fault ≢ CallFault.Memory xid)
        → IsMessageReply result client table (Err fault) table }
    ensures memory { (xid : ℕ) → fault ≡ CallFault.Memory xid → result ≡ MessageReply.Refused xid }
{
    match fault {
        CallFault::NotCall | CallFault::Short => MessageReply::NoCall,
        CallFault::RpcMismatch { xid } => reply(alloc, xid, &rpc_mismatch(xid)),
        CallFault::BadCred { xid } => reply(alloc, xid, &auth_error(xid, AUTH_BADCRED)),
        CallFault::RejectedCred { xid } => reply(alloc, xid, &auth_error(xid, AUTH_REJECTEDCRED)),
        CallFault::Memory { xid } => MessageReply::Refused { xid },
    }
}

/// Answers a message, and does what it asks for. Takes memory, and does nothing for want of it.
pub fn answer_message(alloc: Global, ports: &mut Ports, client: u32, message: Bytes) -> MessageReply
    ensures { IsMessageReply result client ports.old (call_of message) ports.new }
{
    match read_call(alloc, message) {
        Ok(call) => match answer_call(alloc, ports, client, &call) {
            Ok(record) => MessageReply::Record(record),
            Err(_) => MessageReply::Refused { xid: call.xid },
        },
        Err(fault) => answer_fault(alloc, fault),
    }
}
