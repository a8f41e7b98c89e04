// Replies as records.
ghost use Rattle.std.specs.Prelude.{◌≡◌, ◌≤◌, ◌++◌, IfOk, OnOk, length};
ghost use Rattle.rpc_msg.specs.Numbers.{success, system_error};
ghost use Rattle.rpc_msg.specs.Replies.{accepted_text};
ghost use Rattle.xdr.specs.Lists.{list_row};
ghost use Rattle.xdr.specs.Rows.{joined_text, text};
ghost use Rattle.portmap.specs.Requests.{mapping_row, refusal_row, request_row};
ghost use Rattle.portmap.specs.Answers.{reply_record};

use crate::ports::{Mapping, Ports};
use crate::request::Request;
use rpc_msg::numbers::{PROG_MISMATCH, SUCCESS};
use rpc_msg::{accepted_head, system_err};
use rpc_record::mark;
use std::alloc::{AllocError, Global};
use xdr::{NoMemory, Writer};

// A reply's head and its results, as one fragment (RFC 5531 section 11).
fn join_record(alloc: Global, head: &[u8], results: &[u8]) -> Result<Vec<u8>, AllocError>
    requires short { length head.now ≤ 24 }
    ensures { IfOk result (λ bytes. bytes.items ≡ reply_record (head.now ++ results.now)) }
{
    let len = head.len() + results.len();
    let mut bytes = Vec::from_slice(alloc, &mark((len % 0x8000_0000) as u32))?;
    bytes.extend_from_slice(head)?;
    bytes.extend_from_slice(results)?;
    Ok(bytes)
}

/// The record of a reply, by its head and its results. Takes memory.
pub fn record_of(alloc: Global, head: &[u8], results: &[u8]) -> Result<Vec<u8>, NoMemory>
    requires short { length head.now ≤ 24 }
    ensures { IfOk result (λ bytes. bytes.items ≡ reply_record (head.now ++ results.now)) }
{
    join_record(alloc, head, results).map_err(|_| NoMemory)
}

// The entries of a table, each behind 1, and 0 behind the last one (RFC 1833 section 3.1).
#[tactic(auto, unfolding(xdr::specs::Items::bool_text))]
fn put_entries(writer: &mut Writer, entries: &[Mapping]) -> Result<(), NoMemory>
    ensures { OnOk result (writer.new ≡ joined_text writer.old (list_row mapping_row entries.now)) }
{
    for entry in entries {
        writer.put_bool(true)?;
        put_mapping(writer, entry)?;
    }
    writer.put_bool(false)
}

fn put_mapping(writer: &mut Writer, mapping: &Mapping) -> Result<(), NoMemory>
    ensures { OnOk result (writer.new ≡ joined_text writer.old (mapping_row mapping.now)) }
{
    writer.put_u32(mapping.prog)?;
    writer.put_u32(mapping.vers)?;
    writer.put_u32(mapping.prot)?;
    writer.put_u32(mapping.port)
}

// The results of a request.
#[tactic(auto, unfolding(xdr::specs::Items::bool_text))]
fn put_results(
    writer: &mut Writer,
    ports: &Ports,
    client: u32,
    request: &Request,
) -> Result<(), NoMemory>
    ensures { OnOk result (writer.new ≡ joined_text writer.old (request_row ports.now client request.now)) }
{
    match request {
        Request::Null => Ok(()),
        Request::Set(mapping) => writer.put_bool(ports.may_set(client, mapping)),
        Request::Unset(mapping) => writer.put_bool(ports.may_unset(client, mapping)),
        Request::GetPort(mapping) => writer.put_u32(ports.port_of(mapping)),
        Request::Dump => put_entries(writer, ports.entries()),
    }
}

/// The record of the reply to a request, which isn't done yet. Takes memory.
pub fn request_record(
    alloc: Global,
    ports: &Ports,
    client: u32,
    xid: u32,
    request: &Request,
) -> Result<Vec<u8>, NoMemory>
    ensures { IfOk result (λ bytes. bytes.items ≡ reply_record (accepted_text xid success ++ text (request_row ports.now client request.now))) }
{
    let mut results = Writer::new(alloc);
    put_results(&mut results, ports, client, request)?;
    record_of(alloc, &accepted_head(xid, SUCCESS), &results.into_vec())
}

/// The record of the reply to a call that is refused with an `accept_stat`. Takes memory.
#[tactic(auto, unfolding(xdr::specs::Items::word))]
pub fn refusal_record(alloc: Global, xid: u32, stat: u32) -> Result<Vec<u8>, NoMemory>
    ensures { IfOk result (λ bytes. bytes.items ≡ reply_record (accepted_text xid stat ++ text (refusal_row stat))) }
{
    let head = accepted_head(xid, stat);
    if stat == PROG_MISMATCH {
        record_of(alloc, &head, &[0, 0, 0, 2, 0, 0, 0, 2])
    } else {
        record_of(alloc, &head, &[])
    }
}

/// The record of the reply to a request for which memory was wanting. Takes none.
pub fn starved_record(xid: u32) -> [u8; 28]
    ensures { result ≡ reply_record (accepted_text xid system_error) }
{
    let mut bytes = [0; 28];
    bytes[..4].copy_from_slice(&mark(24));
    bytes[4..].copy_from_slice(&system_err(xid));
    bytes
}
