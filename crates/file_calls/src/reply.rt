// Replies, and the lines of the output.
ghost use Rattle.std.specs.Prelude.{◌≡◌, ◌++◌, IfOk, OnOk, length, string_bytes};
ghost use Rattle.rpc_record.specs.Records.{mark_text};
ghost use Rattle.rpc_msg.specs.Replies.{accepted_text};
ghost use Rattle.tickets.specs.Answers.{IsPlain, body_of};
ghost use Rattle.xdr.specs.Rows.{text};
ghost use Rattle.nfs_wire.specs.Heads.{body_data, body_results};
ghost use Rattle.nfs_wire.specs.Results.{results_row};
ghost use Rattle.file_calls.specs.Replies.{generation, hex_line, reply_bytes, reply_line, closed_line, text_in};

use nfs_wire::body_head;
use rpc_msg::{accepted_head, system_err};
use rpc_record::mark;
use std::alloc::{AllocError, Global};
use std::fmt::Write;
use tickets::Body;
use xdr::{NoMemory, Writer};

/// The verifier of the first generation.
const VERIFIER: u64 = 1;

const SUCCESS: u32 = 0;

// The data of a READ that was done; other answers have none.
fn data_of(body: &Body) -> &[u8]
    ensures { result.now ≡ body_data body.now }
{
    match body {
        Body::Read {
            status: 0,
            bytes,
            ..
        } => bytes,
        _ => &[],
    }
}

// An accepted reply with the results of an answer that is neither a text nor SYSTEM_ERR.
fn put_results(reply: &mut Writer, xid: u32, body: &Body) -> Result<(), NoMemory>
    ensures { OnOk result (reply.new ≡ reply.old ++ accepted_text xid 0 ++ text (results_row (body_results body.now generation))) }
{
    let data = data_of(body);
    if data.len() > 0xffff_ffff {
        return Err(NoMemory);
    }
    reply.put_fixed(&accepted_head(xid, SUCCESS))?;
    reply.put_fixed(body_head(body, VERIFIER).bytes())?;
    reply.put_fixed(data)
}

/// The reply that an answer is. Takes memory.
#[tactic(auto, unfolding(crate::specs::Replies::reply_bytes))]
pub fn body_reply(alloc: Global, xid: u32, body: &Body) -> Result<Vec<u8>, AllocError>
    requires plain { IsPlain body.now }
    ensures { IfOk result (λ reply. reply.items ≡ reply_bytes xid (body_of body.now)) }
{
    if matches!(body, Body::SystemErr) {
        return Vec::from_slice(alloc, &system_err(xid));
    }
    let mut reply = Writer::new(alloc);
    match put_results(&mut reply, xid, body) {
        Ok(()) => Ok(reply.into_vec()),
        Err(_) => Err(AllocError),
    }
}

#[tactic(auto, unfolding(crate::specs::Replies::hex_line))]
fn push_line(out: &mut String, conn: u32, digits: &str) -> Result<(), AllocError>
    ensures { OnOk result (string_bytes out.new ≡ string_bytes out.old ++ hex_line conn digits.now) }
{
    write!(out, "reply {conn} {digits}\n")
}

// A reply as one fragment (RFC 5531 section 11).
fn marked(alloc: Global, reply: &[u8]) -> Result<Vec<u8>, AllocError>
    ensures { IfOk result (λ bytes. bytes.items ≡ mark_text (length reply.now) ++ reply.now) }
{
    let mut bytes = Vec::from_slice(alloc, &mark((reply.len() % 0x8000_0000) as u32))?;
    bytes.extend_from_slice(reply)?;
    Ok(bytes)
}

/// The output's line of a reply.
pub fn line(alloc: Global, conn: u32, reply: &[u8]) -> Result<String, AllocError>
    ensures { IfOk result (λ text. string_bytes text ≡ reply_line conn reply.now) }
{
    let digits = hex::encode(alloc, marked(alloc, reply)?)?;
    let mut out = String::new(alloc);
    push_line(&mut out, conn, digits.as_str())?;
    Ok(out)
}

/// The line of an answer's reply. Takes memory.
pub fn reply_text(alloc: Global, conn: u32, xid: u32, body: &Body) -> Result<String, AllocError>
    requires plain { IsPlain body.now }
    ensures { IfOk result (λ text. string_bytes text ≡ reply_line conn (reply_bytes xid (body_of body.now))) }
{
    let reply = body_reply(alloc, xid, body)?;
    line(alloc, conn, &reply)
}

/// The line of a reply that is a text. Takes memory.
pub fn said_text(alloc: Global, conn: u32, body: Body) -> Result<String, AllocError>
    ensures { IfOk result (λ text. string_bytes text ≡ reply_line conn (text_in body)) }
{
    match body {
        Body::Text(reply) => line(alloc, conn, &reply),
        _ => line(alloc, conn, &[]),
    }
}

/// The output's line of a connection that ended. Takes memory.
#[tactic(auto, unfolding(crate::specs::Replies::closed_line))]
pub fn closed_text(alloc: Global, conn: u32) -> Result<String, AllocError>
    ensures { IfOk result (λ text. string_bytes text ≡ closed_line conn) }
{
    let mut out = String::new(alloc);
    write!(out, "closed {conn}\n")?;
    Ok(out)
}
