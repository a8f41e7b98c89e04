// What a message of a connection asks for.
ghost use Rattle.std.specs.Prelude.{◌≡◌, ◌≤◌, false, true, ℕ, IfErr, IfOk, OnErr, length};
ghost use Rattle.tickets.specs.Answers.{IsPlain, body_of};
ghost use Rattle.tickets.specs.declared.answer.Body.TheVariants.{Write as WriteBody};
ghost use Rattle.gw_model.specs.File.{NotWritten};
ghost use Rattle.gw_model.specs.Statuses.{jukebox};
ghost use Rattle.file_requests.specs.Targets.{message_target, target_by, request_target, reply_target, write_target, ends_connection, is_ending, IsFitting, IsRequestOf};
ghost use Rattle.gw_config.specs.Seen.{settings_in};
ghost use Rattle.file_requests.specs.Messages.{is_file};
ghost use Rattle.file_requests.specs.declared.message.Asked.TheVariants as asked;

use crate::message::{
    Asked, CommitArgs, ReadArgs, Refused, WriteArgs, handle_file, read_message, write_file,
};
use bytes::Bytes;
use file_calls::{CommitCall, ReadCall, WriteCall, body_reply};
use gw_config::Config;
use gw_model::end_of;
use gw_model::status::{NFS3_OK, NFS3ERR_FBIG, NFS3ERR_JUKEBOX};
use std::alloc::Global;
use tickets::{Body, stable_how};

/// What a message asks for.
#[derive(Debug, Drop)]
pub enum Request {
    /// It is no call, and its connection ends.
    Close,
    /// It is answered at once.
    Reply { xid: u32, reply: Bytes },
    /// A READ of a file in the tree.
    Read(u64, ReadCall),
    /// A WRITE of a file in the tree.
    Write(u64, WriteCall),
    /// A COMMIT of a file in the tree.
    Commit(u64, CommitCall),
}

// A request that is answered at once.
fn answer(alloc: Global, xid: u32, body: &Body) -> Result<Request, Refused>
    requires plain { IsPlain body.now }
    ensures target { IfOk result (λ r. (conn : ℕ) → request_target conn r ≡ reply_target conn xid (body_of body.now)) }
    ensures fits { IfOk result (λ r. (files : ℕ) → IsFitting files r) }
    ensures goes_on { IfOk result (λ r. is_ending r ≡ false) }
    ensures refused { IfErr result (λ e. e.xid ≡ xid) }
{
    match body_reply(alloc, xid, body) {
        Ok(reply) => match Bytes::from_vec(reply) {
            Ok(reply) => Ok(Request::Reply { xid, reply }),
            Err(_) => Err(Refused { xid }),
        },
        Err(_) => Err(Refused { xid }),
    }
}

// The body of the answer to a WRITE that is refused (RFC 1813 section 3.3.7).
fn refused_write(status: u32) -> Body
    ensures { result ≡ WriteBody status 0 0 }
{
    Body::Write {
        status,
        count: 0,
        committed: 0,
    }
}

/// A WRITE that is to be asked for again later (RFC 1813 section 3.3.7). Takes memory.
pub fn busy_request(alloc: Global, xid: u32) -> Result<Request, Refused>
    ensures target { IfOk result (λ r. (conn : ℕ) → request_target conn r ≡ reply_target conn xid (NotWritten jukebox)) }
    ensures fits { IfOk result (λ r. (files : ℕ) → IsFitting files r) }
    ensures goes_on { IfOk result (λ r. is_ending r ≡ false) }
    ensures refused { IfErr result (λ e. e.xid ≡ xid) }
{
    answer(alloc, xid, &refused_write(NFS3ERR_JUKEBOX))
}

// A WRITE that isn't refused for its file or its count.
fn write_request(alloc: Global, file: u64, xid: u32, args: WriteArgs) -> Result<Request, Refused>
    requires few { length args.data ≤ 1048576 }
    ensures target { IfOk result (λ r. (conn : ℕ) → request_target conn r ≡ write_target file conn xid args) }
    ensures fits { IfOk result (λ r. (files : ℕ) → is_file files file ≡ true → IsFitting files r) }
    ensures goes_on { IfOk result (λ r. is_ending r ≡ false) }
    ensures refused { IfErr result (λ e. (conn : ℕ) → IsRequestOf (write_target file conn xid args) conn e.xid) }
{
    if end_of(args.offset, args.data.len() as u32).is_none() {
        return answer(alloc, xid, &refused_write(NFS3ERR_FBIG));
    }
    if args.data.is_empty() {
        let body = Body::Write {
            status: NFS3_OK,
            count: 0,
            committed: stable_how(args.stable),
        };
        return answer(alloc, xid, &body);
    }
    let call = WriteCall {
        xid,
        offset: args.offset,
        stable: args.stable,
        content: args.data,
    };
    Ok(Request::Write(file, call))
}

fn judged_write_request(
    alloc: Global,
    config: &Config,
    files: u64,
    xid: u32,
    args: WriteArgs,
) -> Result<Request, Refused>
    requires few { length args.data ≤ 1048576 }
    ensures target { IfOk result (λ r. (conn : ℕ) → request_target conn r ≡ target_by (settings_in config.now) files conn (asked.Write xid args)) }
    ensures fits { IfOk result (λ r. IsFitting files r) }
    ensures goes_on { IfOk result (λ r. is_ending r ≡ false) }
    ensures refused { IfErr result (λ e. (conn : ℕ) → IsRequestOf (target_by (settings_in config.now) files conn (asked.Write xid args)) conn e.xid) }
{
    match write_file(config, files, &args) {
        Err(status) => answer(alloc, xid, &refused_write(status)),
        Ok(file) => write_request(alloc, file, xid, args),
    }
}

fn judged_read_request(
    alloc: Global,
    config: &Config,
    files: u64,
    xid: u32,
    args: ReadArgs,
) -> Result<Request, Refused>
    ensures target { IfOk result (λ r. (conn : ℕ) → request_target conn r ≡ target_by (settings_in config.now) files conn (asked.Read xid args)) }
    ensures fits { IfOk result (λ r. IsFitting files r) }
    ensures goes_on { IfOk result (λ r. is_ending r ≡ false) }
    ensures refused { IfErr result (λ e. (conn : ℕ) → IsRequestOf (target_by (settings_in config.now) files conn (asked.Read xid args)) conn e.xid) }
{
    match handle_file(config.fsid, files, args.handle.as_slice()) {
        Err(status) => {
            let body = Body::Read {
                status,
                eof: false,
                bytes: Vec::new(alloc),
            };
            answer(alloc, xid, &body)
        }
        Ok(file) => {
            let call = ReadCall {
                xid,
                offset: args.offset,
                count: args.count,
            };
            Ok(Request::Read(file, call))
        }
    }
}

fn judged_commit_request(
    alloc: Global,
    config: &Config,
    files: u64,
    xid: u32,
    args: CommitArgs,
) -> Result<Request, Refused>
    ensures target { IfOk result (λ r. (conn : ℕ) → request_target conn r ≡ target_by (settings_in config.now) files conn (asked.Commit xid args)) }
    ensures fits { IfOk result (λ r. IsFitting files r) }
    ensures goes_on { IfOk result (λ r. is_ending r ≡ false) }
    ensures refused { IfErr result (λ e. (conn : ℕ) → IsRequestOf (target_by (settings_in config.now) files conn (asked.Commit xid args)) conn e.xid) }
{
    match handle_file(config.fsid, files, args.handle.as_slice()) {
        Err(status) => answer(alloc, xid, &Body::Commit { status }),
        Ok(file) => {
            let call = CommitCall {
                xid,
                offset: args.offset,
                count: args.count,
            };
            Ok(Request::Commit(file, call))
        }
    }
}

/// What a message asks for, by the settings and by how many files are in the tree. Want of memory gives the number of the
/// request for which it was refused.
pub fn read_request(
    alloc: Global,
    config: &Config,
    files: u64,
    message: Bytes,
) -> Result<Request, Refused>
    ensures target { IfOk result (λ r. (conn : ℕ) → request_target conn r ≡ message_target (settings_in config.now) files conn message) }
    ensures fits { IfOk result (λ r. IsFitting files r) }
    ensures ending { IfOk result (λ r. is_ending r ≡ ends_connection message) }
    ensures refused { IfErr result (λ e. (conn : ℕ) → IsRequestOf (message_target (settings_in config.now) files conn message) conn e.xid) }
    ensures goes_on { OnErr result (ends_connection message ≡ false) }
{
    match read_message(alloc, message)? {
        Asked::Close => Ok(Request::Close),
        Asked::Reply { xid, reply } => Ok(Request::Reply { xid, reply }),
        Asked::Read { xid, args } => judged_read_request(alloc, config, files, xid, args),
        Asked::Write { xid, args } => judged_write_request(alloc, config, files, xid, args),
        Asked::Commit { xid, args } => judged_commit_request(alloc, config, files, xid, args),
    }
}
