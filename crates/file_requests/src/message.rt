// What a whole message of a connection asks for.
ghost use Rattle.std.specs.Prelude.{◌≡◌, ◌≢◌, ◌<◌, ◌^◌, ℕ, IfOk, IfErr, OnOk};
ghost use Rattle.rpc_msg.specs.declared.fault.CallFault.{CallFault};
ghost use Rattle.rpc_msg.specs.Views.{call_view};
ghost use Rattle.file_requests.specs.declared.message.Asked.{Asked};
ghost use Rattle.file_requests.specs.Messages.{is_served, reply_to, mismatch_text, asked_with, asked_by_call, asked_by_fault, asked_of, IsFew};
ghost use Rattle.gw_config.specs.Seen.{settings_in};
ghost use Rattle.file_requests.specs.Messages.{counted_file, numbered_file, handle_file, write_file, is_file};
ghost use Rattle.file_requests.specs.MessageFaults.{IsAskedOr, HasXid, IsAskedBy};

use bytes::Bytes;
use gw_config::Config;
use gw_model::Stable;
use gw_model::status::{NFS3ERR_BADHANDLE, NFS3ERR_INVAL, NFS3ERR_ROFS, NFS3ERR_STALE};
use handles::file_of;
use nfs_wire::program::{MOUNT_PROGRAM, NFS_PROGRAM, NFS_VERSION};
use nfs_wire::{Args, ArgsFault, read_args};
use rpc_msg::numbers::{
    AUTH_BADCRED, AUTH_REJECTEDCRED, GARBAGE_ARGS, PROC_UNAVAIL, PROG_MISMATCH, PROG_UNAVAIL,
    SUCCESS,
};
use rpc_msg::{Call, CallFault, accepted_head, auth_error, read_call, rpc_mismatch};
use std::alloc::{AllocError, Global};

/// The arguments of a READ (RFC 1813 section 3.3.6).
#[derive(Drop)]
pub struct ReadArgs {
    /// At most 64 bytes, which may be no handle.
    pub handle: Bytes,
    pub offset: u64,
    pub count: u32,
}

/// The arguments of a WRITE (RFC 1813 section 3.3.7).
#[derive(Drop)]
pub struct WriteArgs {
    /// At most 64 bytes, which may be no handle.
    pub handle: Bytes,
    pub offset: u64,
    /// How many bytes the data is said to have.
    pub count: u32,
    /// How far they are to be durable before the WRITE is answered.
    pub stable: Stable,
    /// At most 1,048,576 bytes.
    pub data: Bytes,
}

/// The arguments of a COMMIT (RFC 1813 section 3.3.21).
#[derive(Drop)]
pub struct CommitArgs {
    /// At most 64 bytes, which may be no handle.
    pub handle: Bytes,
    pub offset: u64,
    /// How many bytes are to be durable; where it is 0, all.
    pub count: u32,
}

/// What a message asks for.
#[derive(Drop)]
pub enum Asked {
    /// It is no call: its connection ends.
    Close,
    /// It is answered by this message at once.
    Reply { xid: u32, reply: Bytes },
    Read { xid: u32, args: ReadArgs },
    Write { xid: u32, args: WriteArgs },
    Commit { xid: u32, args: CommitArgs },
}

/// Want of memory for a request whose xid was read.
#[derive(Clone, Copy, Debug, PartialEq, Eq)]
pub struct Refused {
    pub xid: u32,
}

// The procedures that are served (RFC 1813 section 3.3).
const NULL: u32 = 0;

const READ: u32 = 6;

const WRITE: u32 = 7;

const COMMIT: u32 = 21;

/// What a message asks for. Fails only for want of memory, and only for a message that asks for something under its own
/// number.
pub fn read_message(alloc: Global, message: Bytes) -> Result<Asked, Refused>
    ensures asked { IfOk result (λ a. a ≡ asked_of message) }
    ensures few { IfOk result IsFew }
    ensures asked_by { IfErr result (λ e. IsAskedBy (asked_of message) e.xid) }
{
    match read_call(alloc, message) {
        Ok(call) => call_asked(alloc, call),
        Err(fault) => fault_asked(alloc, fault),
    }
}

// What a message asks for that can't be read as a call.
fn fault_asked(alloc: Global, fault: CallFault) -> Result<Asked, Refused>
    ensures asked { IfOk result (λ a. a ≡ asked_by_fault fault) }
    ensures read { OnOk result ((xid : ℕ) → fault ≢ CallFault.Memory xid) }
    ensures xid { IfErr result (λ e. HasXid fault e.xid) }
{
    match fault {
        CallFault::NotCall | CallFault::Short => Ok(Asked::Close),
        CallFault::RpcMismatch { xid } => reply(alloc, xid, &rpc_mismatch(xid)),
        CallFault::BadCred { xid } => reply(alloc, xid, &auth_error(xid, AUTH_BADCRED)),
        CallFault::RejectedCred { xid } => reply(alloc, xid, &auth_error(xid, AUTH_REJECTEDCRED)),
        CallFault::Memory { xid } => Err(Refused { xid }),
    }
}

fn reply(alloc: Global, xid: u32, message: &[u8]) -> Result<Asked, Refused>
    ensures { IsAskedOr result xid (Asked.Reply xid message.now) }
{
    match Bytes::copy_from_slice(alloc, message) {
        Ok(reply) => Ok(Asked::Reply { xid, reply }),
        Err(_) => Err(Refused { xid }),
    }
}

// An accepted reply without results.
fn status_reply(alloc: Global, xid: u32, stat: u32) -> Result<Asked, Refused>
    ensures { IsAskedOr result xid (reply_to xid stat) }
{
    reply(alloc, xid, &accepted_head(xid, stat))
}

#[tactic(auto, unfolding(xdr::specs::Items::word))]
fn version_text(alloc: Global, xid: u32) -> Result<Vec<u8>, AllocError>
    ensures { IfOk result (λ text. text.items ≡ mismatch_text xid) }
{
    let mut text = Vec::from_slice(alloc, &accepted_head(xid, PROG_MISMATCH))?;
    text.extend_from_slice(&NFS_VERSION.to_be_bytes())?;
    text.extend_from_slice(&NFS_VERSION.to_be_bytes())?;
    Ok(text)
}

// The reply to a call of another version than 3.
fn version_reply(alloc: Global, xid: u32) -> Result<Asked, Refused>
    ensures { IsAskedOr result xid (Asked.Reply xid (mismatch_text xid)) }
{
    match version_text(alloc, xid) {
        Ok(text) => reply(alloc, xid, &text),
        Err(_) => Err(Refused { xid }),
    }
}

fn is_served(prog: u32, proc_no: u32) -> bool
    ensures { result ≡ is_served prog proc_no }
{
    proc_no == NULL
        || prog == NFS_PROGRAM && (proc_no == READ || proc_no == WRITE || proc_no == COMMIT)
}

fn call_asked(alloc: Global, call: Call) -> Result<Asked, Refused>
    ensures { IsAskedOr result call.xid (asked_by_call (call_view call)) }
{
    let xid = call.xid;
    if call.prog != NFS_PROGRAM && call.prog != MOUNT_PROGRAM {
        return status_reply(alloc, xid, PROG_UNAVAIL);
    }
    if call.vers != NFS_VERSION {
        return version_reply(alloc, xid);
    }
    if !is_served(call.prog, call.proc_no) {
        return status_reply(alloc, xid, PROC_UNAVAIL);
    }
    match read_args(alloc, call.prog, call.proc_no, call.args) {
        Ok(args) => args_asked(alloc, xid, args),
        Err(ArgsFault::Garbage { .. }) => status_reply(alloc, xid, GARBAGE_ARGS),
        Err(ArgsFault::Memory) => Err(Refused { xid }),
    }
}

// What is asked for by arguments of a procedure that is served.
fn args_asked(alloc: Global, xid: u32, args: Args) -> Result<Asked, Refused>
    ensures { IsAskedOr result xid (asked_with xid args) }
{
    match args {
        Args::Null | Args::MountNull => status_reply(alloc, xid, SUCCESS),
        Args::Read {
            handle,
            offset,
            count,
        } => {
            let args = ReadArgs {
                handle,
                offset,
                count,
            };
            Ok(Asked::Read { xid, args })
        }
        Args::Write {
            handle,
            offset,
            count,
            stable,
            data,
        } => {
            let args = WriteArgs {
                handle,
                offset,
                count,
                stable,
                data,
            };
            Ok(Asked::Write { xid, args })
        }
        Args::Commit {
            handle,
            offset,
            count,
        } => {
            let args = CommitArgs {
                handle,
                offset,
                count,
            };
            Ok(Asked::Commit { xid, args })
        }
        _ => status_reply(alloc, xid, PROC_UNAVAIL),
    }
}

// Whether a file is in the tree, by how many were made: 4, 5, ..
fn is_file(files: u64, file: u64) -> bool
    ensures { result ≡ is_file files file }
{
    4 <= file && file - 4 < files
}

// The file of these numbers, if it is in the tree of this file system.
fn numbered_file(own: u64, files: u64, file: u64, fsid: u64) -> Result<u64, u32>
    ensures named { result ≡ numbered_file own files file fsid }
    ensures low { file < 2 ^ 64 }
    ensures low_fsid { fsid < 2 ^ 64 }
{
    if fsid == own && is_file(files, file) {
        Ok(file)
    } else {
        Err(NFS3ERR_STALE)
    }
}

/// The file that a handle names in the tree, or the status by which a request is refused for its handle (RFC 1813
/// section 2.6).
pub fn handle_file(own: u64, files: u64, handle: &[u8]) -> Result<u64, u32>
    ensures { result ≡ handle_file own files handle.now }
{
    match file_of(handle) {
        Some((file, fsid)) => numbered_file(own, files, file.0, fsid),
        None => Err(NFS3ERR_BADHANDLE),
    }
}

// So of a WRITE, whose count is looked at then.
fn counted_file(own: u64, files: u64, args: &WriteArgs) -> Result<u64, u32>
    ensures { result ≡ counted_file args.now (handle_file own files args.now.handle) }
{
    match handle_file(own, files, args.handle.as_slice()) {
        Ok(file) => {
            if args.count as usize == args.data.len() {
                Ok(file)
            } else {
                Err(NFS3ERR_INVAL)
            }
        }
        Err(status) => Err(status),
    }
}

/// The file of a WRITE, whose handle is judged first, then its count, and then whether anything may be changed (RFC 1813
/// section 3.3.7).
pub fn write_file(config: &Config, files: u64, args: &WriteArgs) -> Result<u64, u32>
    ensures { result ≡ write_file (settings_in config.now) files args.now }
{
    match counted_file(config.fsid, files, args) {
        Ok(_) if config.read_only => Err(NFS3ERR_ROFS),
        judged => judged,
    }
}
