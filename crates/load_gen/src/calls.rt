// The calls of a drill as messages.
ghost use Rattle.std.specs.Prelude.{◌≡◌, ◌≤◌, OnOk, IfOk, []};
ghost use Rattle.xdr.specs.Rows.{joined_text};
ghost use Rattle.rpc_msg.specs.Numbers.{auth_none};
ghost use Rattle.rpc_msg.specs.Spellings.{call_row};
ghost use Rattle.nfs_wire.specs.Programs.{nfs_program};
ghost use Rattle.nfs_wire.specs.Arguments.{args_row};
ghost use Rattle.load_gen.specs.Load.{args_message, load_call, load_commit, load_data, load_handle, load_write};

use crate::load::{FileLoad, WRITE_LENGTH};
use nfs_wire::program::{NFS_PROGRAM, NFS_VERSION};
use rpc_msg::numbers::RPC_VERSION;
use std::alloc::Global;
use xdr::{NoMemory, Writer};

/// `msg_type` of a call (RFC 5531 section 9).
const CALL: u32 = 0;

/// `auth_flavor` of a sender without a name (RFC 5531 section 10.1).
const AUTH_NONE: u32 = 0;

/// `stable_how` of a write that may wait for a COMMIT (RFC 1813 section 3.3.7).
const UNSTABLE: u32 = 0;

/// The procedure WRITE (RFC 1813 section 3.3.7).
const WRITE: u32 = 7;

/// The procedure COMMIT (RFC 1813 section 3.3.21).
const COMMIT: u32 = 21;

// What stands in front of the arguments.
fn put_head(writer: &mut Writer, xid: u32, proc_no: u32) -> Result<(), NoMemory>
    ensures { OnOk result (writer.new ≡ joined_text writer.old
        (call_row (load_call xid (nfs_program, proc_no) []) auth_none [] auth_none [])) }
{
    writer.put_u32(xid)?;
    writer.put_u32(CALL)?;
    writer.put_u32(RPC_VERSION)?;
    writer.put_u32(NFS_PROGRAM)?;
    writer.put_u32(NFS_VERSION)?;
    writer.put_u32(proc_no)?;
    writer.put_u32(AUTH_NONE)?;
    writer.put_opaque(&[])?;
    writer.put_u32(AUTH_NONE)?;
    writer.put_opaque(&[])
}

// The bytes of a write.
fn data_of(load: &FileLoad, write: u32) -> [u8; WRITE_LENGTH]
    ensures { result ≡ load_data load.now write }
{
    let first = load.offset_of(write) + u64::from(load.place) + load.start % 256;
    let mut bytes = [0u8; WRITE_LENGTH];
    for (i, byte) in bytes.iter_mut().enumerate() {
        *byte = ((first + i as u64) % 256) as u8;
    }
    bytes
}

fn put_write(writer: &mut Writer, load: &FileLoad, write: u32) -> Result<(), NoMemory>
    ensures { OnOk result (writer.new ≡ joined_text writer.old (args_row (load_write load.now write))) }
{
    writer.put_opaque(&load.handle())?;
    writer.put_u64(load.offset_of(write))?;
    writer.put_u32(WRITE_LENGTH as u32)?;
    writer.put_u32(UNSTABLE)?;
    writer.put_opaque(&data_of(load, write))
}

fn put_commit(writer: &mut Writer, load: &FileLoad) -> Result<(), NoMemory>
    ensures { OnOk result (writer.new ≡ joined_text writer.old (args_row (load_commit load.now))) }
{
    writer.put_opaque(&load.handle())?;
    writer.put_u64(0)?;
    writer.put_u32(0)
}

/// The message of a WRITE by AUTH_NONE.
pub fn write_message(
    alloc: Global,
    load: &FileLoad,
    xid: u32,
    write: u32,
) -> Result<Vec<u8>, NoMemory>
    ensures { IfOk result (λ message. message.items ≡ args_message xid (load_write load.now write)) }
{
    let mut writer = Writer::new(alloc);
    put_head(&mut writer, xid, WRITE)?;
    put_write(&mut writer, load, write)?;
    Ok(writer.into_vec())
}

/// The message of a COMMIT of the whole file by AUTH_NONE.
pub fn commit_message(alloc: Global, load: &FileLoad, xid: u32) -> Result<Vec<u8>, NoMemory>
    ensures { IfOk result (λ message. message.items ≡ args_message xid (load_commit load.now)) }
{
    let mut writer = Writer::new(alloc);
    put_head(&mut writer, xid, COMMIT)?;
    put_commit(&mut writer, load)?;
    Ok(writer.into_vec())
}
