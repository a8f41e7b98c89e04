// The bytes behind a call's head as the arguments of its procedure.
ghost use Rattle.std.specs.Prelude.{◌≡◌, IfOk};
ghost use Rattle.xdr.specs.Reading.{start};
ghost use Rattle.xdr.specs.Forms.{arm_at};
ghost use Rattle.nfs_wire.specs.Faults.{Gives};
ghost use Rattle.nfs_wire.specs.Bounds.{IsWithin};
ghost use Rattle.nfs_wire.specs.Arguments.{nfs_arms, mount_arms, args_of};

use crate::by_handle::{access, fsinfo, fsstat, getattr, pathconf, readlink, setattr};
use crate::by_name::{link, lookup, remove, rename, rmdir};
use crate::by_range::{commit, read, write};
use crate::items::Items;
use crate::listing::{readdir, readdirplus};
use crate::making::{create, mkdir, mknod, symlink};
use crate::program::{MOUNT_PROGRAM, NFS_PROGRAM};
use crate::{Args, ArgsFault};
use bytes::Bytes;
use std::alloc::Global;

/// Reads the arguments of a procedure of NFS or MOUNT, both of version 3: all of the bytes. `Garbage` comes exactly where
/// they don't spell them, also for a program or a procedure that isn't known, unless memory is wanting. The data of a
/// WRITE is a slice of `args`.
pub fn read_args(alloc: Global, prog: u32, proc_no: u32, args: Bytes) -> Result<Args, ArgsFault>
    ensures exact { Gives (λ a. a) result (args_of prog proc_no args) }
    ensures within { IfOk result IsWithin }
{
    read_whole(alloc, prog, proc_no, args)
}

#[tactic(auto, unfolding(crate::specs::Arguments::args_of))]
fn read_whole(alloc: Global, prog: u32, proc_no: u32, args: Bytes) -> Result<Args, ArgsFault>
    ensures { Gives (λ a. a) result (args_of prog proc_no args) }
{
    let mut items = Items::new(alloc, args.as_slice());
    let value = match prog {
        NFS_PROGRAM => nfs_args(&mut items, &args, proc_no)?,
        MOUNT_PROGRAM => mount_args(&mut items, proc_no)?,
        _ => return Err(ArgsFault::Garbage { place: 0 }),
    };
    match items.finish() {
        Ok(()) => Ok(value),
        Err(fault) => {
            drop(value);
            Err(fault)
        }
    }
}

#[tactic(auto, unfolding(crate::specs::Arguments::nfs_arms))]
fn nfs_args(items: &mut Items<'_>, message: &Bytes, proc_no: u32) -> Result<Args, ArgsFault>
    requires { items.old ≡ start message.now }
    ensures { Gives (λ a. (a, items.new)) result (arm_at nfs_arms proc_no 0 items.old) }
{
    match proc_no {
        0 => Ok(Args::Null),
        1 => getattr(items),
        2 => setattr(items),
        3 => lookup(items),
        4 => access(items),
        5 => readlink(items),
        6 => read(items),
        7 => write(items, message),
        8 => create(items),
        9 => mkdir(items),
        10 => symlink(items),
        11 => mknod(items),
        12 => remove(items),
        13 => rmdir(items),
        14 => rename(items),
        15 => link(items),
        16 => readdir(items),
        17 => readdirplus(items),
        18 => fsstat(items),
        19 => fsinfo(items),
        20 => pathconf(items),
        21 => commit(items),
        _ => Err(ArgsFault::Garbage { place: 0 }),
    }
}

#[tactic(auto, unfolding(crate::specs::Arguments::mount_arms))]
fn mount_args(items: &mut Items<'_>, proc_no: u32) -> Result<Args, ArgsFault>
    ensures { Gives (λ a. (a, items.new)) result (arm_at mount_arms proc_no 0 items.old) }
{
    match proc_no {
        0 => Ok(Args::MountNull),
        1 => Ok(Args::Mnt {
            path: items.path()?,
        }),
        2 => Ok(Args::Dump),
        3 => Ok(Args::Umnt {
            path: items.path()?,
        }),
        4 => Ok(Args::Umntall),
        5 => Ok(Args::Export),
        _ => Err(ArgsFault::Garbage { place: 0 }),
    }
}
