// Results as the bytes behind a reply's head.
ghost use Rattle.std.specs.Prelude.{◌≡◌, OnOk, IfOk};
ghost use Rattle.xdr.specs.Rows.{joined_text, text};
ghost use Rattle.nfs_wire.specs.Results.{results_row};
ghost use Rattle.nfs_wire.specs.Views.{results_of};
ghost use Rattle.nfs_wire.specs.Short.{CanBeSpelled};

use crate::Res;
use crate::put_attr::{put_access, put_getattr, put_lookup, put_made};
use crate::put_list::{put_export, put_mnt, put_mounts, put_readdir, put_readdirplus};
use crate::put_system::{put_fsinfo, put_fsstat, put_pathconf};
use crate::put_words::{put_readlink, put_refused, put_zeros};
use gw_model::NoMemory;
use std::alloc::Global;
use xdr::Writer;

/// The results of a call as they stand behind the reply's head, with zero padding. An opaque of 2^32 bytes or more has no
/// spelling, and is answered as want of memory.
pub fn res_text(alloc: Global, res: &Res<'_>) -> Result<Vec<u8>, NoMemory>
    ensures ok { IfOk result (λ v. v.items ≡ text (results_row (results_of res.now))) }
    ensures short { OnOk result (CanBeSpelled (results_of res.now)) }
{
    let mut writer = Writer::new(alloc);
    match put_results(&mut writer, res) {
        Ok(()) => Ok(writer.into_vec()),
        Err(_) => Err(NoMemory),
    }
}

fn put_results(writer: &mut Writer, res: &Res<'_>) -> Result<(), xdr::NoMemory>
    ensures ok { OnOk result (writer.new ≡ joined_text writer.old (results_row (results_of res.now))) }
    ensures short { OnOk result (CanBeSpelled (results_of res.now)) }
{
    match *res {
        Res::Null | Res::MountNull | Res::Umnt | Res::Umntall => Ok(()),
        Res::Getattr { attr } => put_getattr(writer, &attr),
        Res::Setattr | Res::Remove | Res::Rmdir => put_zeros(writer, 3),
        Res::Rename => put_zeros(writer, 5),
        Res::Lookup { handle, attr } => put_lookup(writer, &handle, &attr),
        Res::Access { attr, mask } => put_access(writer, &attr, mask),
        Res::Readlink { path } => put_readlink(writer, path),
        Res::Create { handle, attr } => put_made(writer, &handle, &attr),
        Res::Mkdir { handle, attr } => put_made(writer, &handle, &attr),
        Res::Symlink { handle, attr } => put_made(writer, &handle, &attr),
        Res::Readdir {
            verifier,
            entries,
            eof,
        } => put_readdir(writer, &verifier, entries, eof),
        Res::Readdirplus {
            verifier,
            entries,
            eof,
        } => put_readdirplus(writer, &verifier, entries, eof),
        Res::Fsstat { stat } => put_fsstat(writer, &stat),
        Res::Fsinfo { info } => put_fsinfo(writer, &info),
        Res::Pathconf { conf } => put_pathconf(writer, &conf),
        Res::Mnt { handle } => put_mnt(writer, &handle),
        Res::Dump { mounts } => put_mounts(writer, mounts),
        Res::Export { path } => put_export(writer, path),
        Res::Refused { status, zeros } => put_refused(writer, status, zeros),
    }
}
