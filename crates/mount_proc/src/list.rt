// The mount list.
ghost use Rattle.std.specs.Prelude.{◌≡◌, [], ◌∷◌, ◌++◌, length, map, IfOk, OnOk, OnErr};
ghost use Rattle.xdr.specs.Rows.{text};
ghost use Rattle.nfs_wire.specs.Results.{Dump, results_row};
ghost use Rattle.nfs_wire.specs.Short.{CanBeSpelled};
ghost use Rattle.nfs_wire.specs.Views.{mount_view};
ghost use Rattle.mount_proc.specs.Mounts.{IsMntAnswer, IsMountList, has_no_place, is_mounted, mnt_judgement};
ghost use Rattle.mount_proc.specs.Mounts.{mounts_with, mounts_without, mounts_without_host};

use crate::MountRefusal;
use crate::mount::Mount;
use crate::path::directory_of_path;
use gw_model::status::NFS3ERR_SERVERFAULT;
use gw_model::{FileId, NoMemory};
use name_tree::Tree;
use nfs_wire::{Mounted, Res, res_text};
use std::alloc::{AllocError, Global};
use std::marker::Model;

const MOST_MOUNTS: usize = 4096;

/// Who mounted what: pairs of a host and a path, in the order of first mounting. Each pair stands once, and there are at most
/// 4,096.
#[derive(Drop)]
pub struct MountList {
    alloc: Global,
    mounts: Vec<Mount>,
}

impl Model for MountList {
    ghost use Rattle.std.specs.Prelude.{List};
    ghost use Rattle.nfs_wire.specs.Results.{MountText};

    ghost Value = { List MountText };

    ghost use Rattle.mount_proc.specs.Mounts.{IsMountList};

    ghost view = { λ l. l.mounts.items };

    ghost invariant = { λ l. IsMountList l.mounts.items };
}

fn is_mounted(mounts: &[Mount], host: &[u8], path: &[u8]) -> bool
    ensures { result ≡ is_mounted host.now path.now mounts.now }
{
    mounts.iter().any(|mount| mount.is_of(host, path))
}

fn has_no_place(mounts: &[Mount], host: &[u8], path: &[u8]) -> bool
    ensures { result ≡ has_no_place host.now path.now mounts.now }
{
    !is_mounted(mounts, host, path) && mounts.len() >= MOST_MOUNTS
}

#[tactic(auto, unfolding(crate::specs::Mounts::mnt_judgement))]
fn mnt_judgement(
    tree: &Tree,
    export: &[u8],
    mounts: &[Mount],
    host: &[u8],
    path: &[u8],
) -> Result<FileId, u32>
    ensures { result ≡ mnt_judgement tree.now.tree export.now mounts.now host.now path.now }
{
    match directory_of_path(tree, export, path) {
        Ok(dir) => {
            if has_no_place(mounts, host, path) {
                Err(NFS3ERR_SERVERFAULT)
            } else {
                Ok(dir)
            }
        }
        Err(status) => Err(status),
    }
}

fn list_mount(
    alloc: Global,
    mounts: &mut Vec<Mount>,
    host: &[u8],
    path: &[u8],
) -> Result<(), AllocError>
    ensures ok { OnOk result (mounts.new.items ≡ mounts.old.items ++ record { host = host.now; path = path.now } ∷ []) }
    ensures err { OnErr result (mounts.new.items ≡ mounts.old.items) }
{
    let mount = Mount::of(alloc, host, path)?;
    match mounts.push(mount) {
        Ok(()) => Ok(()),
        Err(_) => Err(AllocError),
    }
}

fn remove_mount(mounts: &mut Vec<Mount>, host: &[u8], path: &[u8])
    ensures { mounts.new.items ≡ mounts_without host.now path.now mounts.old.items }
{
    mounts.retain(|mount| !mount.is_of(host, path));
}

fn remove_host(mounts: &mut Vec<Mount>, host: &[u8])
    ensures { mounts.new.items ≡ mounts_without_host host.now mounts.old.items }
{
    mounts.retain(|mount| !mount.is_of_host(host));
}

fn rows(alloc: Global, mounts: &[Mount]) -> Result<Vec<Mounted<'_>>, AllocError>
    ensures { IfOk result (λ rows. map mount_view rows.items ≡ mounts.now) }
{
    mounts.iter().map(|mount| mount.row()).collect(alloc)
}

impl MountList {
    /// Nothing is mounted.
    pub fn new(alloc: Global) -> MountList
        ensures { result ≡ [] }
    {
        MountList {
            alloc,
            mounts: Vec::new(alloc),
        }
    }

    /// How many pairs there are.
    pub fn len(&self) -> usize
        ensures count { result ≡ length self.now }
        ensures sound { IsMountList self.now }
    {
        self.mounts.len()
    }

    /// What `mnt` answers where memory isn't refused. Takes no memory, and changes nothing.
    pub fn judge(&self, tree: &Tree, export: &[u8], host: &[u8], path: &[u8]) -> Result<FileId, u32>
        ensures { result ≡ mnt_judgement tree.now.tree export.now self.now host.now path.now }
    {
        mnt_judgement(tree, export, &self.mounts, host, path)
    }

    /// MNT (RFC 1813 section 5.2.1): the directory of the tree that a path names, which is then listed for the host, where the
    /// pair isn't yet. The path is refused with `NFS3ERR_ACCES` where it neither is the export path nor lies behind it, and each
    /// further name with `NFS3ERR_NAMETOOLONG` past 255 bytes, `NFS3ERR_NOENT` and `NFS3ERR_NOTDIR`; a new pair past the last
    /// place with `NFS3ERR_SERVERFAULT`. Takes memory where the pair is new. Nothing changes where it is refused.
    pub fn mnt(
        &mut self,
        tree: &Tree,
        export: &[u8],
        host: &[u8],
        path: &[u8],
    ) -> Result<FileId, MountRefusal>
        ensures answer { IsMntAnswer host.now path.now self.old (mnt_judgement tree.now.tree export.now self.old host.now path.now) result }
        ensures ok { OnOk result (self.new ≡ mounts_with host.now path.now self.old) }
        ensures err { OnErr result (self.new ≡ self.old) }
    {
        let dir = match mnt_judgement(tree, export, &self.mounts, host, path) {
            Ok(dir) => dir,
            Err(status) => return Err(MountRefusal::Status(status)),
        };
        if is_mounted(&self.mounts, host, path) {
            return Ok(dir);
        }
        match list_mount(self.alloc, &mut self.mounts, host, path) {
            Ok(()) => Ok(dir),
            Err(_) => Err(MountRefusal::Memory),
        }
    }

    /// UMNT (RFC 1813 section 5.2.3): the pair is no longer listed. Takes no memory.
    pub fn umnt(&mut self, host: &[u8], path: &[u8])
        ensures { self.new ≡ mounts_without host.now path.now self.old }
    {
        remove_mount(&mut self.mounts, host, path);
    }

    /// UMNTALL (RFC 1813 section 5.2.4): no pair of the host is listed any more. Takes no memory.
    pub fn umnt_all(&mut self, host: &[u8])
        ensures { self.new ≡ mounts_without_host host.now self.old }
    {
        remove_host(&mut self.mounts, host);
    }

    /// The results of DUMP (RFC 1813 section 5.2.2): all pairs, in order. A host or a path of 2^32 bytes or more has no
    /// spelling, and is answered as want of memory. Takes memory.
    pub fn dump(&self) -> Result<Vec<u8>, NoMemory>
        ensures ok { IfOk result (λ v. v.items ≡ text (results_row (Dump self.now))) }
        ensures short { OnOk result (CanBeSpelled (Dump self.now)) }
    {
        match rows(self.alloc, &self.mounts) {
            Ok(rows) => res_text(self.alloc, &Res::Dump { mounts: &rows }),
            Err(_) => Err(NoMemory),
        }
    }
}
