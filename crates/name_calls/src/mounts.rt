// What a call makes of the mount list.
ghost use Rattle.std.specs.Prelude.{◌≡◌, OnOk, OnErr};
ghost use Rattle.mount_proc.specs.Mounts.{mnt_judgement};
ghost use Rattle.name_calls.specs.FrontAnswers.{mounts_by, mounts_if};

use gw_model::NoMemory;
use mount_proc::{MountList, MountRefusal};
use name_tree::Tree;
use nfs_wire::Args;

// Lists what a MNT mounts that isn't refused. Takes memory where the pair is new.
fn list_mount(
    mounts: &mut MountList,
    tree: &Tree,
    export: &[u8],
    host: &[u8],
    path: &[u8],
) -> Result<(), NoMemory>
    ensures ok { OnOk result (mounts.new ≡ mounts_if
        (mnt_judgement tree.now.tree export.now mounts.old host.now path.now) host.now path.now mounts.old) }
    ensures err { OnErr result (mounts.new ≡ mounts.old) }
{
    match mounts.mnt(tree, export, host, path) {
        Ok(_) => Ok(()),
        Err(MountRefusal::Status(_)) => Ok(()),
        Err(MountRefusal::Memory) => Err(NoMemory),
    }
}

/// Lists what a MNT of a host mounts, and takes out what UMNT and UMNTALL name (RFC 1813 sections 5.2.1, 5.2.3 and 5.2.4). A MNT
/// takes memory where its pair is new.
pub fn change_mounts(
    mounts: &mut MountList,
    tree: &Tree,
    export: &[u8],
    host: &[u8],
    args: &Args,
) -> Result<(), NoMemory>
    ensures ok { OnOk result (mounts.new ≡ mounts_by tree.now.tree export.now host.now args.now mounts.old) }
    ensures err { OnErr result (mounts.new ≡ mounts.old) }
{
    match args {
        Args::Mnt { path } => list_mount(mounts, tree, export, host, path),
        Args::Umnt { path } => {
            mounts.umnt(host, path);
            Ok(())
        }
        Args::Umntall => {
            mounts.umnt_all(host);
            Ok(())
        }
        _ => Ok(()),
    }
}
