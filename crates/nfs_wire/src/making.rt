// Arguments of the procedures that make something (RFC 1813 sections 3.3.8 to 3.3.11).
ghost use Rattle.nfs_wire.specs.Faults.{Gives};
ghost use Rattle.nfs_wire.specs.Arguments.{how_at, node_at, create_at, mkdir_at, symlink_at, mknod_at};

use crate::items::Items;
use crate::{Args, ArgsFault, CreateHow, NodeKind};

#[tactic(auto, unfolding(crate::specs::Arguments::create_at))]
pub fn create(items: &mut Items<'_>) -> Result<Args, ArgsFault>
    ensures { Gives (λ a. (a, items.new)) result (create_at items.old) }
{
    let place = items.dir_op()?;
    let how = create_how(items)?;
    Ok(Args::Create { place, how })
}

#[tactic(auto, unfolding(crate::specs::Arguments::mkdir_at))]
pub fn mkdir(items: &mut Items<'_>) -> Result<Args, ArgsFault>
    ensures { Gives (λ a. (a, items.new)) result (mkdir_at items.old) }
{
    let place = items.dir_op()?;
    let set = items.set()?;
    Ok(Args::Mkdir { place, set })
}

#[tactic(auto, unfolding(crate::specs::Arguments::symlink_at))]
pub fn symlink(items: &mut Items<'_>) -> Result<Args, ArgsFault>
    ensures { Gives (λ a. (a, items.new)) result (symlink_at items.old) }
{
    let place = items.dir_op()?;
    let set = items.set()?;
    let path = items.path()?;
    Ok(Args::Symlink { place, set, path })
}

#[tactic(auto, unfolding(crate::specs::Arguments::mknod_at))]
pub fn mknod(items: &mut Items<'_>) -> Result<Args, ArgsFault>
    ensures { Gives (λ a. (a, items.new)) result (mknod_at items.old) }
{
    let place = items.dir_op()?;
    let kind = node_kind(items)?;
    Ok(Args::Mknod { place, kind })
}

#[tactic(auto, unfolding(crate::specs::Arguments::how_at))]
fn create_how(items: &mut Items<'_>) -> Result<CreateHow, ArgsFault>
    ensures { Gives (λ h. (h, items.new)) result (how_at items.old) }
{
    let place = items.place();
    match items.word()? {
        0 => Ok(CreateHow::Unchecked(items.set()?)),
        1 => Ok(CreateHow::Guarded(items.set()?)),
        2 => Ok(CreateHow::Exclusive(items.verifier()?)),
        _ => Err(ArgsFault::Garbage { place }),
    }
}

#[tactic(auto, unfolding(crate::specs::Arguments::node_at))]
fn node_kind(items: &mut Items<'_>) -> Result<NodeKind, ArgsFault>
    ensures { Gives (λ n. (n, items.new)) result (node_at items.old) }
{
    let place = items.place();
    match items.word()? {
        1 => Ok(NodeKind::Regular),
        2 => Ok(NodeKind::Directory),
        3 => Ok(NodeKind::Block(items.set()?, items.device()?)),
        4 => Ok(NodeKind::Character(items.set()?, items.device()?)),
        5 => Ok(NodeKind::Link),
        6 => Ok(NodeKind::Socket(items.set()?)),
        7 => Ok(NodeKind::Fifo(items.set()?)),
        _ => Err(ArgsFault::Garbage { place }),
    }
}
