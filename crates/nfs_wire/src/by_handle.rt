// Arguments that are a handle, or begin with one (RFC 1813 sections 3.3.1, 3.3.2, 3.3.4, 3.3.5, 3.3.18 to 3.3.20).
ghost use Rattle.xdr.specs.Forms.{map_at};
ghost use Rattle.nfs_wire.specs.declared.args.Args.{Args};
ghost use Rattle.nfs_wire.specs.Faults.{Gives};
ghost use Rattle.nfs_wire.specs.Arguments.{handle_at, setattr_at, access_at};

use crate::items::Items;
use crate::{Args, ArgsFault};

#[tactic(auto, unfolding(crate::specs::Arguments::setattr_at))]
pub fn setattr(items: &mut Items<'_>) -> Result<Args, ArgsFault>
    ensures { Gives (λ a. (a, items.new)) result (setattr_at items.old) }
{
    let handle = items.handle()?;
    let set = items.set()?;
    let guard = items.guard()?;
    Ok(Args::Setattr { handle, set, guard })
}

#[tactic(auto, unfolding(crate::specs::Arguments::access_at))]
pub fn access(items: &mut Items<'_>) -> Result<Args, ArgsFault>
    ensures { Gives (λ a. (a, items.new)) result (access_at items.old) }
{
    let handle = items.handle()?;
    let mask = items.word()?;
    Ok(Args::Access { handle, mask })
}

pub fn getattr(items: &mut Items<'_>) -> Result<Args, ArgsFault>
    ensures { Gives (λ a. (a, items.new)) result (map_at Args.Getattr handle_at items.old) }
{
    let handle = items.handle()?;
    Ok(Args::Getattr { handle })
}

pub fn readlink(items: &mut Items<'_>) -> Result<Args, ArgsFault>
    ensures { Gives (λ a. (a, items.new)) result (map_at Args.Readlink handle_at items.old) }
{
    let handle = items.handle()?;
    Ok(Args::Readlink { handle })
}

pub fn fsstat(items: &mut Items<'_>) -> Result<Args, ArgsFault>
    ensures { Gives (λ a. (a, items.new)) result (map_at Args.Fsstat handle_at items.old) }
{
    let handle = items.handle()?;
    Ok(Args::Fsstat { handle })
}

pub fn fsinfo(items: &mut Items<'_>) -> Result<Args, ArgsFault>
    ensures { Gives (λ a. (a, items.new)) result (map_at Args.Fsinfo handle_at items.old) }
{
    let handle = items.handle()?;
    Ok(Args::Fsinfo { handle })
}

pub fn pathconf(items: &mut Items<'_>) -> Result<Args, ArgsFault>
    ensures { Gives (λ a. (a, items.new)) result (map_at Args.Pathconf handle_at items.old) }
{
    let handle = items.handle()?;
    Ok(Args::Pathconf { handle })
}
