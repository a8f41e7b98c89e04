// Arguments that are a name in a directory, or end with one (RFC 1813 sections 3.3.3, 3.3.12 to 3.3.15).
ghost use Rattle.xdr.specs.Forms.{map_at};
ghost use Rattle.nfs_wire.specs.declared.args.Args.{Args};
ghost use Rattle.nfs_wire.specs.Faults.{Gives};
ghost use Rattle.nfs_wire.specs.Arguments.{dir_op_at, rename_at, link_arguments_at};

use crate::items::Items;
use crate::{Args, ArgsFault};

#[tactic(auto, unfolding(crate::specs::Arguments::rename_at))]
pub fn rename(items: &mut Items<'_>) -> Result<Args, ArgsFault>
    ensures { Gives (λ a. (a, items.new)) result (rename_at items.old) }
{
    let from = items.dir_op()?;
    let to = items.dir_op()?;
    Ok(Args::Rename { from, to })
}

#[tactic(auto, unfolding(crate::specs::Arguments::link_arguments_at))]
pub fn link(items: &mut Items<'_>) -> Result<Args, ArgsFault>
    ensures { Gives (λ a. (a, items.new)) result (link_arguments_at items.old) }
{
    let handle = items.handle()?;
    let place = items.dir_op()?;
    Ok(Args::Link { handle, place })
}

pub fn lookup(items: &mut Items<'_>) -> Result<Args, ArgsFault>
    ensures { Gives (λ a. (a, items.new)) result (map_at Args.Lookup dir_op_at items.old) }
{
    let place = items.dir_op()?;
    Ok(Args::Lookup { place })
}

pub fn remove(items: &mut Items<'_>) -> Result<Args, ArgsFault>
    ensures { Gives (λ a. (a, items.new)) result (map_at Args.Remove dir_op_at items.old) }
{
    let place = items.dir_op()?;
    Ok(Args::Remove { place })
}

pub fn rmdir(items: &mut Items<'_>) -> Result<Args, ArgsFault>
    ensures { Gives (λ a. (a, items.new)) result (map_at Args.Rmdir dir_op_at items.old) }
{
    let place = items.dir_op()?;
    Ok(Args::Rmdir { place })
}
