// Arguments of the procedures that list a directory (RFC 1813 sections 3.3.16, 3.3.17).
ghost use Rattle.nfs_wire.specs.Faults.{Gives};
ghost use Rattle.nfs_wire.specs.Arguments.{readdir_at, readdirplus_at};

use crate::items::Items;
use crate::{Args, ArgsFault};

#[tactic(auto, unfolding(crate::specs::Arguments::readdir_at))]
pub fn readdir(items: &mut Items<'_>) -> Result<Args, ArgsFault>
    ensures { Gives (λ a. (a, items.new)) result (readdir_at items.old) }
{
    let handle = items.handle()?;
    let cookie = items.long()?;
    let verifier = items.verifier()?;
    let count = items.word()?;
    Ok(Args::Readdir {
        handle,
        cookie,
        verifier,
        count,
    })
}

#[tactic(auto, unfolding(crate::specs::Arguments::readdirplus_at))]
pub fn readdirplus(items: &mut Items<'_>) -> Result<Args, ArgsFault>
    ensures { Gives (λ a. (a, items.new)) result (readdirplus_at items.old) }
{
    let handle = items.handle()?;
    let cookie = items.long()?;
    let verifier = items.verifier()?;
    let dircount = items.word()?;
    let maxcount = items.word()?;
    Ok(Args::Readdirplus {
        handle,
        cookie,
        verifier,
        dircount,
        maxcount,
    })
}
