// Arguments that speak of a range of a file's bytes (RFC 1813 sections 3.3.6, 3.3.7, 3.3.21).
ghost use Rattle.std.specs.Prelude.{◌≡◌};
ghost use Rattle.xdr.specs.Reading.{start};
ghost use Rattle.nfs_wire.specs.Faults.{Gives};
ghost use Rattle.nfs_wire.specs.Arguments.{read_at, write_at, commit_at};

use crate::items::Items;
use crate::{Args, ArgsFault};
use bytes::Bytes;

#[tactic(auto, unfolding(crate::specs::Arguments::read_at))]
pub fn read(items: &mut Items<'_>) -> Result<Args, ArgsFault>
    ensures { Gives (λ a. (a, items.new)) result (read_at items.old) }
{
    let handle = items.handle()?;
    let offset = items.long()?;
    let count = items.word()?;
    Ok(Args::Read {
        handle,
        offset,
        count,
    })
}

/// The data is a slice of the message.
#[tactic(auto, unfolding(crate::specs::Arguments::write_at))]
pub fn write(items: &mut Items<'_>, message: &Bytes) -> Result<Args, ArgsFault>
    requires { items.old ≡ start message.now }
    ensures { Gives (λ a. (a, items.new)) result (write_at items.old) }
{
    let handle = items.handle()?;
    let offset = items.long()?;
    let count = items.word()?;
    let stable = items.stable()?;
    let data = items.slice(message)?;
    Ok(Args::Write {
        handle,
        offset,
        count,
        stable,
        data,
    })
}

#[tactic(auto, unfolding(crate::specs::Arguments::commit_at))]
pub fn commit(items: &mut Items<'_>) -> Result<Args, ArgsFault>
    ensures { Gives (λ a. (a, items.new)) result (commit_at items.old) }
{
    let handle = items.handle()?;
    let offset = items.long()?;
    let count = items.word()?;
    Ok(Args::Commit {
        handle,
        offset,
        count,
    })
}
