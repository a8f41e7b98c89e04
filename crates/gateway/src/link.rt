// The connections of a transcript.
ghost use Rattle.std.specs.Prelude.{◌≡◌, [], OnOk, IfOk, IsSome};
ghost use Rattle.nfs_procs.specs.World.{entry_at};
ghost use Rattle.gateway.specs.Links.{SetsLink, link_in};
ghost use Rattle.gateway.specs.Steps.{link_after as link_after_of};
ghost use Rattle.gateway.specs.declared.link.Link.TheVariants.{Open, Closed};

use rpc_record::Stream;
use std::alloc::{AllocError, Global};
use std::collections::BTreeMap;
use std::mem;

/// How a connection stands.
#[derive(Drop)]
pub enum Link {
    /// It takes bytes.
    Open(Stream),
    /// It ended, and its later bytes are passed over.
    Closed,
}

/// Takes a connection's link, and leaves a closed one in its place. The first bytes open the connection. Takes memory.
pub fn take_link(
    alloc: Global,
    links: &mut BTreeMap<u32, Link>,
    conn: u32,
) -> Result<Link, AllocError>
    ensures link { IfOk result (λ link. link ≡ link_in (entry_at conn links.old.entries)) }
    ensures rest { OnOk result (SetsLink conn Closed links.old.entries links.new.entries) }
    ensures there { OnOk result (IsSome (entry_at conn links.new.entries)) }
{
    if let Some(link) = links.get_mut(&conn) {
        return Ok(mem::replace(link, Link::Closed));
    }
    let stream = Stream::new(alloc)?;
    match links.insert(conn, Link::Closed) {
        Ok(_) => Ok(Link::Open(stream)),
        Err(_) => Err(AllocError),
    }
}

/// The link of a connection whose stream this is, or which ended.
pub fn link_after(ended: bool, stream: Stream) -> Link
    ensures { result ≡ link_after_of ended stream }
{
    if ended {
        Link::Closed
    } else {
        Link::Open(stream)
    }
}

/// Gives a connection that was opened its link back.
pub fn give_link(links: &mut BTreeMap<u32, Link>, conn: u32, link: Link)
    requires there { IsSome (entry_at conn links.old.entries) }
    ensures { SetsLink conn link links.old.entries links.new.entries }
{
    if let Some(place) = links.get_mut(&conn) {
        *place = link;
    }
}

/// A connection stands as one on which nothing came.
pub fn forget_link(links: &mut BTreeMap<u32, Link>, conn: u32)
    ensures { SetsLink conn (Open []) links.old.entries links.new.entries }
{
    links.remove(&conn);
}
