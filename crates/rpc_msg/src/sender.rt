// The credential of a call.
ghost use Rattle.std.specs.Prelude.{◌≡◌, ◌≤◌, take, IfOk, IfErr, Ok, Err};
ghost use Rattle.rpc_msg.specs.Calls.{words_at, groups_at, system_sender, sender_of};
ghost use Rattle.rpc_msg.specs.Views.{groups_view, lent_sender_view};

use crate::{CallFault, Caller};
use xdr::{Reader, XdrFault};

/// Who calls, and from which host.
#[derive(Clone, Copy)]
pub struct Sender<'a> {
    pub caller: Caller,
    pub host: &'a [u8],
}

/// The groups of a caller: the first `count` of `gids`.
#[derive(Clone, Copy)]
pub struct Groups {
    pub gids: [u32; 16],
    pub count: u32,
}

const MOST_GROUPS: u32 = 16;

const LONGEST_NAME: u32 = 255;

const NOBODY: Caller = Caller {
    uid: 65_534,
    gid: 65_534,
    gids: [0; 16],
    gid_count: 0,
};

/// Who calls, by the flavor and the body of the credential.
#[tactic(auto, unfolding(crate::specs::Calls::sender_of))]
pub fn read_sender(xid: u32, flavor: u32, body: &[u8]) -> Result<Sender<'_>, CallFault>
    ensures ok { IfOk result (λ s. sender_of xid flavor body.now ≡ Ok (lent_sender_view s)) }
    ensures few { IfOk result (λ s. s.caller.gid_count ≤ 16) }
    ensures err { IfErr result (λ fault. sender_of xid flavor body.now ≡ Err fault) }
{
    match flavor {
        0 => Ok(Sender {
            caller: NOBODY,
            host: b"none",
        }),
        1 => system(body).map_err(|_| CallFault::BadCred { xid }),
        _ => Err(CallFault::RejectedCred { xid }),
    }
}

// The body of AUTH_SYS.
#[tactic(auto, unfolding(crate::specs::Calls::system_sender))]
fn system(body: &[u8]) -> Result<Sender<'_>, XdrFault>
    ensures ok { IfOk result (λ s. system_sender body.now ≡ Ok (lent_sender_view s)) }
    ensures few { IfOk result (λ s. s.caller.gid_count ≤ 16) }
    ensures err { IfErr result (λ fault. system_sender body.now ≡ Err fault) }
{
    let mut reader = Reader::new(body);
    let _stamp = reader.take_u32()?;
    let host = reader.take_opaque(LONGEST_NAME)?;
    let uid = reader.take_u32()?;
    let gid = reader.take_u32()?;
    let groups = read_groups(&mut reader)?;
    reader.finish()?;
    let gids = groups.gids;
    let caller = Caller {
        uid,
        gid,
        gids,
        gid_count: groups.count,
    };
    Ok(Sender { caller, host })
}

// A count, and as many groups.
#[tactic(auto, unfolding(crate::specs::Calls::groups_at))]
fn read_groups(reader: &mut Reader<'_>) -> Result<Groups, XdrFault>
    ensures ok { IfOk result (λ g. groups_at reader.old ≡ Ok (groups_view g, reader.new)) }
    ensures few { IfOk result (λ g. g.count ≤ 16) }
    ensures err { IfErr result (λ fault. groups_at reader.old ≡ Err fault) }
{
    let place = reader.place();
    let count = reader.take_u32()?;
    if count > MOST_GROUPS {
        return Err(XdrFault::TooLong { place });
    }
    let gids = read_words(reader, count)?;
    Ok(Groups { gids, count })
}

fn read_words(reader: &mut Reader<'_>, count: u32) -> Result<[u32; 16], XdrFault>
    requires { count ≤ 16 }
    ensures ok { IfOk result (λ ws. words_at count reader.old ≡ Ok (take count ws, reader.new)) }
    ensures err { IfErr result (λ fault. words_at count reader.old ≡ Err fault) }
{
    let mut words = [0; 16];
    for i in 0..count as usize {
        words[i] = reader.take_u32()?;
    }
    Ok(words)
}
