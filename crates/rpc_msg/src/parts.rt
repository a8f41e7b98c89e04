// The parts of a call, where they lie in the message.
ghost use Rattle.std.specs.Prelude.{◌≡◌, ◌≤◌, IfOk, IfErr, Ok, Err};
ghost use Rattle.xdr.specs.Reading.{start};
ghost use Rattle.rpc_msg.specs.Calls.{call_word_at, call_opaque_at, call_body_at, call_of};
ghost use Rattle.rpc_msg.specs.Views.{parts_view};

use crate::CallFault;
use crate::numbers::RPC_VERSION;
use crate::sender::{Sender, read_sender};
use xdr::{Reader, XdrFault};

/// A call whose opaques lie in its message.
#[derive(Clone, Copy)]
pub struct Parts<'a> {
    pub xid: u32,
    pub prog: u32,
    pub vers: u32,
    pub proc_no: u32,
    pub sender: Sender<'a>,
    pub args: &'a [u8],
}

const CALL: u32 = 0;

const LONGEST_AUTH: u32 = 400;

/// Reads a message as a call. It takes no memory.
#[tactic(auto, unfolding(crate::specs::Calls::call_of))]
pub fn read_parts(message: &[u8]) -> Result<Parts<'_>, CallFault>
    ensures ok { IfOk result (λ p. call_of message.now ≡ Ok (parts_view p)) }
    ensures few { IfOk result (λ p. p.sender.caller.gid_count ≤ 16) }
    ensures err { IfErr result (λ fault. call_of message.now ≡ Err fault) }
{
    let mut reader = Reader::new(message);
    let xid = part(&mut reader)?;
    let kind = part(&mut reader)?;
    if kind != CALL {
        return Err(CallFault::NotCall);
    }
    let version = part(&mut reader)?;
    if version != RPC_VERSION {
        return Err(CallFault::RpcMismatch { xid });
    }
    body(&mut reader, xid)
}

#[tactic(auto, unfolding(crate::specs::Calls::call_body_at))]
fn body<'a>(reader: &mut Reader<'a>, xid: u32) -> Result<Parts<'a>, CallFault>
    ensures ok { IfOk result (λ p. call_body_at xid reader.old ≡ Ok (parts_view p)) }
    ensures few { IfOk result (λ p. p.sender.caller.gid_count ≤ 16) }
    ensures err { IfErr result (λ fault. call_body_at xid reader.old ≡ Err fault) }
{
    let prog = part(reader)?;
    let vers = part(reader)?;
    let proc_no = part(reader)?;
    let flavor = part(reader)?;
    let credential = auth(reader, xid)?;
    let _verifier_flavor = part(reader)?;
    let _verifier = auth(reader, xid)?;
    let sender = read_sender(xid, flavor, credential)?;
    Ok(Parts {
        xid,
        prog,
        vers,
        proc_no,
        sender,
        args: reader.rest(),
    })
}

#[tactic(auto, unfolding(crate::specs::Calls::call_word_at))]
fn part(reader: &mut Reader<'_>) -> Result<u32, CallFault>
    ensures ok { IfOk result (λ n. call_word_at reader.old ≡ Ok (n, reader.new)) }
    ensures err { IfErr result (λ fault. call_word_at reader.old ≡ Err fault) }
{
    reader.take_u32().map_err(|_| CallFault::Short)
}

// The opaque of a credential or a verifier.
#[tactic(auto, unfolding(crate::specs::Calls::call_opaque_at))]
fn auth<'a>(reader: &mut Reader<'a>, xid: u32) -> Result<&'a [u8], CallFault>
    ensures ok { IfOk result (λ v. call_opaque_at xid reader.old ≡ Ok (v.now, reader.new)) }
    ensures err { IfErr result (λ fault. call_opaque_at xid reader.old ≡ Err fault) }
{
    match reader.take_opaque(LONGEST_AUTH) {
        Ok(body) => Ok(body),
        Err(XdrFault::TooLong { .. }) => Err(CallFault::BadCred { xid }),
        Err(_) => Err(CallFault::Short),
    }
}
