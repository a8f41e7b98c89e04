// What a call asks for.
ghost use Rattle.std.specs.Prelude.{◌≡◌, IfOk, IfErr, Ok, Err};
ghost use Rattle.xdr.specs.Reading.{start, finish_at};
ghost use Rattle.rpc_msg.specs.Views.{call_view};
ghost use Rattle.portmap.specs.Requests.{mapping_of, with_nothing, request_by, request_of};

use crate::ports::{MAPPER_PROGRAM, MAPPER_VERSION, Mapping};
use rpc_msg::Call;
use rpc_msg::numbers::{GARBAGE_ARGS, PROC_UNAVAIL, PROG_MISMATCH, PROG_UNAVAIL};
use xdr::{Reader, XdrFault};

/// What a call asks for (RFC 1833 section 3.2).
#[derive(Clone, Copy, Debug, PartialEq, Eq)]
pub enum Request {
    Null,
    Set(Mapping),
    Unset(Mapping),
    GetPort(Mapping),
    Dump,
}

#[tactic(auto, unfolding(crate::specs::Requests::mapping_of))]
fn read_mapping(args: &[u8]) -> Result<Mapping, XdrFault>
    ensures ok { IfOk result (λ m. mapping_of args.now ≡ Ok m) }
    ensures err { IfErr result (λ fault. mapping_of args.now ≡ Err fault) }
{
    let mut reader = Reader::new(args);
    let prog = reader.take_u32()?;
    let vers = reader.take_u32()?;
    let prot = reader.take_u32()?;
    let port = reader.take_u32()?;
    reader.finish()?;
    Ok(Mapping {
        prog,
        vers,
        prot,
        port,
    })
}

// A request without arguments.
fn read_nothing(args: &[u8], request: Request) -> Result<Request, u32>
    ensures { result ≡ with_nothing request (finish_at (start args.now)) }
{
    match Reader::new(args).finish() {
        Ok(()) => Ok(request),
        Err(_) => Err(GARBAGE_ARGS),
    }
}

// The request of a procedure, or the `accept_stat` that it is refused with.
fn read_procedure(proc_no: u32, args: &[u8]) -> Result<Request, u32>
    ensures { result ≡ request_by proc_no args.now }
{
    match proc_no {
        0 => read_nothing(args, Request::Null),
        1 => match read_mapping(args) {
            Ok(mapping) => Ok(Request::Set(mapping)),
            Err(_) => Err(GARBAGE_ARGS),
        },
        2 => match read_mapping(args) {
            Ok(mapping) => Ok(Request::Unset(mapping)),
            Err(_) => Err(GARBAGE_ARGS),
        },
        3 => match read_mapping(args) {
            Ok(mapping) => Ok(Request::GetPort(mapping)),
            Err(_) => Err(GARBAGE_ARGS),
        },
        4 => read_nothing(args, Request::Dump),
        _ => Err(PROC_UNAVAIL),
    }
}

/// The request that a call is, or the `accept_stat` that it is refused with: its program, version and procedure are judged
/// in this order, and then its arguments.
pub fn read_request(call: &Call) -> Result<Request, u32>
    ensures { result ≡ request_of (call_view call.now) }
{
    if call.prog != MAPPER_PROGRAM {
        return Err(PROG_UNAVAIL);
    }
    if call.vers != MAPPER_VERSION {
        return Err(PROG_MISMATCH);
    }
    read_procedure(call.proc_no, call.args.as_slice())
}
