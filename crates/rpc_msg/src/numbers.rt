//! The numbers of RFC 5531 sections 8.2 and 9 that a caller of this crate needs.
ghost use Rattle.std.specs.Prelude.{◌≡◌};
ghost use Rattle.rpc_msg.specs.Numbers.{rpc_version, success, prog_unavail, prog_mismatch, proc_unavail, garbage_args, system_error, auth_bad_cred, auth_rejected_cred};

/// The version of the protocol.
pub const RPC_VERSION: u32 = 2;

/// `accept_stat`: the procedure was called.
pub const SUCCESS: u32 = 0;
/// `accept_stat`: no such program.
pub const PROG_UNAVAIL: u32 = 1;
/// `accept_stat`: the program isn't there in this version.
pub const PROG_MISMATCH: u32 = 2;
/// `accept_stat`: no such procedure.
pub const PROC_UNAVAIL: u32 = 3;
/// `accept_stat`: the arguments can't be read.
pub const GARBAGE_ARGS: u32 = 4;
/// `accept_stat`: the server failed, for instance for want of memory.
pub const SYSTEM_ERR: u32 = 5;

/// `auth_stat`: a credential that can't be read.
pub const AUTH_BADCRED: u32 = 1;
/// `auth_stat`: a credential that isn't taken.
pub const AUTH_REJECTEDCRED: u32 = 2;

/// Each constant is the number of the standard.
pub fn numbers_law()
    ensures version { RPC_VERSION ≡ rpc_version }
    ensures done { SUCCESS ≡ success }
    ensures program { PROG_UNAVAIL ≡ prog_unavail }
    ensures mismatch { PROG_MISMATCH ≡ prog_mismatch }
    ensures procedure { PROC_UNAVAIL ≡ proc_unavail }
    ensures garbage { GARBAGE_ARGS ≡ garbage_args }
    ensures system { SYSTEM_ERR ≡ system_error }
    ensures bad { AUTH_BADCRED ≡ auth_bad_cred }
    ensures rejected { AUTH_REJECTEDCRED ≡ auth_rejected_cred }
{}
