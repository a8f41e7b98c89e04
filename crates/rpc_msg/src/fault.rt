// Why a message can't be read as a call.

/// The first fault of a message in the order of its bytes; a credential's own faults come last.
#[derive(Clone, Copy, Debug, PartialEq, Eq)]
pub enum CallFault {
    /// The message is no call: its second word isn't 0.
    NotCall,
    /// Its version of the protocol isn't 2.
    RpcMismatch { xid: u32 },
    /// A credential or verifier of more than 400 bytes, or a body of AUTH_SYS that can't be read.
    BadCred { xid: u32 },
    /// A credential that is neither AUTH_NONE nor AUTH_SYS.
    RejectedCred { xid: u32 },
    /// The message ends within the call.
    Short,
    /// No memory was left.
    Memory { xid: u32 },
}
