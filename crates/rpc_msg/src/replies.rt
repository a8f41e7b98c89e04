// The fronts of replies. None takes memory.
ghost use Rattle.std.specs.Prelude.{◌≡◌};
ghost use Rattle.rpc_msg.specs.Numbers.{system_error};
ghost use Rattle.rpc_msg.specs.Replies.{accepted_text, rpc_mismatch_text, denial_text};

use crate::numbers::SYSTEM_ERR;

/// The front of an accepted reply, whose status is an `accept_stat` of `numbers`; its results follow.
#[tactic(auto, unfolding(crate::specs::Replies::accepted_text, xdr::specs::Items::word))]
pub fn accepted_head(xid: u32, stat: u32) -> [u8; 24]
    ensures { result ≡ accepted_text xid stat }
{
    let x = xid.to_be_bytes();
    let s = stat.to_be_bytes();
    [
        x[0], x[1], x[2], x[3], 0, 0, 0, 1, 0, 0, 0, 0, 0, 0, 0, 0, 0, 0, 0, 0, s[0], s[1], s[2],
        s[3],
    ]
}

/// The reply to a call of another version of the protocol than 2.
#[tactic(auto, unfolding(crate::specs::Replies::rpc_mismatch_text, xdr::specs::Items::word))]
pub fn rpc_mismatch(xid: u32) -> [u8; 24]
    ensures { result ≡ rpc_mismatch_text xid }
{
    let x = xid.to_be_bytes();
    [
        x[0], x[1], x[2], x[3], 0, 0, 0, 1, 0, 0, 0, 1, 0, 0, 0, 0, 0, 0, 0, 2, 0, 0, 0, 2,
    ]
}

/// The reply to a credential that isn't taken, with an `auth_stat` of `numbers`.
#[tactic(auto, unfolding(crate::specs::Replies::denial_text, xdr::specs::Items::word))]
pub fn auth_error(xid: u32, stat: u32) -> [u8; 20]
    ensures { result ≡ denial_text xid stat }
{
    let x = xid.to_be_bytes();
    let s = stat.to_be_bytes();
    [
        x[0], x[1], x[2], x[3], 0, 0, 0, 1, 0, 0, 0, 1, 0, 0, 0, 1, s[0], s[1], s[2], s[3],
    ]
}

/// The reply where memory was wanting.
pub fn system_err(xid: u32) -> [u8; 24]
    ensures { result ≡ accepted_text xid system_error }
{
    accepted_head(xid, SYSTEM_ERR)
}
