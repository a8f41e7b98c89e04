// The keys of calls.
ghost use Rattle.std.specs.Prelude.{◌≡◌, ◌++◌, IfOk};
ghost use Rattle.dup_cache.specs.CallList.{call_key};

use gw_model::NoMemory;
use std::alloc::{AllocError, Global};

/// The key of a call: the client's address as four bytes, the highest first, and then the whole call as it was sent, with
/// its transaction number. So only the same bytes from the same client have it. Takes memory.
#[tactic(auto, unfolding(crate::specs::CallList::call_key))]
pub fn key_of(alloc: Global, client: u32, call: &[u8]) -> Result<Vec<u8>, NoMemory>
    ensures { IfOk result (λ key. key.items ≡ call_key client call.now) }
{
    join_key(alloc, client.to_be_bytes(), call).map_err(|_| NoMemory)
}

fn join_key(alloc: Global, client: [u8; 4], call: &[u8]) -> Result<Vec<u8>, AllocError>
    ensures { IfOk result (λ key. key.items ≡ client ++ call.now) }
{
    let mut key = Vec::with_capacity(alloc, client.len() + call.len())?;
    key.extend_from_slice(&client)?;
    key.extend_from_slice(call)?;
    Ok(key)
}
