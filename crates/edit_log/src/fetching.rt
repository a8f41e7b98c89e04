// The bytes of a log that is closed.
ghost use Rattle.std.specs.Prelude.{◌≡◌, ◌≤◌, ◌+◌, ◌-◌, ◌^◌, ◌++◌, ℕ, min, length, OnOk, IfOk, IfErr, IsErrOf};
ghost use Rattle.gw_outside.specs.Causes.{Rose};
ghost use Rattle.gw_model.specs.declared.object.ObjectId.{ObjectId};
ghost use Rattle.append_store.specs.State.{IsThere, bytes_of};
ghost use Rattle.append_store.specs.Calls.{HasLength, part_at};
ghost use Rattle.edit_log.specs.Notes.{AreCounted, EndsAfter, IsOutside, Notes, done_calls, piece_count};
ghost use Rattle.edit_log.specs.declared.fault.StartFault.{StartFault};

use crate::StartFault;
use crate::reading::MOST_BYTES;
use append_store::Cluster;
use gw_model::{ObjectId, Outcome, Trace};
use std::alloc::Global;

/// The most bytes of one read.
const PIECE: u64 = 1_048_576;

// Reads a piece and adds it to what was read. The call is noted. A store that tells nothing may give fewer bytes than it
// listed: they are damaged there, since at a torn end edits would be lost unseen.
fn fetch_piece<C: Cluster>(
    cluster: &mut C,
    generation: u64,
    at: u64,
    piece: &mut Vec<u8>,
    bytes: &mut Vec<u8>,
    trace: &mut Trace,
) -> Result<(), StartFault>
    requires there { C.File.tells → IsThere (C.at cluster.old (ObjectId.Log generation)) }
    requires whole { C.File.tells → at + length piece.old.items ≤ length (bytes_of (C.at cluster.old (ObjectId.Log generation))) }
    requires low { at ≤ 2 ^ 50 }
    ensures bytes { OnOk result (C.File.tells → bytes.new.items ≡
        bytes.old.items ++ part_at (bytes_of (C.at cluster.old (ObjectId.Log generation))) at (length piece.old.items)) }
    ensures most { OnOk result (length bytes.new.items ≤ length bytes.old.items + length piece.old.items) }
    ensures piece { length piece.new.items ≡ length piece.old.items }
    ensures same { C.File.tells → (q : ObjectId) → C.at cluster.new q ≡ C.at cluster.old q }
    ensures later { C.count cluster.old ≤ C.count cluster.new }
    ensures cause { IsErrOf result StartFault.Store → Rose (C.count cluster.old) (C.count cluster.new) }
    ensures outside { C.File.tells → IfErr result IsOutside }
    ensures counted { AreCounted trace.old trace.new (C.tally cluster.old) (C.tally cluster.new) }
    ensures ok_notes { OnOk result (Notes trace.old trace.new (done_calls 1)) }
    ensures err_notes { IfErr result (λ e. EndsAfter 1 0 e trace.old trace.new) }
{
    if trace.reserve(1).is_err() {
        return Err(StartFault::Memory);
    }
    let Ok(n) = cluster.read_closed(ObjectId::Log { generation }, at, piece) else {
        trace.note(Outcome::Failed { kept: 0 });
        return Err(StartFault::Store);
    };
    trace.note(Outcome::Done);
    if n < piece.len() {
        return Err(StartFault::Damaged {
            generation,
            place: at + n as u64,
        });
    }
    if bytes.extend_from_slice(&piece[..n]).is_err() {
        return Err(StartFault::Memory);
    }
    Ok(())
}

/// Reads a log that is closed, whose length was listed, piece by piece. Each read is noted. Takes memory.
pub fn fetch<C: Cluster>(
    alloc: Global,
    cluster: &mut C,
    generation: u64,
    size: u64,
    trace: &mut Trace,
) -> Result<Vec<u8>, StartFault>
    requires there { C.File.tells → HasLength (C.at cluster.old (ObjectId.Log generation)) size }
    ensures bytes { IfOk result (λ bytes. C.File.tells → bytes.items ≡ bytes_of (C.at cluster.old (ObjectId.Log generation))) }
    ensures most { IfOk result (λ bytes. length bytes.items ≤ 2 ^ 50) }
    ensures same { C.File.tells → (q : ObjectId) → C.at cluster.new q ≡ C.at cluster.old q }
    ensures later { C.count cluster.old ≤ C.count cluster.new }
    ensures cause { IsErrOf result StartFault.Store → Rose (C.count cluster.old) (C.count cluster.new) }
    ensures outside { C.File.tells → IfErr result IsOutside }
    ensures counted { AreCounted trace.old trace.new (C.tally cluster.old) (C.tally cluster.new) }
    ensures ok_notes { OnOk result (Notes trace.old trace.new (done_calls (piece_count size))) }
    ensures err_notes { IfErr result (λ e. EndsAfter (piece_count size) 0 e trace.old trace.new) }
{
    if size > MOST_BYTES - PIECE {
        return Err(StartFault::Memory);
    }
    // All is taken at once, so that the log isn't moved while it grows.
    let Ok(mut bytes) = Vec::with_capacity(alloc, size as usize) else {
        return Err(StartFault::Memory);
    };
    let mut piece = Vec::new(alloc);
    if piece.resize(size.min(PIECE) as usize, 0).is_err() {
        return Err(StartFault::Memory);
    }
    let mut at: u64 = 0;
    while at < size {
        piece.truncate((size - at).min(PIECE) as usize);
        if let Err(fault) = fetch_piece(cluster, generation, at, &mut piece, &mut bytes, trace) {
            return Err(fault);
        }
        at += PIECE;
    }
    Ok(bytes)
}
