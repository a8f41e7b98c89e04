// Calls on the store for a file: its body is taken, and read where nobody has taken it.
ghost use Rattle.std.specs.Prelude.{◌≡◌, ◌≤◌, ◌<◌, ◌^◌, min, IfErr, IfOk};
ghost use Rattle.gw_model.specs.declared.object.ObjectId.{ObjectId};
ghost use Rattle.append_store.specs.State.{IsThere};
ghost use Rattle.file_calls.specs.Opening.{IsOpened, IsStoredRange, FailsClosed};
ghost use Rattle.file_calls.specs.Outside.{body_id, store_view, OthersStay};

use append_store::{AppendFile, Cluster};
use file_cell::FileCell;
use gw_model::{FileId, Hull, Limits, ObjectId, Outcome, Trace};
use job_line::open_line;
use range_map::TreeMap;
use std::alloc::Global;

/// The slots of a file's line, which its limits may leave unused.
const LINE_SLOTS: usize = 8;

/// The most bytes that a READ gives.
const MOST: u32 = 1_048_576;

/// Why a request of a closed file wasn't done.
#[derive(Clone, Copy, Debug, PartialEq, Eq)]
pub enum Failure {
    /// The store failed.
    Store,
    /// Memory was refused.
    Memory,
}

/// Takes the body from the store and opens the file, held to these limits, at a moment in milliseconds, with what was lost of it
/// when it was closed, on a line of its own. The call is noted. Takes memory; where that is refused the store has the body.
pub fn open_file<C: Cluster>(
    alloc: Global,
    file: u64,
    limits: Limits,
    hull: Option<Hull>,
    moment: u64,
    cluster: &mut C,
    trace: &mut Trace,
) -> Result<FileCell<C::File, TreeMap>, Failure>
    requires there { C.File.tells → IsThere (C.at cluster.old (body_id file)) }
    requires noted { 0 < trace.old.room }
    requires slots { limits.line_slots ≤ 8 }
    requires history { limits.history < 2 ^ 32 }
    ensures opened { IfOk result (λ c. IsOpened C.File.tells limits hull moment file c
        (store_view file C.Cluster cluster.old) (store_view file C.Cluster cluster.new) trace.old trace.new) }
    ensures failed { IfErr result (λ f. FailsClosed C.File.tells f
        (store_view file C.Cluster cluster.old) (store_view file C.Cluster cluster.new) trace.old trace.new) }
    ensures others { OthersStay C.Cluster C.File.tells file cluster.old cluster.new }
    ensures losses { C.File.tells → C.losses cluster.new (body_id file) ≡ C.losses cluster.old (body_id file) }
{
    let Ok(ends) = open_line(alloc, LINE_SLOTS) else {
        return Err(Failure::Memory);
    };
    let Ok(body) = cluster.take_file(ObjectId::Body { file, version: 1 }) else {
        trace.note(Outcome::Failed { kept: 0 });
        return Err(Failure::Store);
    };
    trace.note(Outcome::Done);
    // The length bounds the body's.
    let _ = body.len();
    match FileCell::open(alloc, FileId(file), body, ends, limits, hull, moment) {
        Ok(cell) => Ok(cell),
        Err((body, _)) => {
            cluster.give_file(ObjectId::Body { file, version: 1 }, body);
            Err(Failure::Memory)
        }
    }
}

/// A part of the body.
#[derive(Debug, Drop)]
pub struct StoredRange {
    pub bytes: Vec<u8>,
    /// Whether the range that was asked for ends at the last byte or behind it.
    pub eof: bool,
}

/// Reads at most `count` bytes of the body in the store. The call is noted. Takes memory, and makes no call where that is
/// refused.
pub fn read_body<C: Cluster>(
    alloc: Global,
    file: u64,
    cluster: &mut C,
    trace: &mut Trace,
    offset: u64,
    count: u32,
) -> Result<StoredRange, Failure>
    requires there { C.File.tells → IsThere (C.at cluster.old (body_id file)) }
    requires noted { 0 < trace.old.room }
    ensures part { IfOk result (λ part. IsStoredRange C.File.tells part offset (min count 1048576)
        (store_view file C.Cluster cluster.old) (store_view file C.Cluster cluster.new) trace.old trace.new) }
    ensures failed { IfErr result (λ f. FailsClosed C.File.tells f
        (store_view file C.Cluster cluster.old) (store_view file C.Cluster cluster.new) trace.old trace.new) }
    ensures same { C.File.tells → (q : ObjectId) → C.at cluster.new q ≡ C.at cluster.old q }
    ensures losses { C.File.tells → (q : ObjectId) → C.losses cluster.new q ≡ C.losses cluster.old q }
{
    let most = count.min(MOST) as usize;
    let mut bytes = Vec::new(alloc);
    // One byte more tells whether the body ends in front of it.
    if bytes.resize(most + 1, 0).is_err() {
        return Err(Failure::Memory);
    }
    let Ok(n) = cluster.read_closed(ObjectId::Body { file, version: 1 }, offset, &mut bytes) else {
        trace.note(Outcome::Failed { kept: 0 });
        return Err(Failure::Store);
    };
    trace.note(Outcome::Done);
    bytes.truncate(n.min(most));
    Ok(StoredRange {
        bytes,
        eof: n <= most,
    })
}
