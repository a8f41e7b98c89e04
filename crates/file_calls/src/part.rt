// One file, open or closed, and the requests that wait: what each act makes of them.
ghost use Rattle.std.specs.Prelude.{◌≡◌, ◌≢◌, ◌≤◌, ◌<◌, ◌+◌, ◌-◌, ◌^◌, ℕ, [], IfOk, OnOk, OnErr, length, string_bytes, Option, None, Some};
ghost use Rattle.gw_outside.specs.Causes.{Rose};
ghost use Rattle.gw_model.specs.declared.limits.Limits.{Limits};
ghost use Rattle.gw_model.specs.declared.object.ObjectId.{ObjectId};
ghost use Rattle.append_store.specs.State.{Lent, Missing, IsAway, bytes_of};
ghost use Rattle.admit.specs.Calls.{write_request};
ghost use Rattle.file_cell.specs.State.{CellState};
ghost use Rattle.file_calls.specs.declared.hull.ClosedHull.{ClosedHull};
ghost use Rattle.file_calls.specs.Counts.{file_counts};
ghost use Rattle.file_calls.specs.Acts.{CreateFile, WriteFile, ReadFile, CommitFile, TurnFile, PumpFile, SyncFile};
ghost use Rattle.file_calls.specs.Part.{read_action, request_result, send_result, write_act_result};
ghost use Rattle.file_calls.specs.Outside.{Store, body_id, part_state, scene, scene_of, store_counts, CarriesCounts, OthersStay};
ghost use Rattle.file_calls.specs.Outside.{IsActCut, IsActed, IsBodyHome, IsBodySafe, IsText, StepsTo};
ghost use Rattle.file_calls.specs.PartSteps.{IsCellReady, IsClosedBy, IsJob, IsPlainAnswer, IsReadyIn, SameNumbers, SameSettings, SameTerms, Tries, first_answers, is_want_in};

use crate::answers::{closed_answer, not_written, read_answer, send_left, send_one};
use crate::call::{CommitCall, ReadCall, WriteCall};
use crate::hull::{ClosedHull, opening_hull};
use crate::opening::{Failure, open_file, read_body};
use crate::tracker::{NOTES, RequestTracker};
use admit::{CommitReq, ReadReq, Verdict, WriteReq};
use append_store::{AppendFile, Cluster, CreateFault};
use file_cell::{Closed, FileCell, Why};
use gw_model::status::{NFS3_OK, NFS3ERR_IO};
use gw_model::{ObjectId, Outcome, Trace};
use gw_outside::{Sink, WriteFault};
use range_map::{PendingMap, TreeMap};
use std::alloc::{AllocError, Global};
use tickets::{Answer, Body, ReplyDesk, Ticket};

/// What came of an event.
#[derive(Drop)]
pub enum StepResult {
    /// What the event writes.
    Text(String),
    /// The call on the store that creates a body failed.
    StoreFault,
    NoMemory,
}

/// What came of an event whose text was made, or not for want of memory.
pub fn step_result(text: Result<String, AllocError>) -> StepResult
    ensures ok { IfOk text (λ t. result ≡ StepResult.Text t) }
    ensures err { OnErr text (result ≡ StepResult.NoMemory) }
{
    match text {
        Ok(text) => StepResult::Text(text),
        Err(_) => StepResult::NoMemory,
    }
}

// Whether a READ was answered that it found no memory.
fn is_want(answer: &Option<Answer>) -> bool
    ensures { result ≡ is_want_in answer.now }
{
    matches!(
        answer,
        Some(Answer {
            body: Body::SystemErr,
            ..
        })
    )
}

// Does the first job of an open file, and gives the first answer that this left. Want of memory is noted.
fn do_job<F: AppendFile, M: PendingMap>(
    cell: &mut FileCell<F, M>,
    trace: &mut Trace,
) -> Option<Answer>
    requires none_left { cell.old.left ≡ [] }
    requires noted { 0 < trace.old.room }
    ensures job { IsJob F.tells cell.old cell.new result trace.old trace.new }
    ensures same { SameSettings cell.old cell.new }
{
    cell.write_step(trace);
    let answer = cell.next_answer();
    if is_want(&answer) {
        trace.refuse();
    }
    answer
}

// Sends the answer that a turn left, if there is one, and gives what it writes.
fn send_first(
    alloc: Global,
    desk: &mut ReplyDesk,
    answer: Option<Answer>,
) -> Result<String, AllocError>
    requires plain { IsPlainAnswer answer }
    ensures desk { desk.new ≡ (send_result desk.old (first_answers answer)).desk }
    ensures last { desk.new.last ≡ desk.old.last }
    ensures text { IfOk result (λ text. string_bytes text ≡ (send_result desk.old (first_answers answer)).text) }
{
    match answer {
        Some(answer) => send_one(alloc, desk, answer),
        None => Ok(String::new(alloc)),
    }
}

/// An event: the first job of an open file is done. Takes memory.
pub fn turn_cell<F: AppendFile, M: PendingMap>(
    cell: &mut FileCell<F, M>,
    tracker: &mut RequestTracker,
) -> Result<String, AllocError>
    requires none_left { cell.old.left ≡ [] }
    requires few { tracker.old.noted.event < 2 ^ 64 - 1 }
    ensures ok { (lost : Option ClosedHull) (s : Store) → IfOk result (StepsTo F.tells TurnFile
        (scene (part_state lost (Some cell.old) tracker.old) s) (scene (part_state lost (Some cell.new) tracker.new) s)) }
    ensures err { (lost : Option ClosedHull) (s : Store) → OnErr result (IsActCut F.tells TurnFile
        (scene (part_state lost (Some cell.old) tracker.old) s) (scene (part_state lost (Some cell.new) tracker.new) s)) }
    ensures none_left { cell.new.left ≡ [] }
    ensures same { SameSettings cell.old cell.new }
    ensures event { tracker.new.noted.event ≡ tracker.old.noted.event + 1 }
    ensures terms { SameTerms tracker.old tracker.new }
{
    tracker.trace.begin_event();
    if tracker.trace.reserve(NOTES).is_err() {
        return Err(AllocError);
    }
    let answer = do_job(cell, &mut tracker.trace);
    let text = send_first(tracker.alloc, &mut tracker.desk, answer);
    send_left(tracker.alloc, &mut tracker.desk, cell, text)
}

/// An event: an open file hears of its writer, and sends what is ready. Takes memory.
pub fn pump_cell<F: AppendFile, M: PendingMap>(
    cell: &mut FileCell<F, M>,
    tracker: &mut RequestTracker,
) -> Result<String, AllocError>
    requires none_left { cell.old.left ≡ [] }
    requires limits { cell.old.limits ≡ tracker.old.settings.limits }
    requires few { tracker.old.noted.event < 2 ^ 64 - 1 }
    ensures ok { (lost : Option ClosedHull) (s : Store) → IfOk result (StepsTo F.tells PumpFile
        (scene (part_state lost (Some cell.old) tracker.old) s) (scene (part_state lost (Some cell.new) tracker.new) s)) }
    ensures err { (lost : Option ClosedHull) (s : Store) → OnErr result (IsActCut F.tells PumpFile
        (scene (part_state lost (Some cell.old) tracker.old) s) (scene (part_state lost (Some cell.new) tracker.new) s)) }
    ensures none_left { cell.new.left ≡ [] }
    ensures same { SameSettings cell.old cell.new }
    ensures event { tracker.new.noted.event ≡ tracker.old.noted.event + 1 }
    ensures terms { SameTerms tracker.old tracker.new }
{
    tracker.trace.begin_event();
    cell.pump_step();
    send_left(
        tracker.alloc,
        &mut tracker.desk,
        cell,
        Ok(String::new(tracker.alloc)),
    )
}

/// An event: what an open file has stored is made durable, and those that waited for it are answered. Takes memory.
pub fn sync_cell<F: AppendFile, M: PendingMap>(
    cell: &mut FileCell<F, M>,
    tracker: &mut RequestTracker,
) -> Result<String, AllocError>
    requires none_left { cell.old.left ≡ [] }
    requires few { tracker.old.noted.event < 2 ^ 64 - 1 }
    ensures ok { (lost : Option ClosedHull) (s : Store) → IfOk result (StepsTo F.tells SyncFile
        (scene (part_state lost (Some cell.old) tracker.old) s) (scene (part_state lost (Some cell.new) tracker.new) s)) }
    ensures err { (lost : Option ClosedHull) (s : Store) → OnErr result (IsActCut F.tells SyncFile
        (scene (part_state lost (Some cell.old) tracker.old) s) (scene (part_state lost (Some cell.new) tracker.new) s)) }
    ensures none_left { cell.new.left ≡ [] }
    ensures same { SameSettings cell.old cell.new }
    ensures event { tracker.new.noted.event ≡ tracker.old.noted.event + 1 }
    ensures terms { SameTerms tracker.old tracker.new }
{
    tracker.trace.begin_event();
    if tracker.trace.reserve(NOTES).is_err() {
        return Err(AllocError);
    }
    cell.sync_step(&mut tracker.trace);
    send_left(
        tracker.alloc,
        &mut tracker.desk,
        cell,
        Ok(String::new(tracker.alloc)),
    )
}

/// An event of a file that isn't open: nothing is done but that it begins.
pub fn idle_event(tracker: &mut RequestTracker) -> String
    requires few { tracker.old.noted.event < 2 ^ 64 - 1 }
    ensures turn { (lost : Option ClosedHull) (s : Store) → StepsTo (Unit {0}) TurnFile
        (scene (part_state lost None tracker.old) s) (scene (part_state lost None tracker.new) s) result }
    ensures pump { (lost : Option ClosedHull) (s : Store) → StepsTo (Unit {0}) PumpFile
        (scene (part_state lost None tracker.old) s) (scene (part_state lost None tracker.new) s) result }
    ensures sync { (lost : Option ClosedHull) (s : Store) → StepsTo (Unit {0}) SyncFile
        (scene (part_state lost None tracker.old) s) (scene (part_state lost None tracker.new) s) result }
    ensures event { tracker.new.noted.event ≡ tracker.old.noted.event + 1 }
    ensures terms { SameTerms tracker.old tracker.new }
{
    tracker.trace.begin_event();
    String::new(tracker.alloc)
}

/// A WRITE of an open file. Takes memory.
pub fn write_cell<F: AppendFile, M: PendingMap>(
    conn: u32,
    call: WriteCall,
    cell: &mut FileCell<F, M>,
    tracker: &mut RequestTracker,
) -> Result<String, AllocError>
    requires limits { cell.old.limits ≡ tracker.old.settings.limits }
    requires few { length call.content ≤ 1048576 }
    requires below { call.offset + length call.content < 2 ^ 63 }
    ensures ok { (lost : Option ClosedHull) (s : Store) → IfOk result (StepsTo F.tells (WriteFile conn call)
        (scene (part_state lost (Some cell.old) tracker.old) s) (scene (part_state lost (Some cell.new) tracker.new) s)) }
    ensures err { (lost : Option ClosedHull) (s : Store) → OnErr result (IsActCut F.tells (WriteFile conn call)
        (scene (part_state lost (Some cell.old) tracker.old) s) (scene (part_state lost (Some cell.new) tracker.new) s)) }
    ensures ready { (limits : Limits) (k : ℕ) → IsCellReady limits k cell.old → IsCellReady limits k cell.new }
    ensures same { cell.new.file ≡ cell.old.file }
    ensures event { tracker.new.noted.event ≡ tracker.old.noted.event }
    ensures terms { SameTerms tracker.old tracker.new }
{
    let ticket = tracker.begin_request(conn, call.xid)?;
    let verdict = cell.write(WriteReq {
        offset: call.offset,
        stable: call.stable,
        bytes: call.content,
        ticket,
        moment: tracker.moment(),
    });
    tracker.send_verdict(verdict)
}

/// A READ of an open file. Takes memory.
pub fn read_cell<F: AppendFile, M: PendingMap>(
    conn: u32,
    call: ReadCall,
    cell: &mut FileCell<F, M>,
    tracker: &mut RequestTracker,
) -> Result<String, AllocError>
    requires limits { cell.old.limits ≡ tracker.old.settings.limits }
    ensures ok { (lost : Option ClosedHull) (s : Store) → IfOk result (StepsTo F.tells (ReadFile conn call)
        (scene (part_state lost (Some cell.old) tracker.old) s) (scene (part_state lost (Some cell.new) tracker.new) s)) }
    ensures err { (lost : Option ClosedHull) (s : Store) → OnErr result (IsActCut F.tells (ReadFile conn call)
        (scene (part_state lost (Some cell.old) tracker.old) s) (scene (part_state lost (Some cell.new) tracker.new) s)) }
    ensures ready { (limits : Limits) (k : ℕ) → IsCellReady limits k cell.old → IsCellReady limits k cell.new }
    ensures same { cell.new.file ≡ cell.old.file }
    ensures event { tracker.new.noted.event ≡ tracker.old.noted.event }
    ensures terms { SameTerms tracker.old tracker.new }
{
    let ticket = tracker.begin_request(conn, call.xid)?;
    let verdict = cell.read(ReadReq {
        offset: call.offset,
        count: call.count,
        ticket,
        moment: tracker.moment(),
    });
    tracker.send_verdict(verdict)
}

/// A COMMIT of an open file. Takes memory.
pub fn commit_cell<F: AppendFile, M: PendingMap>(
    conn: u32,
    call: CommitCall,
    cell: &mut FileCell<F, M>,
    tracker: &mut RequestTracker,
) -> Result<String, AllocError>
    requires limits { cell.old.limits ≡ tracker.old.settings.limits }
    ensures ok { (lost : Option ClosedHull) (s : Store) → IfOk result (StepsTo F.tells (CommitFile conn call)
        (scene (part_state lost (Some cell.old) tracker.old) s) (scene (part_state lost (Some cell.new) tracker.new) s)) }
    ensures err { (lost : Option ClosedHull) (s : Store) → OnErr result (IsActCut F.tells (CommitFile conn call)
        (scene (part_state lost (Some cell.old) tracker.old) s) (scene (part_state lost (Some cell.new) tracker.new) s)) }
    ensures ready { (limits : Limits) (k : ℕ) → IsCellReady limits k cell.old → IsCellReady limits k cell.new }
    ensures same { cell.new.file ≡ cell.old.file }
    ensures event { tracker.new.noted.event ≡ tracker.old.noted.event }
    ensures terms { SameTerms tracker.old tracker.new }
{
    let ticket = tracker.begin_request(conn, call.xid)?;
    let verdict = cell.commit(CommitReq {
        limit: call.limit(),
        ticket,
        moment: tracker.moment(),
    });
    tracker.send_verdict(verdict)
}

/// A COMMIT of a file that isn't open: it is done at once, or `NFS3ERR_IO` where bytes below its limit may be lost. Takes memory.
pub fn commit_closed(
    conn: u32,
    call: CommitCall,
    lost: Option<ClosedHull>,
    tracker: &mut RequestTracker,
) -> Result<String, AllocError>
    ensures ok { (s : Store) → IfOk result (StepsTo (Unit {0}) (CommitFile conn call)
        (scene (part_state lost None tracker.old) s) (scene (part_state lost None tracker.new) s)) }
    ensures err { (s : Store) → OnErr result (IsActCut (Unit {0}) (CommitFile conn call)
        (scene (part_state lost None tracker.old) s) (scene (part_state lost None tracker.new) s)) }
    ensures event { tracker.new.noted.event ≡ tracker.old.noted.event }
    ensures terms { SameTerms tracker.old tracker.new }
{
    let ticket = tracker.begin_request(conn, call.xid)?;
    tracker.send(closed_answer(ticket, lost, call.limit()))
}

/// A WRITE for which there was no memory, whether its file is open or not. Takes memory for the reply.
pub fn refuse_write(
    conn: u32,
    call: WriteCall,
    tracker: &mut RequestTracker,
) -> Result<String, AllocError>
    ensures ok { (o : Option CellState) (lost : Option ClosedHull) (s : Store) → IfOk result (StepsTo (Unit {0}) (WriteFile conn call)
        (scene (part_state lost o tracker.old) s) (scene (part_state lost o tracker.new) s)) }
    ensures err { (o : Option CellState) (lost : Option ClosedHull) (s : Store) → OnErr result (IsActCut (Unit {0}) (WriteFile conn call)
        (scene (part_state lost o tracker.old) s) (scene (part_state lost o tracker.new) s)) }
    ensures event { tracker.new.noted.event ≡ tracker.old.noted.event }
    ensures terms { SameTerms tracker.old tracker.new }
{
    tracker.refuse_request(conn, call.xid)
}

/// What came of a WRITE of a file that wasn't open.
#[derive(Drop)]
pub struct FirstWrite<F: AppendFile> {
    /// The file's context, unless it wasn't opened, or was closed again.
    pub cell: Option<FileCell<F, TreeMap>>,
    /// What the WRITE writes.
    pub text: Result<String, AllocError>,
}

// A WRITE, with its ticket, of a file that isn't open. It is opened, and closed again where memory is refused for the
// request.
fn open_and_write<C: Cluster>(
    file: u64,
    request: WriteReq,
    lost: Option<ClosedHull>,
    tracker: &mut RequestTracker,
    cluster: &mut C,
) -> FirstWrite<C::File>
    requires room { 2 ≤ tracker.old.noted.room }
    requires last { request.ticket.number ≡ tracker.old.desk.last }
    requires home { IsBodyHome C.File.tells (C.at cluster.old (body_id file)) None }
    requires few { length request.bytes ≤ 1048576 }
    requires below { request.offset + length request.bytes < 2 ^ 63 }
    ensures tries { Tries C.File.tells (request_result (λ w t. write_act_result w.opened w (write_request request) t))
        (scene_of file C.Cluster lost None tracker.old cluster.old) (scene_of file C.Cluster lost result.cell tracker.new cluster.new)
        (λ x. IfOk result.text (λ t. string_bytes t ≡ x)) }
    ensures ready { IsReadyIn tracker.old.settings.limits file result.cell }
    ensures home_after { IsBodyHome C.File.tells (C.at cluster.new (body_id file)) result.cell }
    ensures others { OthersStay C.Cluster C.File.tells file cluster.old cluster.new }
    ensures losses { C.File.tells → C.losses cluster.new (body_id file) ≡ C.losses cluster.old (body_id file) }
    ensures numbers { SameNumbers tracker.old tracker.new }
{
    let mut cell = match open_file(
        tracker.alloc,
        file,
        tracker.config.limits,
        opening_hull(lost),
        tracker.moment,
        cluster,
        &mut tracker.trace,
    ) {
        Ok(cell) => cell,
        Err(Failure::Store) => return FirstWrite {
            cell: None,
            text: tracker.send(not_written(request.ticket, NFS3ERR_IO)),
        },
        Err(Failure::Memory) => return FirstWrite {
            cell: None,
            text: tracker.refuse(request.ticket),
        },
    };
    match cell.write(request) {
        Verdict::NoMemory(ticket) => {
            cluster.give_file(ObjectId::Body { file, version: 1 }, cell.into_parts().body);
            FirstWrite {
                cell: None,
                text: tracker.refuse(ticket),
            }
        }
        verdict => {
            let text = tracker.send_verdict(verdict);
            FirstWrite {
                cell: Some(cell),
                text,
            }
        }
    }
}

/// A WRITE of a file that isn't open: it is opened, with what was lost of it when it was closed. Takes memory.
pub fn first_write<C: Cluster>(
    conn: u32,
    file: u64,
    call: WriteCall,
    lost: Option<ClosedHull>,
    tracker: &mut RequestTracker,
    cluster: &mut C,
) -> FirstWrite<C::File>
    requires home { IsBodyHome C.File.tells (C.at cluster.old (body_id file)) None }
    requires few { length call.content ≤ 1048576 }
    requires below { call.offset + length call.content < 2 ^ 63 }
    ensures ok { IfOk result.text (StepsTo C.File.tells (WriteFile conn call)
        (scene_of file C.Cluster lost None tracker.old cluster.old) (scene_of file C.Cluster lost result.cell tracker.new cluster.new)) }
    ensures err { OnErr result.text (IsActCut C.File.tells (WriteFile conn call)
        (scene_of file C.Cluster lost None tracker.old cluster.old) (scene_of file C.Cluster lost result.cell tracker.new cluster.new)) }
    ensures ready { IsReadyIn tracker.old.settings.limits file result.cell }
    ensures home_after { IsBodyHome C.File.tells (C.at cluster.new (body_id file)) result.cell }
    ensures others { OthersStay C.Cluster C.File.tells file cluster.old cluster.new }
    ensures losses { C.File.tells → C.losses cluster.new (body_id file) ≡ C.losses cluster.old (body_id file) }
    ensures event { tracker.new.noted.event ≡ tracker.old.noted.event }
    ensures terms { SameTerms tracker.old tracker.new }
{
    match tracker.begin_request(conn, call.xid) {
        Ok(ticket) => {
            let request = WriteReq {
                offset: call.offset,
                stable: call.stable,
                bytes: call.content,
                ticket,
                moment: tracker.moment(),
            };
            open_and_write(file, request, lost, tracker, cluster)
        }
        Err(error) => FirstWrite {
            cell: None,
            text: Err(error),
        },
    }
}

// A READ, with its ticket, of a file that isn't open.
fn read_stored<C: Cluster>(
    file: u64,
    call: ReadCall,
    ticket: Ticket,
    tracker: &mut RequestTracker,
    cluster: &mut C,
) -> Result<String, AllocError>
    requires room { 2 ≤ tracker.old.noted.room }
    requires last { ticket.number ≡ tracker.old.desk.last }
    requires home { IsBodyHome C.File.tells (C.at cluster.old (body_id file)) None }
    ensures tries { (lost : Option ClosedHull) → Tries C.File.tells (request_result (read_action call))
        (scene_of file C.Cluster lost None tracker.old cluster.old) (scene_of file C.Cluster lost None tracker.new cluster.new)
        (λ x. IfOk result (λ t. string_bytes t ≡ x)) }
    ensures same { C.File.tells → (q : ObjectId) → C.at cluster.new q ≡ C.at cluster.old q }
    ensures losses { C.File.tells → (q : ObjectId) → C.losses cluster.new q ≡ C.losses cluster.old q }
    ensures numbers { SameNumbers tracker.old tracker.new }
{
    match read_body(
        tracker.alloc,
        file,
        cluster,
        &mut tracker.trace,
        call.offset,
        call.count,
    ) {
        Ok(part) => tracker.send(read_answer(ticket, NFS3_OK, part.eof, part.bytes)),
        Err(Failure::Store) => {
            tracker.send(read_answer(ticket, NFS3ERR_IO, false, Vec::new(tracker.alloc)))
        }
        Err(Failure::Memory) => tracker.refuse(ticket),
    }
}

/// A READ of a file that isn't open: what is stored is read. Takes memory.
pub fn read_closed<C: Cluster>(
    conn: u32,
    file: u64,
    call: ReadCall,
    tracker: &mut RequestTracker,
    cluster: &mut C,
) -> Result<String, AllocError>
    requires home { IsBodyHome C.File.tells (C.at cluster.old (body_id file)) None }
    ensures ok { (lost : Option ClosedHull) → IfOk result (StepsTo C.File.tells (ReadFile conn call)
        (scene_of file C.Cluster lost None tracker.old cluster.old) (scene_of file C.Cluster lost None tracker.new cluster.new)) }
    ensures err { (lost : Option ClosedHull) → OnErr result (IsActCut C.File.tells (ReadFile conn call)
        (scene_of file C.Cluster lost None tracker.old cluster.old) (scene_of file C.Cluster lost None tracker.new cluster.new)) }
    ensures same { C.File.tells → (q : ObjectId) → C.at cluster.new q ≡ C.at cluster.old q }
    ensures losses { C.File.tells → (q : ObjectId) → C.losses cluster.new q ≡ C.losses cluster.old q }
    ensures event { tracker.new.noted.event ≡ tracker.old.noted.event }
    ensures terms { SameTerms tracker.old tracker.new }
{
    let ticket = tracker.begin_request(conn, call.xid)?;
    read_stored(file, call, ticket, tracker, cluster)
}

/// Creates the body of a file that isn't open, and leaves one that is there as it is. Takes memory.
pub fn create_body<C: Cluster>(
    file: u64,
    tracker: &mut RequestTracker,
    cluster: &mut C,
) -> StepResult
    requires safe { IsBodySafe C.File.tells (C.at cluster.old (body_id file)) None }
    ensures step { (lost : Option ClosedHull) → IsActed C.File.tells result CreateFile
        (scene_of file C.Cluster lost None tracker.old cluster.old) (scene_of file C.Cluster lost None tracker.new cluster.new) }
    ensures home { IsText result → IsBodyHome C.File.tells (C.at cluster.new (body_id file)) None }
    ensures safe_after { IsBodySafe C.File.tells (C.at cluster.new (body_id file)) None }
    ensures others { OthersStay C.Cluster C.File.tells file cluster.old cluster.new }
    ensures losses { C.File.tells → C.at cluster.old (body_id file) ≢ Missing
        → C.losses cluster.new (body_id file) ≡ C.losses cluster.old (body_id file) }
    ensures event { tracker.new.noted.event ≡ tracker.old.noted.event }
    ensures terms { SameTerms tracker.old tracker.new }
    ensures later { C.count cluster.old ≤ C.count cluster.new }
    ensures cause { result ≡ StepResult.StoreFault → Rose (C.count cluster.old) (C.count cluster.new) }
{
    if tracker.trace.reserve(NOTES).is_err() {
        return StepResult::NoMemory;
    }
    match cluster.create(ObjectId::Body { file, version: 1 }) {
        Ok(()) => {
            tracker.trace.note(Outcome::Done);
            StepResult::Text(String::new(tracker.alloc))
        }
        Err(CreateFault::Fault) => {
            tracker.trace.note(Outcome::Failed { kept: 0 });
            StepResult::StoreFault
        }
        Err(CreateFault::Memory) => StepResult::NoMemory,
    }
}

/// Gives the body of a context back to the store, and writes the context's history, unless the writing of one before it
/// failed.
pub fn close_cell<C: Cluster, K: Sink>(
    file: u64,
    cell: FileCell<C::File, TreeMap>,
    written: Result<(), WriteFault>,
    sink: &mut K,
    cluster: &mut C,
) -> Result<(), WriteFault>
    requires none_left { cell.left ≡ [] }
    requires id { cell.id.0 ≡ file }
    requires out { C.File.tells → C.at cluster.old (body_id file) ≡ Lent cell.file.mark }
    ensures history { IsClosedBy written result file cell (K.held sink.old) (K.held sink.new) }
    ensures bytes { C.File.tells → bytes_of (C.at cluster.new (body_id file)) ≡ cell.file.content }
    ensures home { C.File.tells → IsAway (C.at cluster.new (body_id file)) → ⊥ }
    ensures others { OthersStay C.Cluster C.File.tells file cluster.old cluster.new }
    ensures losses { C.File.tells → C.losses cluster.new (body_id file) ≡ C.losses cluster.old (body_id file) }
    ensures counts { CarriesCounts (store_counts C.Cluster cluster.old) (file_counts cell.file) (store_counts C.Cluster cluster.new) }
    ensures later { K.count sink.old ≤ K.count sink.new }
    ensures cause { OnErr result (OnOk written (Rose (K.count sink.old) (K.count sink.new))) }
{
    let Closed { body, ended, .. } = cell.into_parts();
    cluster.give_file(ObjectId::Body { file, version: 1 }, body);
    if written.is_err() {
        return written;
    }
    ended.write_history(sink, Why::End)
}
