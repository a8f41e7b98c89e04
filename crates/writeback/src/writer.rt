// The writer of an open file.
ghost use Rattle.std.specs.Prelude.{◌≡◌, ℕ, ◌+◌, ◌-◌, ◌<◌, ◌≤◌, ◌∷◌, ◌++◌, ◌^◌, [], IfOk, IfErr, None, drop, length, min, nat_le, nat_lt, slice_get, vec_len};
ghost use Rattle.std.specs.Option.{option_map};
ghost use Rattle.std.specs.Vec.{vec_capacity};
ghost use Rattle.std.specs.VecDeque.{deque_len, deque_capacity};
ghost use Rattle.gw_model.specs.Ahead.{Outcomes, Good, Bad};
ghost use Rattle.gw_model.specs.Admission.{is_unstable};
ghost use Rattle.gw_model.specs.Views.{TraceState};
ghost use Rattle.gw_model.specs.Writer.{writer_step, store_step, range_of, writer_sync_step};
ghost use Rattle.job_line.specs.declared.items.Job.TheVariants.{Put as PutJob, Compare as CompareJob, Fetch as FetchJob, Settle as SettleJob};
ghost use Rattle.job_line.specs.Items.{put_size};
ghost use Rattle.job_line.specs.Views.{data_size, ticket_number};
ghost use Rattle.tickets.specs.Answers.{answer_of, answers_of, IsPlain, ArePlain};
ghost use Rattle.gw_model.specs.Bounds.{end_limit, max_transfer, max_waiting};
ghost use Rattle.writeback.specs.State.{file_seen, fresh_seen, append_failure, owed_answer, with_fate, with_waiting};
ghost use Rattle.writeback.specs.declared.owed.Fate.TheVariants.{Removed};
ghost use Rattle.writeback.specs.Steps.{Works, Puts, IsAnswered, IsRangeFound, IsSame, Leaves, AnswersLater, IsDurable, with_calls_ahead, compare_call, fate_after, found_body, plain_call, sync_call, writer_after_sync, with_calls};

use crate::calls;
use crate::owed::{Failed, Fate, Owed, Synced};
use append_store::{AppendFile, StoreFault};
use bytes::Bytes;
use gw_model::status::{NFS3ERR_INVAL, NFS3ERR_IO};
use gw_model::{MAX_TRANSFER, MAX_WAITING, Stable, Trace};
use job_line::Job;
use std::alloc::Global;
use std::collections::VecDeque;
use std::marker::Model;
use tickets::{Answer, Ticket};

/// How an append went.
#[derive(Clone, Copy, Debug, PartialEq, Eq)]
pub enum Appended {
    /// All bytes are stored.
    Whole,
    /// It failed now, or an earlier one had failed.
    Failed,
}

/// How a comparison went.
#[derive(Clone, Copy, Debug, PartialEq, Eq)]
pub enum Compared {
    Same,
    Differs,
    ReadFault,
}

/// What a read of a range came to.
#[derive(Debug, Drop)]
pub enum Found {
    Bytes(Vec<u8>),
    ReadFault,
    NoMemory,
}

/// The writer side of an open file: it alone calls the file. Each call on it is noted in a trace.
#[derive(Drop)]
pub struct Writer<F: AppendFile> {
    file: F,
    stored: u64,
    synced: u64,
    failed: Option<Failed>,
    // The tickets that wait for a sync, in order; where there is a fate, those that wait no more and weren't answered yet.
    owed: VecDeque<Owed>,
    fate: Option<Fate>,
    // What the file has, where it is compared: as long as the longest comparison so far.
    buffer: Vec<u8>,
    alloc: Global,
}

impl<F: AppendFile> Model for Writer<F> {
    ghost use Rattle.std.specs.Prelude.{◌≤◌};
    ghost use Rattle.std.specs.Vec.{vec_capacity};
    ghost use Rattle.std.specs.VecDeque.{deque_capacity};
    ghost use Rattle.gw_model.specs.Bounds.{max_transfer, max_waiting};
    ghost use Rattle.writeback.specs.State.{WriterSeen, file_seen, writer_seen};

    ghost Value = { WriterSeen };

    ghost view = { λ w. writer_seen w.stored w.synced w.failed w.fate w.owed.items
        (file_seen F.mark F.content F.durable F.count F.tally w.file) };

    ghost invariant = { λ w. (max_waiting ≤ deque_capacity w.owed) × (max_transfer ≤ vec_capacity w.buffer) };
}

// Adds to those that wait, where there is room.
fn push_waiting(owed: &mut VecDeque<Owed>, next: Owed)
    requires { deque_len owed.old < deque_capacity owed.old }
    ensures items { owed.new.items ≡ owed.old.items ++ next ∷ [] }
    ensures capacity { deque_capacity owed.new ≡ deque_capacity owed.old }
{
    match owed.push_back(next) {
        Ok(()) => {}
        Err(_) => unreachable!(),
    }
}

// Makes a buffer at least so long. It has the capacity, so that can't fail, and each of its bytes is cleared once.
fn lengthen(buffer: &mut Vec<u8>, len: usize)
    requires { len ≤ vec_capacity buffer.old }
    ensures length { len ≤ vec_len buffer.new }
    ensures capacity { vec_capacity buffer.old ≤ vec_capacity buffer.new }
{
    if buffer.len() < len && buffer.resize(len, 0).is_err() {
        unreachable!();
    }
}

// Reads what a file has and compares it with bytes, for which there is room in the buffer.
fn compare_in<F: AppendFile>(
    file: &mut F,
    buffer: &mut [u8],
    offset: u64,
    bytes: &[u8],
    trace: &mut Trace,
) -> Compared
    requires few { length bytes.now ≤ length buffer.old }
    requires noted { 0 < trace.old.room }
    ensures compared { IsSame F.tells bytes.now (range_of offset (length bytes.now) (F.content file.old)) result }
    ensures notes { trace.new ≡ with_calls (compare_call result ∷ []) trace.old }
    ensures file { Leaves F.tells [] (compare_call result ∷ [])
        (file_seen F.mark F.content F.durable F.count F.tally file.old)
        (file_seen F.mark F.content F.durable F.count F.tally file.new) }
{
    let there = &mut buffer[..bytes.len()];
    match calls::read_at(file, offset, there, trace) {
        Ok(count) if bytes == &there[..count] => Compared::Same,
        Ok(_) => Compared::Differs,
        Err(_) => Compared::ReadFault,
    }
}

// What becomes of those that waited for a sync.
fn fate_after(synced: Synced) -> Fate
    ensures { result ≡ fate_after synced }
{
    match synced {
        Synced::Done => Fate::Durable,
        Synced::Failed => Fate::Fault,
    }
}

// The answer to a READ, by what was read of its range.
fn answer_found(alloc: Global, found: Found, eof: bool, ticket: Ticket) -> Answer
    ensures answer { answer_of result ≡ record { ticket = ticket.number; body = found_body found eof } }
    ensures plain { IsPlain result.body }
{
    match found {
        Found::Bytes(bytes) => Answer::gave(ticket, bytes, eof),
        Found::ReadFault => Answer::not_given(alloc, ticket, NFS3ERR_IO),
        Found::NoMemory => Answer::no_memory(ticket),
    }
}

impl<F: AppendFile> Writer<F> {
    /// The writer of a file. Takes memory: room for 1,024 tickets, and for 1,048,576 bytes to compare. Hands the file back
    /// where it is refused.
    pub fn new(alloc: Global, file: F) -> Result<Writer<F>, F>
        ensures ok { IfOk result (λ w. w ≡ fresh_seen (file_seen F.mark F.content F.durable F.count F.tally file)) }
        ensures low { IfOk result (λ w. w.writer.stored < end_limit) }
        ensures err { IfErr result (λ back. back ≡ file) }
    {
        let Ok(owed) = VecDeque::with_capacity(alloc, MAX_WAITING) else {
            return Err(file);
        };
        let Ok(buffer) = Vec::with_capacity(alloc, MAX_TRANSFER as usize) else {
            return Err(file);
        };
        let stored = file.len();
        Ok(Writer {
            file,
            stored,
            synced: stored,
            failed: None,
            owed,
            fate: None,
            buffer,
            alloc,
        })
    }

    /// How many tickets wait for a sync.
    pub fn waiting(&self) -> usize
        ensures { result ≡ length self.now.writer.owed }
    {
        match self.fate {
            None => self.owed.len(),
            Some(_) => 0,
        }
    }

    /// Whether fewer than 1,024 tickets wait for a sync.
    pub fn room(&self) -> bool
        ensures { result ≡ nat_lt (length self.now.writer.owed) max_waiting }
    {
        self.waiting() < MAX_WAITING
    }

    /// What failed, where an append failed. Nothing is appended any more then.
    pub fn failed(&self) -> Option<Failed>
        ensures { option_map append_failure result ≡ self.now.writer.failed }
    {
        self.failed
    }

    /// How many bytes are stored.
    pub fn stored(&self) -> u64
        ensures { result ≡ self.now.writer.stored }
    {
        self.stored
    }

    /// How many bytes were stored at the last sync that was done, or when the file was opened.
    pub fn synced(&self) -> u64
        ensures { result ≡ self.now.writer.synced }
    {
        self.synced
    }

    // Adds to those that wait for a sync.
    fn await_sync(&mut self, next: Owed)
        requires room { length self.old.writer.owed < max_waiting }
        requires none_left { self.old.left ≡ [] }
        ensures { self.new ≡ with_waiting (owed_answer next) self.old }
    {
        self.fate = None;
        push_waiting(&mut self.owed, next);
    }

    // The write of a job is stored: an UNSTABLE one is answered, another one waits for a sync.
    fn answer_written(
        &mut self,
        ticket: Option<Ticket>,
        count: u32,
        stable: Stable,
    ) -> Option<Answer>
        requires room { length self.old.writer.owed < max_waiting }
        requires none_left { self.old.left ≡ [] }
        ensures step { IsAnswered (ticket_number ticket) count stable self.old.writer self.new.writer (answers_of result) }
        ensures rest { self.new ≡ record self.old { writer = self.new.writer } }
        ensures stored { self.new.writer.stored ≡ self.old.writer.stored }
        ensures failed { self.new.writer.failed ≡ self.old.writer.failed }
        ensures plain { ArePlain result }
    {
        let ticket = ticket?;
        if stable == Stable::Unstable {
            return Some(Answer::wrote(ticket, count, stable));
        }
        self.await_sync(Owed::Write {
            ticket,
            count,
            stable,
        });
        None
    }

    // Appends bytes, perhaps none; not after an append failed.
    fn append(&mut self, bytes: &[u8], trace: &mut Trace) -> Appended
        requires noted { 0 < trace.old.room }
        requires fits { self.old.writer.failed ≡ None → self.old.writer.stored + length bytes.now < 2 ^ 64 }
        ensures { Puts F.tells bytes.now result self.old self.new trace.old trace.new }
    {
        if self.failed.is_some() {
            return Appended::Failed;
        }
        if bytes.is_empty() {
            return Appended::Whole;
        }
        match calls::append(&mut self.file, bytes, trace) {
            Ok(()) => {
                self.stored += bytes.len() as u64;
                Appended::Whole
            }
            Err(fault) => {
                self.stored += fault.kept;
                self.failed = Some(Failed {
                    stored: self.stored,
                    kept: fault.kept,
                });
                Appended::Failed
            }
        }
    }

    // Does a Put.
    fn put(
        &mut self,
        bytes: &Bytes,
        stable: Stable,
        count: u32,
        ticket: Option<Ticket>,
        trace: &mut Trace,
    ) -> Option<Answer>
        requires room { length self.old.writer.owed < max_waiting }
        requires none_left { self.old.left ≡ [] }
        requires fits { self.old.writer.failed ≡ None → self.old.writer.stored + length bytes.now < 2 ^ 64 }
        requires noted { 0 < trace.old.room }
        ensures works { (number : ℕ) → Works F.tells (PutJob number bytes.now stable count ticket) (answers_of result)
            self.old self.new trace.old trace.new }
        ensures plain { ArePlain result }
    {
        match self.append(bytes.as_slice(), trace) {
            Appended::Whole => self.answer_written(ticket, count, stable),
            Appended::Failed => Some(Answer::not_written(ticket?, NFS3ERR_IO)),
        }
    }

    // Compares what the file has with bytes, at most 1,048,576.
    fn compare_with(&mut self, offset: u64, bytes: &[u8], trace: &mut Trace) -> Compared
        requires few { length bytes.now ≤ max_transfer }
        requires noted { 0 < trace.old.room }
        ensures same { self.new ≡ record self.old { file = self.new.file } }
        ensures compared { IsSame F.tells bytes.now (range_of offset (length bytes.now) self.old.file.content) result }
        ensures notes { trace.new ≡ with_calls (compare_call result ∷ []) trace.old }
        ensures file { Leaves F.tells [] (compare_call result ∷ []) self.old.file self.new.file }
    {
        lengthen(&mut self.buffer, bytes.len());
        compare_in(&mut self.file, &mut self.buffer, offset, bytes, trace)
    }

    // Does a Compare of at most 1,048,576 bytes.
    fn compare(
        &mut self,
        offset: u64,
        bytes: &Bytes,
        stable: Stable,
        ticket: Ticket,
        trace: &mut Trace,
    ) -> Option<Answer>
        requires room { length self.old.writer.owed < max_waiting }
        requires none_left { self.old.left ≡ [] }
        requires few { length bytes.now ≤ max_transfer }
        requires noted { 0 < trace.old.room }
        ensures works { Works F.tells (CompareJob offset bytes.now stable ticket) (answers_of result)
            self.old self.new trace.old trace.new }
        ensures plain { ArePlain result }
    {
        if self.failed.is_some() {
            return Some(Answer::not_written(ticket, NFS3ERR_IO));
        }
        match self.compare_with(offset, bytes.as_slice(), trace) {
            Compared::Same => self.answer_written(Some(ticket), bytes.len() as u32, stable),
            Compared::Differs => Some(Answer::not_written(ticket, NFS3ERR_INVAL)),
            Compared::ReadFault => Some(Answer::not_written(ticket, NFS3ERR_IO)),
        }
    }

    // Does a Settle.
    fn settle(&mut self, ticket: Ticket) -> Option<Answer>
        requires room { length self.old.writer.owed < max_waiting }
        requires none_left { self.old.left ≡ [] }
        ensures works { (noted : TraceState) → Works F.tells (SettleJob ticket) (answers_of result) self.old self.new noted noted }
        ensures plain { ArePlain result }
    {
        if self.failed.is_some() {
            return Some(Answer::not_committed(ticket, NFS3ERR_IO));
        }
        self.await_sync(Owed::Commit { ticket });
        None
    }

    // Reads `count` bytes, or as many as the file has from `offset` on. For none nothing is called. Takes memory.
    fn read_range(&mut self, offset: u64, count: usize, trace: &mut Trace) -> Found
        requires noted { 0 < trace.old.room }
        ensures { IsRangeFound F.tells offset count result self.old self.new trace.old trace.new }
    {
        let mut bytes = Vec::new(self.alloc);
        if bytes.resize(count, 0).is_err() {
            return Found::NoMemory;
        }
        if count == 0 {
            return Found::Bytes(bytes);
        }
        match calls::read_at(&mut self.file, offset, &mut bytes, trace) {
            Ok(len) => {
                bytes.truncate(len);
                Found::Bytes(bytes)
            }
            Err(_) => Found::ReadFault,
        }
    }

    // How many bytes of a range are stored.
    fn stored_of(&self, offset: u64, count: u32) -> usize
        ensures { result ≡ min (self.now.writer.stored - offset) count }
    {
        self.stored.saturating_sub(offset).min(u64::from(count)) as usize
    }

    // Whether a range ends at or past the stored length.
    fn is_past(&self, offset: u64, count: u32) -> bool
        ensures { result ≡ nat_le self.now.writer.stored (offset + count) }
    {
        offset.saturating_add(u64::from(count)) >= self.stored
    }

    // Does a Fetch: answers what is stored of the range.
    fn fetch(&mut self, offset: u64, count: u32, ticket: Ticket, trace: &mut Trace) -> Answer
        requires noted { 0 < trace.old.room }
        ensures works { Works F.tells (FetchJob offset count ticket) (answer_of result ∷ []) self.old self.new trace.old trace.new }
        ensures plain { IsPlain result.body }
    {
        let eof = self.is_past(offset, count);
        let there = self.stored_of(offset, count);
        let found = self.read_range(offset, there, trace);
        answer_found(self.alloc, found, eof, ticket)
    }

    /// Does a job, and answers its ticket, unless that waits for a sync. Takes memory for a Fetch alone.
    ///
    /// A working writer appends the bytes of a Put. A Compare is answered `NFS3ERR_INVAL` where the file has other bytes
    /// there, and is else as a Put that was done: an UNSTABLE write is answered at once, another one waits for a sync. A
    /// Settle waits for a sync. Where a call on the file fails the answer is `NFS3ERR_IO`; after an append that failed it
    /// is that for each job but a Fetch. A Fetch is answered what is stored of its range, or `SystemErr` where memory was
    /// refused, and then nothing changed.
    ///
    /// It is called where there is room for a ticket, where no answer of a sync is left, and where the trace has room for a
    /// note. A job brings at most 1,048,576 bytes, and what it appends keeps the stored length a `u64`.
    pub fn turn(&mut self, job: Job, trace: &mut Trace) -> Option<Answer>
        requires room { length self.old.writer.owed < max_waiting }
        requires none_left { self.old.left ≡ [] }
        requires few { data_size job ≤ max_transfer }
        requires fits { self.old.writer.failed ≡ None → self.old.writer.stored + put_size job < 2 ^ 64 }
        requires noted { 0 < trace.old.room }
        ensures works { Works F.tells job (answers_of result) self.old self.new trace.old trace.new }
        ensures plain { ArePlain result }
    {
        match job {
            Job::Put {
                number: _,
                bytes,
                stable,
                count,
                ticket,
            } => self.put(&bytes, stable, count, ticket, trace),
            Job::Compare {
                offset,
                bytes,
                stable,
                ticket,
            } => self.compare(offset, &bytes, stable, ticket, trace),
            Job::Fetch {
                offset,
                count,
                ticket,
            } => Some(self.fetch(offset, count, ticket, trace)),
            Job::Settle { ticket } => self.settle(ticket),
        }
    }

    // All that wait are answered so, by `next_answer`, and wait no more.
    fn give_up(&mut self, fate: Fate)
        ensures { self.new ≡ with_fate fate self.old }
    {
        if self.fate.is_none() {
            self.fate = Some(fate);
        }
    }

    // Calls hsync.
    fn sync_file(&mut self, trace: &mut Trace) -> Synced
        requires noted { 0 < trace.old.room }
        ensures new { self.new ≡ record self.old { writer = writer_after_sync result self.old.writer; file = self.new.file } }
        ensures notes { trace.new ≡ with_calls (sync_call result ∷ []) trace.old }
        ensures file { Leaves F.tells [] (sync_call result ∷ []) self.old.file self.new.file }
        ensures durable { IsDurable F.tells result self.new.file }
    {
        match calls::hsync(&mut self.file, trace) {
            Ok(()) => {
                self.synced = self.stored;
                Synced::Done
            }
            Err(_) => Synced::Failed,
        }
    }

    /// Makes what is stored durable, by one call of hsync. Then `next_answer` gives the answers to those that waited, in
    /// the order in which they began to wait: as they asked, or `NFS3ERR_IO` where hsync failed. The writer goes on
    /// working then. The trace has room for a note. Takes no memory.
    pub fn sync(&mut self, trace: &mut Trace) -> Synced
        requires noted { 0 < trace.old.room }
        ensures step { (t : Outcomes) → AnswersLater (writer_sync_step self.old.writer (with_calls_ahead (sync_call result ∷ []) t))
            self.old self.new t }
        ensures notes { trace.new ≡ with_calls (sync_call result ∷ []) trace.old }
        ensures file { Leaves F.tells [] (sync_call result ∷ []) self.old.file self.new.file }
        ensures durable { IsDurable F.tells result self.new.file }
    {
        let synced = self.sync_file(trace);
        self.give_up(fate_after(synced));
        synced
    }

    /// The file is removed: those that wait are answered `NFS3ERR_STALE`, in order, by `next_answer`. Takes no
    /// memory, and makes no call on the file.
    pub fn remove(&mut self)
        ensures { self.new ≡ with_fate Removed self.old }
    {
        self.give_up(Fate::Removed);
    }

    /// The next answer of a sync or of a removal, or none where none is left. Takes no memory.
    pub fn next_answer(&mut self) -> Option<Answer>
        ensures first { option_map answer_of result ≡ slice_get self.old.left 0 }
        ensures rest { self.new ≡ record self.old { left = drop 1 self.old.left } }
        ensures plain { ArePlain result }
    {
        let fate = self.fate?;
        let next = self.owed.pop_front()?;
        Some(next.answered(fate))
    }

    /// Gives the file back, without a call on it. The tickets that still wait for a sync are dropped.
    pub fn into_file(self) -> F
        requires none_left { self.left ≡ [] }
        ensures { file_seen F.mark F.content F.durable F.count F.tally result ≡ self.file }
    {
        let Writer {
            file,
            stored: _,
            synced: _,
            failed: _,
            owed: _,
            fate: _,
            buffer: _,
            alloc: _,
        } = self;
        file
    }

    /// Makes the whole file durable, by one call of hsync, and gives it back. Where that fails the writer stays as it is.
    /// Takes no memory.
    pub fn finish(self, trace: &mut Trace) -> Result<F, (Writer<F>, StoreFault)>
        requires none_waits { self.writer.owed ≡ [] }
        requires none_left { self.left ≡ [] }
        requires noted { 0 < trace.old.room }
        ensures done { IfOk result (λ file. F.tells → F.durable file ≡ length (F.content file)) }
        ensures file { IfOk result (λ file. Leaves F.tells [] (Good ∷ []) self.file
            (file_seen F.mark F.content F.durable F.count F.tally file)) }
        ensures err { IfErr result (λ back. back.0 ≡ record self { file = back.0.file }) }
        ensures err_file { IfErr result (λ back. Leaves F.tells [] (Bad 0 ∷ []) self.file back.0.file) }
        ensures notes { trace.new ≡ with_calls (plain_call result ∷ []) trace.old }
    {
        let mut writer = self;
        match calls::hsync(&mut writer.file, trace) {
            Ok(()) => Ok(writer.into_file()),
            Err(fault) => Err((writer, fault)),
        }
    }
}
