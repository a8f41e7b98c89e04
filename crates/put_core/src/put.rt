// The core of an upload.
ghost use Rattle.std.specs.Prelude.{◌≡◌, ◌+◌, ◌*◌, ◌<◌, ◌≤◌, false, IfOk, length, get_or};
ghost use Rattle.gw_model.specs.Bounds.{max_transfer};
ghost use Rattle.put_core.specs.declared.call.ChunkState.TheVariants.{Idle};
ghost use Rattle.put_core.specs.Steps.{after_beginning, after_broken, after_commit_reply, after_hold, after_next, after_rejection, after_reply, after_retry, after_write_reply, choice_of, chunk_count, count_of, is_commit_xid, is_finished, is_spent, may_hold, most_beginnings, most_breaks, most_chunks, most_retries, most_window, new_put, next_chunk, next_of, no_write, offset_of, without_commit, without_write, write_place};
ghost use Rattle.put_core.specs.Kept.{xid_bound};
ghost use Rattle.put_core.specs.Calls.{IsInSource, WaitsForReply};

use crate::call::{Choice, ChunkState, Next, PutAnswer, PutEnding, SentWrite};
use crate::chunks::{forget_held, idle_place, release_all, unheld_from};
use gw_model::NoMemory;
use gw_model::status::{NFS3ERR_IO, NFS3ERR_JUKEBOX, NFS3ERR_STALE};
use std::alloc::Global;
use std::marker::Model;

// An upload that begins anew so often, or has to send so many calls again, is given up.
const MOST_BEGINNINGS: u32 = 16;

const MOST_RETRIES: u32 = 1024;

/// An upload of a source of known length into an empty file. It knows which chunks the server took under one verifier
/// (RFC 1813 section 3.3.7), and commits when it took all.
#[derive(Drop)]
pub struct Put {
    size: u64,
    chunk: u32,
    window: u32,
    backward: bool,
    chunks: Vec<ChunkState>,
    // the least chunk that isn't held
    first: usize,
    // the outstanding WRITEs, in the order of their xids
    writes: Vec<SentWrite>,
    // the xid of the outstanding COMMIT
    commit: Option<u32>,
    // the last xid given out
    last: u32,
    // the verifier of the chunks that are held
    verifier: Option<u64>,
    beginnings: u32,
    retries: u32,
    breaks: u32,
    ending: Option<PutEnding>,
}

impl Model for Put {
    ghost use Rattle.std.specs.Prelude.{vec_capacity};
    ghost use Rattle.put_core.specs.Steps.{PutState};

    ghost Value = { PutState };

    ghost use Rattle.put_core.specs.Views.{put_view};
    ghost use Rattle.put_core.specs.Kept.{IsKept};

    ghost view = { put_view };

    ghost invariant = { λ p. IsKept (put_view p) p.first (vec_capacity p.writes) };
}

/// How many chunks of `chunk` bytes a source of `length` bytes has; the last one may be shorter.
pub fn chunk_count(length: u64, chunk: u32) -> u64
    requires { 1 ≤ chunk }
    ensures { result ≡ chunk_count length chunk }
{
    length.div_ceil(u64::from(chunk))
}

impl Put {
    /// An upload of `length` bytes in chunks of `chunk` bytes that has sent nothing. It goes on window by window, each of
    /// `window` chunks; `backward` sends each from its last chunk to its first. What was outstanding at a new beginning
    /// stays so: by each of these a window's WRITEs more may be outstanding.
    ///
    /// Takes all the memory that the upload needs: a byte for each chunk, and eight for each chunk of 16 windows.
    pub fn new(
        alloc: Global,
        length: u64,
        chunk: u32,
        window: u32,
        backward: bool,
    ) -> Result<Self, NoMemory>
        requires chunk { (1 ≤ chunk) × (chunk ≤ max_transfer) }
        requires window { (1 ≤ window) × (window ≤ most_window) }
        requires chunks { chunk_count length chunk ≤ most_chunks }
        ensures { IfOk result (λ put. put ≡ new_put length chunk window backward) }
    {
        let number = chunk_count(length, chunk) as usize;
        let Ok(chunks) = vec![in alloc; ChunkState::Idle; number] else {
            return Err(NoMemory);
        };
        let most_writes = MOST_BEGINNINGS as usize * window as usize;
        let Ok(writes) = Vec::with_capacity(alloc, most_writes) else {
            return Err(NoMemory);
        };
        Ok(Put {
            size: length,
            chunk,
            window,
            backward,
            chunks,
            first: 0,
            writes,
            commit: None,
            last: 0,
            verifier: None,
            beginnings: 0,
            retries: 0,
            breaks: 0,
            ending: None,
        })
    }

    /// What is to be done next; a call that it answers counts as sent. A WRITE is of bytes of the source, `Wait` comes only
    /// where a call is outstanding, and at most 16 windows of WRITEs are.
    ///
    /// Takes no memory, and the time of a look at one window.
    pub fn next_call(&mut self) -> Next
        ensures answer { result ≡ next_of self.old }
        ensures after { self.new ≡ after_next self.old }
        ensures inside { IsInSource self.old.size result }
        ensures waits { WaitsForReply result self.new }
        ensures few { length self.new.writes ≤ most_beginnings * self.new.window }
    {
        match self.choice() {
            Choice::Sends(chunk) => {
                let xid = self.new_xid();
                let offset = self.offset_of(chunk);
                let count = self.count_of(chunk);
                self.chunks[chunk as usize] = ChunkState::Sent;
                self.writes.push_reserved(SentWrite { xid, chunk });
                self.last = xid;
                Next::Write { xid, offset, count }
            }
            Choice::Commits => {
                let xid = self.new_xid();
                self.commit = Some(xid);
                self.last = xid;
                Next::Commit { xid }
            }
            Choice::Waits => Next::Wait,
            Choice::Ends(answer) => answer,
        }
    }

    /// Hears a reply. One to an xid that isn't outstanding, one of the other kind of call, and one that comes after the
    /// end change nothing.
    ///
    /// Takes no memory, and the time of a look at the outstanding WRITEs; at a new beginning, at all chunks.
    pub fn reply(&mut self, xid: u32, answer: PutAnswer)
        ensures { self.new ≡ after_reply xid answer self.old }
    {
        if self.is_finished() {
            return;
        }
        if self.is_commit_xid(xid) {
            self.hear_commit_reply(answer);
            return;
        }
        if let Some(place) = self.write_place(xid) {
            self.hear_write_reply(place, answer);
        }
    }

    /// Hears that the link broke: each outstanding call is to be sent again, under a new xid. It may be told so 16 times,
    /// so that no xid passes a `u32`.
    ///
    /// Takes no memory, and the time of a look at the outstanding WRITEs.
    pub fn broken(&mut self)
        requires { self.old.breaks < most_breaks }
        ensures { self.new ≡ after_broken self.old }
    {
        release_all(&mut self.chunks, &self.writes);
        self.writes.clear();
        self.commit = None;
        self.breaks += 1;
    }

    // The xid of the next call. No xid is given out twice.
    fn new_xid(&self) -> u32
        ensures { result ≡ self.now.last + 1 }
    {
        self.last + 1
    }

    // What is to be done next.
    fn choice(&self) -> Choice
        ensures { result ≡ choice_of self.now }
    {
        match self.ending {
            Some(PutEnding::Durable(verifier)) => return Choice::Ends(Next::Done { verifier }),
            Some(PutEnding::Rejected(status)) => return Choice::Ends(Next::Refused { status }),
            None => {}
        }
        if self.is_spent() {
            return Choice::Ends(Next::Spent {
                beginnings: self.beginnings,
                retries: self.retries,
            });
        }
        if self.first < self.chunks.len() {
            return match self.next_chunk() {
                Some(chunk) => Choice::Sends(chunk as u32),
                None => Choice::Waits,
            };
        }
        if self.commit.is_none() && self.writes.is_empty() {
            Choice::Commits
        } else {
            Choice::Waits
        }
    }

    // The chunk of the present window that is to be sent next.
    fn next_chunk(&self) -> Option<usize>
        ensures { result ≡ next_chunk self.now }
    {
        let window = self.window as usize;
        let start = self.first - self.first % window;
        let end = self.chunks.len().min(start + window);
        let place = idle_place(&self.chunks[start..end], self.backward)?;
        Some(start + place)
    }

    // Where a chunk begins.
    fn offset_of(&self, chunk: u32) -> u64
        requires { chunk < most_chunks }
        ensures { result ≡ offset_of self.now chunk }
    {
        u64::from(chunk) * u64::from(self.chunk)
    }

    // How many bytes a chunk has.
    fn count_of(&self, chunk: u32) -> u32
        requires { chunk < most_chunks }
        ensures { result ≡ count_of self.now chunk }
    {
        let rest = self.size.saturating_sub(self.offset_of(chunk));
        u64::from(self.chunk).min(rest) as u32
    }

    fn is_spent(&self) -> bool
        ensures { result ≡ is_spent self.now }
    {
        self.beginnings >= MOST_BEGINNINGS || self.retries >= MOST_RETRIES
    }

    // The upload ended, or is given up.
    fn is_finished(&self) -> bool
        ensures { result ≡ is_finished self.now }
    {
        self.ending.is_some() || self.is_spent()
    }

    // The COMMIT of this xid is outstanding.
    fn is_commit_xid(&self, xid: u32) -> bool
        ensures { result ≡ is_commit_xid xid self.now.commit }
    {
        match self.commit {
            Some(number) => number == xid,
            None => false,
        }
    }

    // The place of the outstanding WRITE of this xid.
    fn write_place(&self, xid: u32) -> Option<usize>
        ensures { result ≡ write_place xid self.now.writes }
    {
        self.writes.iter().position(|write| write.xid == xid)
    }

    // The verifier is that of the chunks that are held, or none is.
    fn may_hold(&self, verifier: u64) -> bool
        ensures { result ≡ may_hold verifier self.now.verifier }
    {
        match self.verifier {
            Some(held) => held == verifier,
            None => true,
        }
    }

    // Hears a reply to the outstanding COMMIT.
    fn hear_commit_reply(&mut self, answer: PutAnswer)
        requires { is_finished self.old ≡ false }
        ensures { self.new ≡ after_commit_reply answer self.old }
    {
        match answer {
            PutAnswer::Written {
                count: _,
                verifier: _,
            } => {}
            PutAnswer::Committed { verifier } => {
                if self.may_hold(verifier) {
                    self.ending = Some(PutEnding::Durable(verifier));
                } else {
                    self.begin_again();
                    self.close_commit();
                }
            }
            PutAnswer::Failed { status } => match status {
                NFS3ERR_JUKEBOX => {
                    self.count_retry();
                    self.close_commit();
                }
                NFS3ERR_IO | NFS3ERR_STALE => {
                    self.begin_again();
                    self.close_commit();
                }
                _ => self.reject(status),
            },
        }
    }

    // Hears a reply to the outstanding WRITE at this place.
    fn hear_write_reply(&mut self, place: usize, answer: PutAnswer)
        requires running { is_finished self.old ≡ false }
        requires place { place < length self.old.writes }
        ensures { self.new ≡ after_write_reply place (get_or self.old.writes place no_write).chunk answer self.old }
    {
        match answer {
            PutAnswer::Written { count, verifier } => {
                let is_whole = count == self.count_at(place);
                if !self.may_hold(verifier) {
                    self.begin_again();
                }
                if is_whole {
                    self.hold(place, verifier);
                } else {
                    self.count_retry();
                    self.release(place);
                }
            }
            PutAnswer::Committed { verifier: _ } => {}
            PutAnswer::Failed { status } => match status {
                NFS3ERR_JUKEBOX => {
                    self.count_retry();
                    self.release(place);
                }
                NFS3ERR_IO | NFS3ERR_STALE => {
                    self.begin_again();
                    self.release(place);
                }
                _ => self.reject(status),
            },
        }
    }

    // How many bytes the outstanding WRITE at this place has.
    fn count_at(&self, place: usize) -> u32
        requires { place < length self.now.writes }
        ensures { result ≡ count_of self.now (get_or self.now.writes place no_write).chunk }
    {
        self.count_of(self.writes[place].chunk)
    }

    // Begins anew: no chunk is held.
    fn begin_again(&mut self)
        requires { self.old.beginnings < most_beginnings }
        ensures after { self.new ≡ after_beginning self.old }
        ensures slack { self.new.last < xid_bound self.new }
    {
        forget_held(&mut self.chunks);
        self.first = 0;
        self.verifier = None;
        self.beginnings += 1;
    }

    // Counts a call that is to be sent again.
    fn count_retry(&mut self)
        requires { self.old.retries < most_retries }
        ensures after { self.new ≡ after_retry self.old }
        ensures slack { self.new.last < xid_bound self.new }
    {
        self.retries += 1;
    }

    // The upload is refused.
    fn reject(&mut self, status: u32)
        ensures { self.new ≡ after_rejection status self.old }
    {
        self.ending = Some(PutEnding::Rejected(status));
    }

    // The COMMIT isn't outstanding any more.
    fn close_commit(&mut self)
        requires { self.old.last < xid_bound self.old }
        ensures { self.new ≡ without_commit self.old }
    {
        self.commit = None;
    }

    // The WRITE at this place isn't outstanding any more, and its chunk is to be sent.
    fn release(&mut self, place: usize)
        requires place { place < length self.old.writes }
        requires slack { self.old.last < xid_bound self.old }
        ensures { self.new ≡ without_write place (get_or self.old.writes place no_write).chunk Idle self.old }
    {
        let SentWrite { xid: _, chunk } = self.writes.remove(place);
        self.chunks[chunk as usize] = ChunkState::Idle;
    }

    // The WRITE at this place isn't outstanding any more, and its chunk is held under this verifier.
    fn hold(&mut self, place: usize, verifier: u64)
        requires { place < length self.old.writes }
        ensures { self.new ≡ after_hold place (get_or self.old.writes place no_write).chunk verifier self.old }
    {
        let SentWrite { xid: _, chunk } = self.writes.remove(place);
        self.chunks[chunk as usize] = ChunkState::Held;
        self.first = unheld_from(&self.chunks, self.first);
        self.verifier = Some(verifier);
    }
}
