// A file of the operating system that only grows.
ghost use Rattle.std.specs.Prelude.{◌≡◌, ◌+◌, ◌-◌, ◌<◌, ◌≤◌, ◌^◌, [], ◌∷◌, false, length, min, replicate, is_err, IfErr, IfOk, OnOk, OnErr};
ghost use Rattle.gw_outside.specs.Causes.{HasCause};
ghost use Rattle.gw_outside.specs.Tally.{no_calls, one_call};
ghost use Rattle.append_store.specs.Calls.{added_count};

use crate::folder::settle;
use append_store::{AppendFault, AppendFile, StoreFault};
use gw_model::{END_LIMIT, ObjectId};
use gw_outside::Tally;
use std::fs::File;
use std::io::{self, ErrorKind};
use std::os::unix::fs::FileExt;

/// A file of the operating system. It tells its length and what it counted, and not what it holds.
/// Bytes are added where the file ended when it was taken, or behind those that were added since.
/// After a sync that failed each later one of the file fails, since the system may count as written
/// what was lost.
#[derive(Drop)]
pub struct HostFile {
    object: ObjectId,
    file: File,
    end: u64,
    stuck: bool,
    tally: Tally,
    ghost low: { end < 2 ^ 63 },
}

// Adds bytes at an end; how many of them, from the front on, the system took.
fn write_some(file: &File, end: u64, bytes: &[u8]) -> usize
    ensures few { result ≤ length bytes.now }
    ensures low { end < 2 ^ 63 → end + result < 2 ^ 63 }
{
    if bytes.len() as u64 >= END_LIMIT.saturating_sub(end) {
        return 0;
    }
    let mut at = 0;
    for _ in 0..u64::MAX {
        if at >= bytes.len() {
            break;
        }
        match file.write_at(&bytes[at..], end + at as u64) {
            Ok(0) => break,
            Ok(count) => at += count,
            Err(error) if error.kind() == ErrorKind::Interrupted => {}
            Err(_) => break,
        }
    }
    at
}

// Reads what lies between an offset and an end, as far as there is room, and gives how many bytes
// that were. A file that is shorter is a failure.
pub(crate) fn read_part(file: &File, end: u64, offset: u64, out: &mut [u8]) -> io::Result<usize>
    ensures { IfOk result (λ n. n ≡ min (length out.old) (end - offset)) }
{
    let count = (out.len() as u64).min(end.saturating_sub(offset)) as usize;
    file.read_exact_at(&mut out[..count], offset)?;
    Ok(count)
}

impl HostFile {
    // A file that was taken, which has so many bytes.
    pub(crate) fn taken(object: ObjectId, file: File, end: u64, stuck: bool) -> HostFile
        requires { end < 2 ^ 63 }
        ensures no_calls { result.tally ≡ no_calls }
        ensures object { result.object ≡ object }
        ensures stuck { result.stuck ≡ stuck }
        ensures end { result.end ≡ end }
    {
        HostFile {
            object,
            file,
            end,
            stuck,
            tally: Tally::new(),
        }
    }

    pub(crate) fn stuck(&self) -> bool
        ensures { result ≡ self.now.stuck }
    {
        self.stuck
    }

    /// What the file counted since it was taken.
    pub fn tally(&self) -> Tally
        ensures { result ≡ self.now.tally }
    {
        self.tally
    }
}

impl AppendFile for HostFile {
    ghost tells = { ⊥ };

    ghost mark = { λ f. f.object ∷ [] };

    ghost content = { λ f. replicate f.end 0 };

    ghost durable = { λ f. 0 };

    ghost count = { λ f. f.tally.failed };

    ghost tally = { λ f. f.tally };

    ghost durable_within = { λ f told. absurd told };

    fn append(&mut self, bytes: &[u8]) -> Result<(), AppendFault>
        ensures kept { IfErr result (λ e. e.kept < length bytes.now) }
        ensures grown { self.new.end ≡ self.old.end + added_count result (length bytes.now) }
        ensures same { self.new.object ≡ self.old.object }
        ensures synced { self.new.stuck ≡ self.old.stuck }
        ensures counted { self.new.tally ≡ one_call (is_err result) self.old.tally }
        ensures cause { HasCause self.old.tally.failed self.new.tally.failed result }
    {
        let kept = write_some(&self.file, self.end, bytes);
        self.end += kept as u64;
        self.tally.count(kept < bytes.len());
        if kept < bytes.len() {
            return Err(AppendFault { kept: kept as u64 });
        }
        Ok(())
    }

    fn hsync(&mut self) -> Result<(), StoreFault>
        ensures stuck { self.new.stuck ≡ is_err result }
        ensures again { OnOk result (self.old.stuck ≡ false) }
        ensures end { self.new.end ≡ self.old.end }
        ensures same { self.new.object ≡ self.old.object }
        ensures counted { self.new.tally ≡ one_call (is_err result) self.old.tally }
        ensures cause { HasCause self.old.tally.failed self.new.tally.failed result }
    {
        let answer = settle(&mut self.stuck, &self.file);
        self.tally.count(answer.is_err());
        answer.map_err(|_| StoreFault)
    }

    fn read_at(&mut self, offset: u64, out: &mut [u8]) -> Result<usize, StoreFault>
        ensures count { IfOk result (λ n. n ≡ min (length out.old) (self.old.end - offset)) }
        ensures end { self.new.end ≡ self.old.end }
        ensures synced { self.new.stuck ≡ self.old.stuck }
        ensures same { self.new.object ≡ self.old.object }
        ensures counted { self.new.tally ≡ one_call (is_err result) self.old.tally }
        ensures cause { HasCause self.old.tally.failed self.new.tally.failed result }
    {
        let answer = read_part(&self.file, self.end, offset, out);
        self.tally.count(answer.is_err());
        answer.map_err(|_| StoreFault)
    }

    fn len(&self) -> u64 {
        self.end
    }

    fn faults(&self) -> u64 {
        self.tally.failed
    }
}
