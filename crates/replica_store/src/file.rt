// A file over the members' files.
ghost use Rattle.std.specs.Prelude.{◌≡◌, ◌≤◌, length};

use crate::calls::Answered;
use crate::parts::{
    Lead, Part, append_all, count_faults, count_live, len_of, read_first, sync_each,
};
use crate::seats::Known;
use append_store::{AppendFault, AppendFile, StoreFault};
use std::marker::Model;

/// A file over the files that the members have of an object. A member's file is dropped where it
/// kept fewer bytes of an append than another one, or where an hsync or a read of it failed: it is
/// called no more, and goes back with the others. The file's bytes are the chief's, and durable is
/// what the last hsync that was done covered. Its count of faults is those of the members' files
/// and one for each fault that it answered, up to the greatest u64.
#[derive(Drop)]
pub struct ReplicaFile<F: AppendFile> {
    parts: Vec<Part<F>>,
    chief: usize,
    quorum: usize,
    synced: u64,
    answered: Answered,
}

impl<F: AppendFile> Model for ReplicaFile<F> {
    ghost use Rattle.replica_store.specs.Parts.{FilesState, AreCopies};

    ghost Value = { FilesState };

    ghost view = { λ f. record { parts = f.parts.items; chief = f.chief; quorum = f.quorum; synced = f.synced; answered = f.answered } };

    ghost invariant = { λ f. AreCopies F.tells f.parts.items f.chief f.synced };
}

impl<F: AppendFile> ReplicaFile<F> {
    ghost use Rattle.replica_store.specs.Parts.{AreCopies, fresh_files, live_of};

    /// A file over the files that the members gave of one object, each at its member's place. The
    /// chief tells its bytes; all that are written have these, with `synced` of them durable at
    /// least. An hsync is done where at least `quorum` files are.
    pub fn over(parts: Vec<Part<F>>, chief: usize, quorum: usize, synced: u64) -> Self
        requires copies { AreCopies F.tells parts.items chief synced }
        ensures { result ≡ fresh_files parts.items chief quorum synced }
    {
        ReplicaFile {
            parts,
            chief,
            quorum,
            synced,
            answered: Answered::new(),
        }
    }

    /// How many of the members' files are still written.
    pub fn live(&self) -> usize
        ensures { result ≡ live_of self.now.parts }
    {
        count_live(&self.parts)
    }

    /// The members' files, each at its member's place.
    pub fn into_parts(self) -> Vec<Part<F>>
        ensures { result.items ≡ self.parts }
    {
        self.parts
    }

    // What is to be kept of the object when the file goes back, and the calls that it answered.
    pub(crate) fn into_kept(self) -> (Known<F>, Answered)
        ensures copies { AreCopies F.tells result.0.parts result.0.chief result.0.synced }
        ensures kept { result.0 ≡ record { chief = self.chief; synced = self.synced; parts = self.parts } }
        ensures answered { result.1 ≡ self.answered }
    {
        let kept = Known {
            chief: self.chief,
            synced: self.synced,
            parts: self.parts,
        };
        (kept, self.answered)
    }

    /// Whenever no call is under way, all files that are written have the bytes of the chief, and
    /// what was synced is durable in each.
    pub fn copies_law(&self)
        ensures { AreCopies F.tells self.now.parts self.now.chief self.now.synced }
    {
        let _chief = self.chief;
    }
}

impl<F: AppendFile> AppendFile for ReplicaFile<F> {
    ghost use Rattle.std.specs.Prelude.{◌-◌, ◌++◌, ◌<◌, min, take, is_err, IfErr, IfOk, OnErr, OnOk};
    ghost use Rattle.std.specs.List.{AllZip};
    ghost use Rattle.std.proofs.Math.Nat.{min-le_right};
    ghost use Rattle.gw_outside.specs.Causes.{HasCause};
    ghost use Rattle.gw_outside.specs.Tally.{one_call};
    ghost use Rattle.append_store.specs.Calls.{added_count, part_at};
    ghost use Rattle.replica_store.specs.Parts.{AllFailed, OnlyFailedDropped, Syncs, bytes_in, count_in, durable_in, file_mark, live_of};

    ghost tells = { F.tells };

    ghost mark = { λ f. file_mark f };

    ghost content = { λ f. bytes_in f };

    ghost durable = { λ f. durable_in f };

    ghost count = { λ f. count_in f };

    ghost tally = { λ f. f.answered.tally };

    ghost durable_within = { λ f told. min-le_right f.synced (length (bytes_in f)) };

    /// Adds `bytes` to each file that is still written. Those that kept fewer than the most are
    /// dropped. It fails only where each of them failed.
    fn append(&mut self, bytes: &[u8]) -> Result<(), AppendFault>
        ensures kept { IfErr result (λ e. e.kept ≤ length bytes.now) }
        ensures content { F.tells → bytes_in self.new ≡ bytes_in self.old ++ take (added_count result (length bytes.now)) bytes.now }
        ensures durable { F.tells → durable_in self.old ≤ durable_in self.new }
        ensures same { file_mark self.new ≡ file_mark self.old }
        ensures counted { self.new.answered.tally ≡ one_call (is_err result) self.old.answered.tally }
        ensures cause { HasCause (count_in self.old) (count_in self.new) result }
        ensures failed { OnErr result (AllFailed self.old.parts self.new.parts) }
        ensures dropped { OnlyFailedDropped self.old.parts self.new.parts }
        ensures quorum { self.new.quorum ≡ self.old.quorum }
    {
        match append_all(&mut self.parts, bytes) {
            Some(Lead { index, kept }) => {
                self.chief = index;
                if kept == bytes.len() as u64 {
                    self.answered.done();
                    return Ok(());
                }
                self.answered.fail();
                Err(AppendFault { kept })
            }
            None => {
                self.answered.fail();
                Err(AppendFault { kept: 0 })
            }
        }
    }

    /// Makes each file durable that is still written, and drops those that fail. It fails exactly
    /// where fewer than the quorum are left.
    fn hsync(&mut self) -> Result<(), StoreFault>
        ensures done { OnOk result (F.tells → durable_in self.new ≡ length (bytes_in self.new)) }
        ensures content { F.tells → bytes_in self.new ≡ bytes_in self.old }
        ensures durable { F.tells → durable_in self.old ≤ durable_in self.new }
        ensures same { file_mark self.new ≡ file_mark self.old }
        ensures counted { self.new.answered.tally ≡ one_call (is_err result) self.old.answered.tally }
        ensures cause { HasCause (count_in self.old) (count_in self.new) result }
        ensures each { AllZip (Syncs F.tells) self.old.parts self.new.parts }
        ensures enough { OnOk result (self.old.quorum ≤ live_of self.new.parts) }
        ensures failed { OnErr result (live_of self.new.parts < self.old.quorum) }
        ensures dropped { OnlyFailedDropped self.old.parts self.new.parts }
        ensures quorum { self.new.quorum ≡ self.old.quorum }
    {
        sync_each(&mut self.parts);
        if count_live(&self.parts) < self.quorum {
            self.answered.fail();
            return Err(StoreFault);
        }
        self.answered.done();
        self.synced = len_of(&self.parts, self.chief);
        Ok(())
    }

    /// Reads the first file that is still written, drops it where that fails, and goes on. It fails
    /// only where each of them failed.
    fn read_at(&mut self, offset: u64, out: &mut [u8]) -> Result<usize, StoreFault>
        ensures length { IfOk result (λ n. n ≡ min (length out.old) (length (bytes_in self.old) - offset)) }
        ensures bytes { IfOk result (λ n. F.tells → take n out.new ≡ part_at (bytes_in self.old) offset n) }
        ensures content { F.tells → bytes_in self.new ≡ bytes_in self.old }
        ensures durable { F.tells → durable_in self.new ≡ durable_in self.old }
        ensures same { file_mark self.new ≡ file_mark self.old }
        ensures counted { self.new.answered.tally ≡ one_call (is_err result) self.old.answered.tally }
        ensures cause { HasCause (count_in self.old) (count_in self.new) result }
        ensures failed { OnErr result (F.tells → AllFailed self.old.parts self.new.parts) }
        ensures dropped { OnlyFailedDropped self.old.parts self.new.parts }
        ensures quorum { self.new.quorum ≡ self.old.quorum }
    {
        let size = len_of(&self.parts, self.chief);
        if let Some(count) = read_first(&mut self.parts, size, offset, out) {
            self.answered.done();
            return Ok(count);
        }
        self.answered.fail();
        Err(StoreFault)
    }

    fn len(&self) -> u64 {
        len_of(&self.parts, self.chief)
    }

    fn faults(&self) -> u64 {
        count_faults(&self.parts, self.answered.refusals)
    }
}
