// The store over a folder of files of the operating system.
ghost use Rattle.std.specs.Prelude.{◌≡◌, ◌≤◌, ◌||◌, ◌^◌, ◌<◌, true, false, length, is_err, IfOk, OnOk, OnErr, IsErrOf, Ok};
ghost use Rattle.gw_model.specs.declared.object.ObjectId.{ObjectId};
ghost use Rattle.gw_outside.specs.Causes.{Carries, HasCause, Rose};
ghost use Rattle.gw_outside.specs.Tally.{joined_tally, no_calls, one_call};
ghost use Rattle.append_store.specs.State.{Missing};
ghost use Rattle.append_store.specs.Calls.{IsRising, creation_tally, listing_tally};

use crate::folder::{Disk, Folder, FolderFault, fault_of};
use crate::host_file::{HostFile, read_part};
use append_store::{Cluster, CreateFault, ListFault, StoreFault};
use gw_model::{KeptObject, ObjectId};
use gw_outside::Tally;
use std::io;

/// A store over a folder: each object is a file of it, under the name that `push_name` gives. Files of
/// other names stand there untouched. The folder is locked while the store lasts.
#[derive(Drop)]
pub struct HostStore<R: Disk> {
    folder: Folder<R>,
    tally: Tally,
}

// Counts a call by what the system answered.
fn counted<T: Drop>(tally: &mut Tally, answer: io::Result<T>) -> Result<T, StoreFault>
    ensures counted { tally.new ≡ one_call (is_err result) tally.old }
    ensures answer { IfOk result (λ value. answer ≡ Ok value) }
{
    tally.count(answer.is_err());
    answer.map_err(|_| StoreFault)
}

impl<R: Disk> HostStore<R> {
    /// A store of the objects that are in a folder, each with all its bytes durable. No call is
    /// counted. Takes memory.
    pub fn open(files: R, folder: &str) -> Result<HostStore<R>, FolderFault>
        ensures no_calls { IfOk result (λ store. store.tally ≡ no_calls) }
        ensures synced { IfOk result (λ store. store.folder.stuck ≡ false) }
    {
        let mut folder = Folder::open(files, folder)?;
        folder.sync().map_err(fault_of)?;
        Ok(HostStore {
            folder,
            tally: Tally::new(),
        })
    }
}

impl<R: Disk> Cluster for HostStore<R> {
    type File = HostFile;

    ghost at = { λ c q. Missing };

    ghost losses = { λ c q. 0 };

    ghost count = { λ c. c.tally.failed };

    ghost tally = { λ c. c.tally };

    /// The objects whose files are in the folder. A name that is no object's is passed over. Takes
    /// memory.
    fn list(&mut self) -> Result<Vec<KeptObject>, ListFault>
        ensures rising { IfOk result (λ all. IsRising all.items) }
        ensures later { self.old.tally.failed ≤ self.new.tally.failed }
        ensures counted { self.new.tally ≡ listing_tally result self.old.tally }
        ensures cause { IsErrOf result ListFault.Fault → Rose self.old.tally.failed self.new.tally.failed }
        ensures synced { self.new.folder.stuck ≡ self.old.folder.stuck }
    {
        let answer = self.folder.list();
        match answer {
            Ok(_) => self.tally.count(false),
            Err(ListFault::Fault) => self.tally.count(true),
            Err(ListFault::Memory) => {}
        }
        answer
    }

    fn create(&mut self, object: ObjectId) -> Result<(), CreateFault>
        ensures later { self.old.tally.failed ≤ self.new.tally.failed }
        ensures counted { self.new.tally ≡ creation_tally result self.old.tally }
        ensures cause { IsErrOf result CreateFault.Fault → Rose self.old.tally.failed self.new.tally.failed }
        ensures again { OnOk result (self.old.folder.stuck ≡ false) }
        ensures lasts { self.old.folder.stuck ≡ true → self.new.folder.stuck ≡ true }
    {
        let answer = self.folder.create(object);
        match answer {
            Ok(()) => self.tally.count(false),
            Err(CreateFault::Fault) => self.tally.count(true),
            Err(CreateFault::Memory) => {}
        }
        answer
    }

    fn take_file(&mut self, object: ObjectId) -> Result<HostFile, StoreFault>
        ensures fresh { IfOk result (λ file. file.tally.failed ≡ 0) }
        ensures no_calls { IfOk result (λ file. file.tally ≡ no_calls) }
        ensures object { IfOk result (λ file. file.object ≡ object) }
        ensures counted { self.new.tally ≡ one_call (is_err result) self.old.tally }
        ensures cause { HasCause self.old.tally.failed self.new.tally.failed result }
        ensures synced { self.new.folder.stuck ≡ self.old.folder.stuck }
        ensures stuck { IfOk result (λ file. file.stuck ≡ self.old.folder.stuck) }
    {
        let answer = self.folder.open_object(object);
        let (file, end) = counted(&mut self.tally, answer)?;
        Ok(HostFile::taken(object, file, end, self.folder.stuck()))
    }

    /// Closes the file. Where a sync of it failed, the files that are taken later have the failure too.
    fn give_file(&mut self, object: ObjectId, file: HostFile)
        ensures counted { self.new.tally ≡ joined_tally self.old.tally file.tally }
        ensures count { Carries self.old.tally.failed file.tally.failed self.new.tally.failed }
        ensures stuck { self.new.folder.stuck ≡ (self.old.folder.stuck || file.stuck) }
    {
        self.folder.stick(file.stuck());
        self.tally.join(file.tally());
    }

    fn read_closed(
        &mut self,
        object: ObjectId,
        offset: u64,
        out: &mut [u8],
    ) -> Result<usize, StoreFault>
        ensures bound { IfOk result (λ n. n ≤ length out.old) }
        ensures counted { self.new.tally ≡ one_call (is_err result) self.old.tally }
        ensures cause { HasCause self.old.tally.failed self.new.tally.failed result }
        ensures synced { self.new.folder.stuck ≡ self.old.folder.stuck }
    {
        let answer = match self.folder.open_object(object) {
            Ok((file, end)) => read_part(&file, end, offset, out),
            Err(error) => Err(error),
        };
        counted(&mut self.tally, answer)
    }

    fn delete(&mut self, object: ObjectId) -> Result<(), StoreFault>
        ensures counted { self.new.tally ≡ one_call (is_err result) self.old.tally }
        ensures cause { HasCause self.old.tally.failed self.new.tally.failed result }
        ensures again { OnOk result (self.old.folder.stuck ≡ false) }
        ensures lasts { self.old.folder.stuck ≡ true → self.new.folder.stuck ≡ true }
    {
        let answer = self.folder.remove(object);
        counted(&mut self.tally, answer)
    }

    /// Makes all that is there durable. Takes memory; it fails where that is refused, and after a sync
    /// that failed.
    fn reopen(&mut self, pick: u64) -> Result<(), StoreFault>
        ensures counted { self.new.tally ≡ one_call (is_err result) self.old.tally }
        ensures cause { HasCause self.old.tally.failed self.new.tally.failed result }
        ensures again { OnOk result (self.old.folder.stuck ≡ false) }
        ensures lasts { self.old.folder.stuck ≡ true → self.new.folder.stuck ≡ true }
    {
        let answer = self.folder.sync();
        counted(&mut self.tally, answer)
    }

    fn faults(&self) -> u64 {
        self.tally.failed
    }
}
