// A folder of the operating system, and the files in it.
ghost use Rattle.std.specs.Prelude.{◌≡◌, ◌++◌, ◌∷◌, [], ◌<◌, ◌^◌, ◌||◌, true, false, is_err, OnOk, IfOk, string_bytes};
ghost use Rattle.std.specs.BTreeMap.{IsOrdered};
ghost use Rattle.append_store.specs.Calls.{IsRising, object_cmp};
ghost use Rattle.std.specs.IoError.{error_kind};
ghost use Rattle.store_host.specs.Faults.{folder_fault};
ghost use Rattle.store_host.specs.Listing.{kept_objects};
ghost use Rattle.store_host.specs.ObjectNames.{object_name};

use crate::names::{object_of, push_name, push_number};
use append_store::{CreateFault, ListFault};
use gw_model::{END_LIMIT, KeptObject, ObjectId};
use std::alloc::{AllocError, Global};
use std::collections::BTreeMap;
use std::fs::{self, DirEntry, File, OpenOptions, TryLockError};
use std::io::{self, ErrorKind};
use std::rt::Files;
use thiserror::Error;

/// Why a folder can't be used.
#[derive(Clone, Copy, Debug, PartialEq, Eq, Error)]
pub enum FolderFault {
    /// Nothing has that path.
    #[error("no such folder")]
    Missing,
    /// What has that path is no folder.
    #[error("not a folder")]
    NotAFolder,
    /// The system doesn't permit it.
    #[error("permission denied")]
    Denied,
    /// It is held open already, by this process or by another one.
    #[error("the folder is in use")]
    InUse,
    /// Memory was refused.
    #[error("out of memory")]
    Memory,
    /// The system failed in another way.
    #[error("the system failed")]
    Failed,
}

/// What reaches the files of the operating system.
pub trait Disk: Files<File = File> + AllocGlobal + Clone + Drop {}

impl<R: Files<File = File> + AllocGlobal + Clone + Drop> Disk for R {}

// The most bytes that the name of a file in such a folder has.
const LONGEST_NAME: usize = 46;

/// A folder that is held open and locked.
#[derive(Drop)]
pub(crate) struct Folder<R: Disk> {
    files: R,
    handle: File,
    // ends in a slash
    folder: String,
    // the path of the file that a call is about, with room for each name
    path: String,
    // a sync failed
    stuck: bool,
}

// What an error of the system means for a folder.
pub(crate) fn fault_of(error: io::Error) -> FolderFault
    ensures { result ≡ folder_fault (error_kind error) }
{
    match error.kind() {
        ErrorKind::NotFound => FolderFault::Missing,
        ErrorKind::NotADirectory => FolderFault::NotAFolder,
        ErrorKind::PermissionDenied => FolderFault::Denied,
        ErrorKind::OutOfMemory => FolderFault::Memory,
        _ => FolderFault::Failed,
    }
}

// Makes a file or a folder durable. After a failure each later call fails, and makes no call of the
// system, which may count as written what was lost.
pub(crate) fn settle(stuck: &mut bool, file: &File) -> io::Result<()>
    ensures stuck { stuck.new ≡ is_err result }
    ensures again { OnOk result (stuck.old ≡ false) }
{
    *stuck = *stuck || file.sync_all().is_err();
    if *stuck {
        return Err(ErrorKind::Other.into());
    }
    Ok(())
}

// A folder's path with a slash behind it, and a text that has room for the path of a file there.
fn paths_of(alloc: Global, folder: &str) -> Result<(String, String), AllocError>
    ensures { IfOk result (λ r. string_bytes r.0 ≡ folder.now ++ 47 ∷ []) }
{
    let mut text = String::from_str(alloc, folder)?;
    text.push_str("/")?;
    let mut path = String::from_str(alloc, text.as_str())?;
    path.reserve(LONGEST_NAME)?;
    Ok((text, path))
}

// An object that a name in a folder is of, with its length; None where it is of no object's file.
fn object_at<R: Disk>(entry: io::Result<DirEntry<R, Global>>) -> io::Result<Option<KeptObject>> {
    let entry = match entry {
        Ok(entry) => entry,
        // a name that is no UTF-8
        Err(error) if error.kind() == ErrorKind::InvalidFilename => return Ok(None),
        Err(error) => return Err(error),
    };
    let Some(object) = object_of(entry.file_name().as_bytes()) else {
        return Ok(None);
    };
    let metadata = entry.metadata()?;
    if !metadata.is_file() {
        return Ok(None);
    }
    let length = metadata.len();
    Ok(Some(KeptObject { object, length }))
}

// The objects of a map.
fn listing(alloc: Global, lengths: &BTreeMap<ObjectId, u64>) -> Result<Vec<KeptObject>, AllocError>
    ensures items { IfOk result (λ all. all.items ≡ kept_objects lengths.now.entries) }
    ensures ordered { IsOrdered object_cmp lengths.now }
{
    // A call on the map tells that its entries are in order, which the clause passes on.
    let _ = lengths.len();
    let mut all = Vec::new(alloc);
    for (object, length) in lengths {
        all.push(KeptObject {
            object: *object,
            length: *length,
        })?;
    }
    Ok(all)
}

// The objects of a map by rising names.
fn rising_listing(
    alloc: Global,
    lengths: &BTreeMap<ObjectId, u64>,
) -> Result<Vec<KeptObject>, AllocError>
    ensures { IfOk result (λ all. IsRising all.items) }
{
    let all = listing(alloc, lengths)?;
    Ok(all)
}

impl<R: Disk> Folder<R> {
    // Opens and locks a folder that is there.
    pub(crate) fn open(files: R, folder: &str) -> Result<Folder<R>, FolderFault>
        ensures path { IfOk result (λ f. string_bytes f.folder ≡ folder.now ++ 47 ∷ []) }
        ensures synced { IfOk result (λ f. f.stuck ≡ false) }
    {
        if !fs::metadata(&files, folder).map_err(fault_of)?.is_dir() {
            return Err(FolderFault::NotAFolder);
        }
        let handle = File::open(&files, folder).map_err(fault_of)?;
        match handle.try_lock() {
            Ok(()) => {}
            Err(TryLockError::WouldBlock) => return Err(FolderFault::InUse),
            Err(TryLockError::Error(error)) => return Err(fault_of(error)),
        }
        let (folder, path) = paths_of(files.alloc(), folder).map_err(|_| FolderFault::Memory)?;
        Ok(Folder {
            files,
            handle,
            folder,
            path,
            stuck: false,
        })
    }

    // Whether a sync failed.
    pub(crate) fn stuck(&self) -> bool
        ensures { result ≡ self.now.stuck }
    {
        self.stuck
    }

    // Takes over whether a sync of a file failed.
    pub(crate) fn stick(&mut self, stuck: bool)
        ensures { self.new.stuck ≡ (self.old.stuck || stuck) }
    {
        self.stuck = self.stuck || stuck;
    }

    // Makes the path that of an object's file. Takes no memory, since there is room.
    fn aim(&mut self, object: ObjectId) -> Result<(), AllocError>
        ensures path { OnOk result (string_bytes self.new.path ≡ string_bytes self.old.folder ++ object_name object) }
        ensures same { self.new.stuck ≡ self.old.stuck }
    {
        self.path.clear();
        self.path.push_str(self.folder.as_str())?;
        push_name(object, &mut self.path)
    }

    // Makes the file at the path where there is none, and makes it durable.
    fn make(&mut self) -> io::Result<()>
        ensures again { OnOk result (self.old.stuck ≡ false) }
        ensures lasts { self.old.stuck ≡ true → self.new.stuck ≡ true }
    {
        let file = OpenOptions::new()
            .write(true)
            .create(true)
            .open(&self.files, self.path.as_str())?;
        settle(&mut self.stuck, &file)?;
        settle(&mut self.stuck, &self.handle)
    }

    pub(crate) fn create(&mut self, object: ObjectId) -> Result<(), CreateFault>
        ensures again { OnOk result (self.old.stuck ≡ false) }
        ensures lasts { self.old.stuck ≡ true → self.new.stuck ≡ true }
    {
        self.aim(object).map_err(|_| CreateFault::Memory)?;
        self.make().map_err(|_| CreateFault::Fault)
    }

    // A new file for the bytes of a device, which loses its name at once.
    pub(crate) fn open_spill(&mut self, number: u64) -> io::Result<File> {
        self.path.clear();
        self.path.push_str(self.folder.as_str())?;
        self.path.push_str("spill-")?;
        push_number(&mut self.path, number)?;
        let file = OpenOptions::new()
            .read(true)
            .write(true)
            .create(true)
            .truncate(true)
            .open(&self.files, self.path.as_str())?;
        fs::remove_file(&self.files, self.path.as_str())?;
        Ok(file)
    }

    // The file of an object, with its length.
    pub(crate) fn open_object(&mut self, object: ObjectId) -> io::Result<(File, u64)>
        ensures low { IfOk result (λ r. r.1 < 2 ^ 63) }
        ensures same { self.new.stuck ≡ self.old.stuck }
    {
        self.aim(object)?;
        let file = OpenOptions::new()
            .read(true)
            .write(true)
            .open(&self.files, self.path.as_str())?;
        let length = file.metadata()?.len();
        if length >= END_LIMIT {
            return Err(ErrorKind::FileTooLarge.into());
        }
        Ok((file, length))
    }

    // Takes the file of an object away for good.
    pub(crate) fn remove(&mut self, object: ObjectId) -> io::Result<()>
        ensures again { OnOk result (self.old.stuck ≡ false) }
        ensures lasts { self.old.stuck ≡ true → self.new.stuck ≡ true }
    {
        self.aim(object)?;
        fs::remove_file(&self.files, self.path.as_str())?;
        settle(&mut self.stuck, &self.handle)
    }

    // The objects that are there, with their lengths.
    fn lengths(&self) -> io::Result<BTreeMap<ObjectId, u64>> {
        let mut lengths = BTreeMap::new(self.files.alloc());
        for entry in fs::read_dir(&self.files, self.folder.as_str())? {
            if let Some(kept) = object_at(entry)? {
                lengths.insert(kept.object, kept.length)?;
            }
        }
        Ok(lengths)
    }

    pub(crate) fn list(&self) -> Result<Vec<KeptObject>, ListFault>
        ensures { IfOk result (λ all. IsRising all.items) }
    {
        match self.lengths() {
            Ok(lengths) => {
                rising_listing(self.files.alloc(), &lengths).map_err(|_| ListFault::Memory)
            }
            Err(error) if error.kind() == ErrorKind::OutOfMemory => Err(ListFault::Memory),
            Err(_) => Err(ListFault::Fault),
        }
    }

    // Makes durable what is there.
    pub(crate) fn sync(&mut self) -> io::Result<()>
        ensures again { OnOk result (self.old.stuck ≡ false) }
        ensures done { OnOk result (self.new.stuck ≡ false) }
        ensures lasts { self.old.stuck ≡ true → self.new.stuck ≡ true }
    {
        if self.stuck {
            return Err(ErrorKind::Other.into());
        }
        let lengths = self.lengths()?;
        for (object, _) in &lengths {
            let (file, _) = self.open_object(*object)?;
            settle(&mut self.stuck, &file)?;
        }
        settle(&mut self.stuck, &self.handle)
    }
}
