// What was lost of files that were closed, by their numbers.
ghost use Rattle.std.specs.Prelude.{◌≡◌, ℕ, ◌==◌, true, false, OnOk};
ghost use Rattle.std.specs.List.{All};
ghost use Rattle.nfs_procs.specs.Contexts.{has_place, lost_at};

use file_calls::ClosedHull;
use std::alloc::AllocError;
use std::collections::BTreeMap;

/// By the numbers of the files. Each file that a tick came to while it was open has a place.
pub type Hulls = BTreeMap<u64, Option<ClosedHull>>;

/// What was lost of a file.
pub fn lost_of(hulls: &Hulls, file: u64) -> Option<ClosedHull>
    ensures { result ≡ lost_at file hulls.now.entries }
{
    match hulls.get(&file) {
        Some(lost) => *lost,
        None => None,
    }
}

fn make_place(hulls: &mut Hulls, file: u64) -> Result<(), AllocError>
    ensures made { OnOk result (has_place file hulls.new.entries ≡ true) }
    ensures places { (k : ℕ) → has_place k hulls.old.entries ≡ true → has_place k hulls.new.entries ≡ true }
    ensures lost { (k : ℕ) → lost_at k hulls.new.entries ≡ lost_at k hulls.old.entries }
{
    if hulls.contains_key(&file) {
        return Ok(());
    }
    match hulls.insert(file, None) {
        Ok(_) => Ok(()),
        Err(_) => Err(AllocError),
    }
}

/// Makes a place for each of these files. Takes memory.
pub fn make_places(hulls: &mut Hulls, files: &[u64]) -> Result<(), AllocError>
    ensures made { OnOk result (All (λ k. has_place k hulls.new.entries ≡ true) files.now) }
    ensures lost { (k : ℕ) → lost_at k hulls.new.entries ≡ lost_at k hulls.old.entries }
{
    for file in files {
        make_place(hulls, *file)?;
    }
    Ok(())
}

/// Keeps in its place what was lost of a file. Takes no memory.
pub fn keep_lost(hulls: &mut Hulls, file: u64, lost: Option<ClosedHull>)
    requires place { has_place file hulls.old.entries ≡ true }
    ensures own { lost_at file hulls.new.entries ≡ lost }
    ensures others { (k : ℕ) → (k == file) ≡ false → lost_at k hulls.new.entries ≡ lost_at k hulls.old.entries }
    ensures places { (k : ℕ) → has_place k hulls.new.entries ≡ has_place k hulls.old.entries }
{
    if let Some(place) = hulls.get_mut(&file) {
        *place = lost;
    }
}
