// The edits of a log.
ghost use Rattle.std.specs.Prelude.{◌≡◌, ◌≤◌, ◌^◌, ℕ, [], length, take, drop, OnOk, Result, Ok, Err, None};
ghost use Rattle.edit_log.specs.Edits.{Logged, edit_ahead, edit_of, edits_with, edits_from, edits_of, with_edits, items_at, make_at, remove_at, rename_at, set_at, size_ahead};
ghost use Rattle.edit_log.specs.Outcomes.{Fails, Gives, GivesEdits};

use crate::gauge::{Cut, Gauge};
use crate::parts::{back, front};
use gw_model::NoMemory;
use name_tree::{Edit, Name};
use std::alloc::{AllocError, Global};

/// Why no edit was read.
#[derive(Clone, Copy, Debug, PartialEq, Eq)]
pub enum ReadFault {
    Cut(Cut),
    Memory,
}

impl From<Cut> for ReadFault {
    ghost use Rattle.std.specs.Prelude.{◌≡◌};
    ghost use Rattle.edit_log.specs.declared.reading.ReadFault.TheVariants.{Cut as Faulty};

    ghost from_gives = { λ cut e. e ≡ Faulty cut };

    fn from(cut: Cut) -> ReadFault {
        ReadFault::Cut(cut)
    }
}

impl From<NoMemory> for ReadFault {
    ghost use Rattle.std.specs.Prelude.{◌≡◌};
    ghost use Rattle.edit_log.specs.declared.reading.ReadFault.TheVariants.{Memory};

    ghost from_gives = { λ _ e. e ≡ Memory };

    fn from(_fault: NoMemory) -> ReadFault {
        ReadFault::Memory
    }
}

impl From<AllocError> for ReadFault {
    ghost use Rattle.std.specs.Prelude.{◌≡◌};
    ghost use Rattle.edit_log.specs.declared.reading.ReadFault.TheVariants.{Memory};

    ghost from_gives = { λ _ e. e ≡ Memory };

    fn from(_fault: AllocError) -> ReadFault {
        ReadFault::Memory
    }
}

fn owned(alloc: Global, bytes: &[u8]) -> Result<Name, ReadFault>
    ensures { Gives (λ n. n) result (Ok bytes.now) }
{
    Ok(Name::of(Vec::from_slice(alloc, bytes)?))
}

#[tactic(auto, unfolding(crate::specs::Edits::remove_at))]
fn remove(alloc: Global, gauge: &mut Gauge<'_>) -> Result<Edit, ReadFault>
    ensures { Gives (λ e. (e, gauge.new)) result (remove_at gauge.old) }
{
    let parent = gauge.long()?;
    let name = gauge.name()?;
    let name = owned(alloc, name)?;
    Ok(Edit::Remove { parent, name })
}

#[tactic(auto, unfolding(crate::specs::Edits::set_at))]
fn set(gauge: &mut Gauge<'_>) -> Result<Edit, ReadFault>
    ensures { Gives (λ e. (e, gauge.new)) result (set_at gauge.old) }
{
    let id = gauge.long()?;
    let mode = gauge.word()?;
    let uid = gauge.word()?;
    let gid = gauge.word()?;
    Ok(Edit::Set {
        id,
        mode,
        uid,
        gid,
        atime: None,
        mtime: None,
    })
}

#[tactic(auto, unfolding(crate::specs::Edits::rename_at))]
fn rename(alloc: Global, gauge: &mut Gauge<'_>) -> Result<Edit, ReadFault>
    ensures { Gives (λ e. (e, gauge.new)) result (rename_at gauge.old) }
{
    let parent = gauge.long()?;
    let name = gauge.name()?;
    let to_parent = gauge.long()?;
    let to_name = gauge.name()?;
    Ok(Edit::Rename {
        parent,
        name: owned(alloc, name)?,
        to_parent,
        to_name: owned(alloc, to_name)?,
    })
}

#[tactic(auto, unfolding(crate::specs::Edits::make_at))]
fn make(alloc: Global, gauge: &mut Gauge<'_>) -> Result<Edit, ReadFault>
    ensures { Gives (λ e. (e, gauge.new)) result (make_at gauge.old) }
{
    let parent = gauge.long()?;
    let id = gauge.long()?;
    let kind = gauge.kind()?;
    let mode = gauge.word()?;
    let uid = gauge.word()?;
    let gid = gauge.word()?;
    let name = gauge.name()?;
    let path = gauge.path(if kind == 5 { 1024 } else { 0 })?;
    Ok(Edit::Make {
        parent,
        id,
        kind,
        mode,
        uid,
        gid,
        name: owned(alloc, name)?,
        path: owned(alloc, path)?,
        atime: None,
        mtime: None,
        verifier: None,
    })
}

fn items(alloc: Global, gauge: &mut Gauge<'_>, kind: u32) -> Result<Edit, ReadFault>
    ensures { Gives (λ e. (e, gauge.new)) result (items_at kind gauge.old) }
{
    match kind {
        1 => make(alloc, gauge),
        2 => remove(alloc, gauge),
        3 => rename(alloc, gauge),
        4 => set(gauge),
        _ => Err(ReadFault::Cut(Cut::Bad)),
    }
}

/// Reads an edit of so many bytes, of which a part may be missing. Takes memory.
#[tactic(auto, unfolding(crate::specs::Edits::edit_of))]
pub fn read_edit(alloc: Global, room: usize, bytes: &[u8]) -> Result<Edit, ReadFault>
    ensures { Gives (λ e. e) result (edit_of room bytes.now) }
{
    let mut gauge = Gauge::new(room, bytes);
    let kind = gauge.word()?;
    let edit = items(alloc, &mut gauge, kind)?;
    if gauge.room() == 0 {
        Ok(edit)
    } else {
        Err(ReadFault::Cut(Cut::Bad))
    }
}

/// Why the edits of a log weren't read.
#[derive(Clone, Copy, Debug, PartialEq, Eq)]
pub enum EditFault {
    /// From this byte on the log is no edit's text, nor the front of one.
    Damaged { place: u64 },
    Memory,
}

// The number of the first four bytes.
#[tactic(auto, unfolding(crate::specs::Edits::size_ahead))]
pub fn size_ahead(bytes: &[u8]) -> usize
    requires { 4 ≤ length bytes.now }
    ensures { result ≡ size_ahead bytes.now }
{
    match bytes.split_first_chunk::<4>() {
        Some((word, _)) => u32::from_be_bytes(*word) as usize,
        None => 0,
    }
}

// What is behind a word and `n` bytes.
pub fn bytes_behind(bytes: &[u8], n: usize) -> &[u8]
    ensures { result.now ≡ drop n (drop 4 bytes.now) }
{
    back(back(bytes, 4), n)
}

// The edit in front.
pub fn edit_ahead(alloc: Global, bytes: &[u8]) -> Result<Edit, ReadFault>
    ensures read { Gives (λ e. e) result (edit_ahead bytes.now) }
    ensures size { OnOk result ((4 ≤ length bytes.now) × (size_ahead bytes.now ≤ 4096)) }
{
    if bytes.len() < 4 {
        return Err(ReadFault::Cut(Cut::Torn));
    }
    let size = size_ahead(bytes);
    if size < 4 || size > 4096 {
        return Err(ReadFault::Cut(Cut::Bad));
    }
    read_edit(alloc, size, front(back(bytes, 4), size))
}

// The edits up to a place where none could be read.
fn ending(edits: Vec<Edit>, place: u64, fault: ReadFault) -> Result<Vec<Edit>, EditFault>
    ensures { (r : Result Edit Cut) (l : Logged) → Fails fault r
        → GivesEdits (λ es. es.items) result (with_edits edits.items (edits_with r place l)) }
{
    match fault {
        ReadFault::Cut(Cut::Torn) => Ok(edits),
        ReadFault::Cut(Cut::Bad) => Err(EditFault::Damaged { place }),
        ReadFault::Memory => Err(EditFault::Memory),
    }
}

/// The edits behind a header, up to a torn end. Takes memory.
fn edits_from(alloc: Global, fuel: usize, bytes: &[u8]) -> Result<Vec<Edit>, EditFault>
    requires { fuel ≤ 2 ^ 50 }
    ensures { GivesEdits (λ es. es.items) result (edits_from fuel 8 bytes.now) }
{
    let mut edits = Vec::new(alloc);
    let mut left = fuel;
    let mut rest = bytes;
    let mut place: u64 = 8;
    while left > 0 {
        match edit_ahead(alloc, rest) {
            Ok(edit) => {
                if let Err(_) = edits.push(edit) {
                    return Err(EditFault::Memory);
                }
                let size = size_ahead(rest);
                rest = bytes_behind(rest, size);
                place += 4 + size as u64;
                left -= 1;
            }
            Err(fault) => return ending(edits, place, fault),
        }
    }
    Ok(edits)
}

/// No log has more bytes, so that the places in it are numbers that don't overflow. One that had is answered as want of memory.
pub const MOST_BYTES: u64 = 1 << 50;

/// What each log of version 1 begins with.
pub const HEADER: &[u8] = b"NFSEDIT1";

/// The edits of a log, up to a torn end. A header that is cut has none. Takes memory.
#[tactic(auto, unfolding(crate::specs::Edits::edits_of))]
pub fn edits_of(alloc: Global, bytes: &[u8]) -> Result<Vec<Edit>, EditFault>
    ensures { GivesEdits (λ es. es.items) result (edits_of bytes.now) }
{
    if bytes.len() as u64 > MOST_BYTES {
        return Err(EditFault::Memory);
    }
    if front(bytes, 8) == HEADER {
        return edits_from(alloc, bytes.len(), back(bytes, 8));
    }
    if front(HEADER, bytes.len()) == bytes {
        return Ok(Vec::new(alloc));
    }
    Err(EditFault::Damaged { place: 0 })
}
