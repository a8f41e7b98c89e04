// The files of one object in the members.
ghost use Rattle.std.specs.Prelude.{ℕ, List, ◌≡◌, ◌<◌, ◌+◌, vec_len, ◌^◌, ◌-◌, take, min, length, true, false, IfSome, IfNone, Some};
ghost use Rattle.append_store.specs.Calls.{part_at};
ghost use Rattle.std.specs.List.{AllByRecursion, AllZip};
ghost use Rattle.replica_store.specs.Parts.{Appends, DropsShort, FailsToRead, HaveBytes, IsIdle, IsLead, LeadsAppend, ReadsFile, Syncs, counts, live_of, part_of};

use append_store::AppendFile;
use std::marker::Model;

/// A member's file of an object.
#[derive(Drop)]
pub struct Part<F: AppendFile> {
    // None where the member gave none.
    pub(crate) file: Option<F>,
    // Whether it is still written.
    pub(crate) live: bool,
    // How many bytes the last append kept.
    pub(crate) kept: u64,
}

impl<F: AppendFile> Model for Part<F> {
    ghost use Rattle.replica_store.specs.Parts.{PartView, part_view};

    ghost Value = { PartView };

    ghost view = { λ p. part_view F.mark F.content F.durable F.count F.tally p.file p.live p.kept };
}

impl<F: AppendFile> Part<F> {
    ghost use Rattle.replica_store.specs.Parts.{empty_part, part_view};

    /// The file that a member gave.
    pub fn given(file: F) -> Self
        ensures { result ≡ part_view F.mark F.content F.durable F.count F.tally (Some file) true 0 }
    {
        Part {
            file: Some(file),
            live: true,
            kept: 0,
        }
    }

    /// The place of a member that gave no file.
    pub fn missing() -> Self
        ensures { result ≡ empty_part false 0 }
    {
        Part {
            file: None,
            live: false,
            kept: 0,
        }
    }

    // The place of a member that takes part, and has its file.
    pub(crate) fn waiting() -> Self
        ensures { result ≡ empty_part true 0 }
    {
        Part {
            file: None,
            live: true,
            kept: 0,
        }
    }

    /// Whether the file is still written.
    pub fn is_live(&self) -> bool
        ensures { result ≡ self.now.live }
    {
        self.live
    }

    /// The file, if the member gave one.
    pub fn into_file(self) -> Option<F>
        ensures { self ≡ part_view F.mark F.content F.durable F.count F.tally result self.live self.kept }
    {
        self.file
    }
}

// Adds bytes to one file, if it is still written.
pub(crate) fn append_one<F: AppendFile>(part: &mut Part<F>, bytes: &[u8])
    ensures { Appends F.tells bytes.now part.old part.new }
{
    part.kept = 0;
    if !part.live {
        return;
    }
    if let Some(file) = &mut part.file {
        part.kept = match file.append(bytes) {
            Ok(()) => bytes.len() as u64,
            Err(fault) => fault.kept,
        };
    }
}

// Drops a file that kept less than the most.
pub(crate) fn drop_if_short<F: AppendFile>(part: &mut Part<F>, most: u64)
    ensures { DropsShort most part.old part.new }
{
    if part.kept < most {
        part.live = false;
    }
}

// Makes one file durable, if it is still written, and drops it where that fails.
#[tactic(auto, using(crate::proofs::Serving::failed_later))]
pub(crate) fn sync_one<F: AppendFile>(part: &mut Part<F>)
    ensures { Syncs F.tells part.old part.new }
{
    if !part.live {
        return;
    }
    part.live = match &mut part.file {
        Some(file) => file.hsync().is_ok(),
        None => false,
    };
}

// Adds bytes to each file that is still written.
pub(crate) fn append_each<F: AppendFile>(parts: &mut Vec<Part<F>>, bytes: &[u8])
    ensures { AllZip (Appends F.tells bytes.now) parts.old.items parts.new.items }
{
    for part in parts.iter_mut() {
        append_one(part, bytes);
    }
}

// Drops those that kept less than the most.
pub(crate) fn drop_short<F: AppendFile>(parts: &mut Vec<Part<F>>, most: u64)
    ensures { AllZip (DropsShort most) parts.old.items parts.new.items }
{
    for part in parts.iter_mut() {
        drop_if_short(part, most);
    }
}

// Makes each file durable that is still written, and drops those where that fails.
pub(crate) fn sync_each<F: AppendFile>(parts: &mut Vec<Part<F>>)
    ensures { AllZip (Syncs F.tells) parts.old.items parts.new.items }
{
    for part in parts.iter_mut() {
        sync_one(part);
    }
}

// The first of those that are still written and kept the most of the last append.
pub(crate) fn lead_of<F: AppendFile>(parts: &Vec<Part<F>>) -> Option<usize>
    ensures some { IfSome result (λ lead. IsLead parts.now.items lead) }
    ensures none { IfNone result (AllByRecursion (λ p. p.live ≡ false) parts.now.items) }
{
    let mut lead = None;
    let mut most = 0;
    for i in 0..parts.len() {
        let part = &parts[i];
        if part.live && (lead.is_none() || most < part.kept) {
            lead = Some(i);
            most = part.kept;
        }
    }
    lead
}

// How many are still written.
pub(crate) fn count_live<F: AppendFile>(parts: &Vec<Part<F>>) -> usize
    ensures { result ≡ live_of parts.now.items }
{
    let mut count = 0;
    for part in parts {
        if part.live {
            count += 1;
        }
    }
    count
}

// How often they have failed, with so many more.
pub(crate) fn count_faults<F: AppendFile>(parts: &Vec<Part<F>>, refusals: u64) -> u64
    ensures { result ≡ min (counts parts.now.items + refusals) (2 ^ 64 - 1) }
{
    let mut count = refusals;
    for part in parts {
        count = count.saturating_add(faults_of(part));
    }
    count
}

// How many bytes the last append kept in one file.
pub(crate) fn kept_of<F: AppendFile>(parts: &Vec<Part<F>>, lead: usize) -> u64
    requires { lead < vec_len parts.now }
    ensures { result ≡ (part_of parts.now.items lead).kept }
{
    let part = &parts[lead];
    part.kept
}

/// Which file leads, and how many bytes it kept.
#[derive(Clone, Copy)]
pub(crate) struct Lead {
    pub(crate) index: usize,
    pub(crate) kept: u64,
}

// Adds bytes to each file that is still written, and drops those that kept fewer than the most.
pub(crate) fn append_all<F: AppendFile>(parts: &mut Vec<Part<F>>, bytes: &[u8]) -> Option<Lead>
    ensures some { IfSome result (λ lead. LeadsAppend F.tells bytes.now parts.old.items parts.new.items lead.index lead.kept) }
    ensures none { IfNone result (IsIdle F.tells bytes.now parts.old.items parts.new.items) }
{
    append_each(parts, bytes);
    let index = lead_of(parts)?;
    let kept = kept_of(parts, index);
    drop_short(parts, kept);
    Some(Lead { index, kept })
}

// How many bytes one file has.
pub(crate) fn len_of<F: AppendFile>(parts: &Vec<Part<F>>, index: usize) -> u64
    requires { index < length parts.now.items }
    ensures value { result ≡ length (part_of parts.now.items index).content }
    ensures low { result < 2 ^ 63 }
{
    size_of(&parts[index])
}

// How many bytes a member's file has.
pub(crate) fn size_of<F: AppendFile>(part: &Part<F>) -> u64
    ensures value { result ≡ length part.now.content }
    ensures low { result < 2 ^ 63 }
{
    match &part.file {
        Some(file) => file.len(),
        None => 0,
    }
}

// How many bytes the file at a place has; 0 where there is none.
pub(crate) fn size_at<F: AppendFile>(parts: &Vec<Part<F>>, index: usize) -> u64
    ensures value { result ≡ length (part_of parts.now.items index).content }
    ensures low { result < 2 ^ 63 }
{
    match parts.get(index) {
        Some(part) => size_of(part),
        None => 0,
    }
}

// How often a member's file has failed.
fn faults_of<F: AppendFile>(part: &Part<F>) -> u64
    ensures { result ≡ part.now.count }
{
    match &part.file {
        Some(file) => file.faults(),
        None => 0,
    }
}

// Reads one file, if it is still written and has the length that is told, and drops it where that
// fails.
pub(crate) fn read_one<F: AppendFile>(
    part: &mut Part<F>,
    size: u64,
    offset: u64,
    out: &mut [u8],
) -> Option<usize>
    ensures part { ReadsFile F.tells part.old part.new }
    ensures length { IfSome result (λ n. n ≡ min (length out.old) (size - offset)) }
    ensures bytes { IfSome result (λ n. F.tells → take n out.new ≡ part_at part.old.content offset n) }
    ensures live { IfSome result (λ n. part.old.live ≡ true) }
    ensures failed { IfNone result (FailsToRead F.tells size part.old part.new) }
{
    if !part.live || size_of(part) != size {
        return None;
    }
    if let Some(file) = &mut part.file {
        if let Ok(count) = file.read_at(offset, out) {
            return Some(count);
        }
    }
    part.live = false;
    None
}

// Reads the first file that is still written, drops it where that fails, and goes on.
pub(crate) fn read_first<F: AppendFile>(
    parts: &mut Vec<Part<F>>,
    size: u64,
    offset: u64,
    out: &mut [u8],
) -> Option<usize>
    ensures pairs { AllZip (ReadsFile F.tells) parts.old.items parts.new.items }
    ensures length { IfSome result (λ n. n ≡ min (length out.old) (size - offset)) }
    ensures bytes { IfSome result (λ n. (b : List ℕ) → F.tells → HaveBytes b parts.old.items → take n out.new ≡ part_at b offset n) }
    ensures failed { IfNone result (AllZip (FailsToRead F.tells size) parts.old.items parts.new.items) }
{
    for part in parts.iter_mut() {
        if let Some(count) = read_one(part, size, offset, out) {
            return Some(count);
        }
    }
    None
}
