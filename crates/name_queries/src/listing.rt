// What a directory lists: READDIR and READDIRPLUS.
ghost use Rattle.std.specs.Prelude.{◌≡◌, ◌≤◌, ◌∷◌, ◌+◌, ◌<◌, [], map, IfNone, IfOk, IfSome};
ghost use Rattle.nfs_wire.specs.Lengths.{entry_length, entry_plus_length};
ghost use Rattle.nfs_wire.specs.Views.{entry_view, entry_plus_view};
ghost use Rattle.name_queries.specs.Listings.{bounded_count, entries_left, entry_plus, entry_room, filled, name_part, no_part, none_fits};
ghost use Rattle.name_queries.specs.Listings.{is_known_cookie, listed_dir, listing_refusal, readdir_listing, readdirplus_listing};
ghost use Rattle.name_tree.specs.Access.{may_at};
ghost use Rattle.name_tree.specs.Tree.{is_directory, node};
ghost use Rattle.name_queries.specs.Queries.{readdir_outcome, readdirplus_outcome};
ghost use Rattle.name_queries.specs.Outcomes.{IsAnswer, names_view, plus_view};

use crate::found::{Found, file_attr, found_file};
use gw_model::status::{NFS3ERR_ACCES, NFS3ERR_BAD_COOKIE, NFS3ERR_NOTDIR, NFS3ERR_TOOSMALL};
use gw_model::{FileId, NoMemory};
use handles::handle_of;
use name_tree::{Refused, Tree};
use nfs_types::{Attr, FileType};
use nfs_wire::lengths::{EMPTY_LISTING, entry_length, entry_plus_length};
use nfs_wire::{Entry, EntryPlus, Res, res_text};
use rpc_msg::Caller;
use std::alloc::Global;

/// A count past this one counts as this one.
const MOST_BYTES: u32 = 1_048_576;

/// The verifier of each listing. It says nothing, since entries keep their cookies.
const VERIFIER: [u8; 8] = [0; 8];

/// ACCESS3_READ of RFC 1813 section 3.3.4.
const READ: u32 = 1;

/// Which directory is listed, and behind which cookie.
#[derive(Clone, Copy)]
pub struct Page<'a> {
    pub handle: &'a [u8],
    pub cookie: u64,
    pub verifier: &'a [u8; 8],
}

/// The entries in front that fit.
#[derive(Drop)]
pub struct Names<'a> {
    entries: Vec<Entry<'a>>,
    /// Whether no entry is left.
    eof: bool,
}

/// The same with what is known of their files.
#[derive(Drop)]
pub struct NamesPlus<'a> {
    entries: Vec<EntryPlus<'a>>,
    eof: bool,
}

impl Names<'_> {
    // Whether an entry is left and not one fits.
    fn none_fits(&self) -> bool
        ensures { result ≡ none_fits (names_view self.now) }
    {
        self.entries.is_empty() && !self.eof
    }
}

fn is_directory(attr: &Attr) -> bool
    ensures { result ≡ is_directory attr.now.kind }
{
    matches!(attr.kind, FileType::Directory)
}

// Whether a caller may read a file.
#[tactic(auto, using(crate::proofs::MayRead::read_given))]
fn may_read(tree: &Tree, caller: &Caller, file: u64) -> bool
    requires { caller.now.gid_count ≤ 16 }
    ensures { result ≡ may_at 4 caller.now (node tree.now.tree file) }
{
    tree.access(caller, FileId(file), READ) == READ
}

// Whether a cookie is the beginning, or comes with the verifier of a listing.
fn is_known_cookie(cookie: u64, verifier: &[u8; 8]) -> bool
    ensures { result ≡ is_known_cookie cookie verifier.now }
{
    cookie == 0 || verifier.as_slice() == VERIFIER.as_slice()
}

// The first refusal of a listing behind its handle's, or 0.
fn listing_refusal(
    tree: &Tree,
    caller: &Caller,
    dir: &Found,
    cookie: u64,
    verifier: &[u8; 8],
) -> u32
    requires { caller.now.gid_count ≤ 16 }
    ensures { result ≡ listing_refusal tree.now.tree caller.now dir.now cookie verifier.now }
{
    if !is_directory(&dir.attr) {
        return NFS3ERR_NOTDIR;
    }
    if !may_read(tree, caller, dir.file) {
        return NFS3ERR_ACCES;
    }
    if !is_known_cookie(cookie, verifier) {
        return NFS3ERR_BAD_COOKIE;
    }
    0
}

// The directory that is to be listed, or the status by which a listing is refused before anything is listed.
#[tactic(auto, unfolding(crate::specs::Listings::listed_dir))]
fn listed_dir(tree: &Tree, fsid: u64, caller: &Caller, page: &Page<'_>) -> Result<Found, u32>
    requires { caller.now.gid_count ≤ 16 }
    ensures { result ≡ listed_dir tree.now.tree fsid caller.now page.now.handle.now page.now.cookie page.now.verifier.now }
{
    let dir = found_file(tree, fsid, page.handle)?;
    let refusal = listing_refusal(tree, caller, &dir, page.cookie, page.verifier);
    if refusal != 0 {
        return Err(refusal);
    }
    Ok(dir)
}

// The first entry behind a cookie.
fn next_entry<'a>(tree: &'a Tree, dir: u64, cookie: u64) -> Option<Entry<'a>>
    ensures some { IfSome result (λ e. entries_left tree.now.tree dir cookie ≡ entry_view e ∷ entries_left tree.now.tree dir e.cookie) }
    ensures none { IfNone result (entries_left tree.now.tree dir cookie ≡ []) }
{
    tree.soundness();
    match tree.list_after(FileId(dir), cookie) {
        Some(listed) => Some(Entry {
            file: listed.file.0,
            name: listed.name,
            cookie: listed.cookie,
        }),
        None => None,
    }
}

// How many of so many bytes are for entries.
fn entry_room(count: u32) -> usize
    ensures { result ≡ entry_room count }
{
    bounded_count(count).saturating_sub(EMPTY_LISTING)
}

fn bounded_count(count: u32) -> usize
    ensures { result ≡ bounded_count count }
{
    count.min(MOST_BYTES) as usize
}

// The entries behind a cookie that fit in so many bytes. Takes memory.
fn fill<'a>(
    alloc: Global,
    tree: &'a Tree,
    dir: u64,
    cookie: u64,
    room: usize,
) -> Result<Names<'a>, NoMemory>
    ensures { IfOk result (λ f. names_view f ≡ filled entry_length no_part room 0 (entries_left tree.now.tree dir cookie)) }
{
    let mut entries = Vec::new(alloc);
    let mut room = room;
    let mut cookie = cookie;
    while let Some(entry) = next_entry(tree, dir, cookie) {
        let length = entry_length(&entry);
        if length > room {
            return Ok(Names {
                entries,
                eof: false,
            });
        }
        room -= length;
        cookie = entry.cookie;
        if entries.push(entry).is_err() {
            return Err(NoMemory);
        }
    }
    Ok(Names { entries, eof: true })
}

// What a READDIR of a directory comes to, as text.
#[tactic(auto, unfolding(crate::specs::Listings::readdir_listing))]
fn names_text(
    alloc: Global,
    tree: &Tree,
    dir: &Found,
    cookie: u64,
    count: u32,
) -> Result<Vec<u8>, Refused>
    ensures { IsAnswer result (readdir_listing tree.now.tree dir.now.file cookie count) }
{
    let Ok(names) = fill(alloc, tree, dir.file, cookie, entry_room(count)) else {
        return Err(Refused::Memory);
    };
    if names.none_fits() {
        return Err(Refused::Status(NFS3ERR_TOOSMALL));
    }
    let res = Res::Readdir {
        verifier: VERIFIER,
        entries: names.entries.as_slice(),
        eof: names.eof,
    };
    match res_text(alloc, &res) {
        Ok(text) => Ok(text),
        Err(_) => Err(Refused::Memory),
    }
}

/// READDIR (RFC 1813 section 3.3.16): the text of its results, or a refusal. Takes memory.
pub fn readdir(
    alloc: Global,
    tree: &Tree,
    fsid: u64,
    caller: &Caller,
    page: &Page<'_>,
    count: u32,
) -> Result<Vec<u8>, Refused>
    requires { caller.now.gid_count ≤ 16 }
    ensures { IsAnswer result
        (readdir_outcome tree.now.tree fsid caller.now page.now.handle.now page.now.cookie page.now.verifier.now count) }
{
    match listed_dir(tree, fsid, caller, page) {
        Ok(dir) => names_text(alloc, tree, &dir, page.cookie, count),
        Err(status) => Err(Refused::Status(status)),
    }
}

// An entry with what is known of its file.
fn with_file<'a>(tree: &Tree, fsid: u64, dir_attr: &Attr, entry: &Entry<'a>) -> EntryPlus<'a>
    ensures plus { entry_plus_view result ≡ entry_plus tree.now.tree fsid dir_attr.now (entry_view entry.now) }
    ensures cookie { result.entry.cookie ≡ entry.now.cookie }
{
    let attr = match file_attr(tree, fsid, entry.file) {
        Some(attr) => attr,
        None => *dir_attr,
    };
    EntryPlus {
        entry: *entry,
        attr,
        handle: handle_of(FileId(entry.file), fsid),
    }
}

// The bytes of the part of an entry that is its fileid, name and cookie.
fn name_part(plus: &EntryPlus<'_>) -> usize
    ensures { result ≡ name_part (entry_plus_view plus.now) }
{
    entry_length(&plus.entry) - 4
}

// The entries behind a cookie that fit in so many bytes, and their parts in so many. Takes memory.
fn fill_plus<'a>(
    alloc: Global,
    tree: &'a Tree,
    fsid: u64,
    dir: &Found,
    cookie: u64,
    room: usize,
    part_room: usize,
) -> Result<NamesPlus<'a>, NoMemory>
    ensures { IfOk result (λ f. plus_view f ≡ filled entry_plus_length name_part room part_room
        (map (entry_plus tree.now.tree fsid dir.now.attr) (entries_left tree.now.tree dir.now.file cookie))) }
{
    let mut entries = Vec::new(alloc);
    let mut room = room;
    let mut part_room = part_room;
    let mut cookie = cookie;
    while let Some(entry) = next_entry(tree, dir.file, cookie) {
        let plus = with_file(tree, fsid, &dir.attr, &entry);
        let length = entry_plus_length(&plus);
        let part = name_part(&plus);
        if length > room || part > part_room {
            return Ok(NamesPlus {
                entries,
                eof: false,
            });
        }
        room -= length;
        part_room -= part;
        cookie = plus.entry.cookie;
        if entries.push(plus).is_err() {
            return Err(NoMemory);
        }
    }
    Ok(NamesPlus { entries, eof: true })
}

impl NamesPlus<'_> {
    // Whether an entry is left and not one fits.
    fn none_fits(&self) -> bool
        ensures { result ≡ none_fits (plus_view self.now) }
    {
        self.entries.is_empty() && !self.eof
    }
}

// What a READDIRPLUS of a directory comes to, as text.
#[tactic(auto, unfolding(crate::specs::Listings::readdirplus_listing))]
fn plus_text(
    alloc: Global,
    tree: &Tree,
    fsid: u64,
    dir: &Found,
    cookie: u64,
    dircount: u32,
    maxcount: u32,
) -> Result<Vec<u8>, Refused>
    ensures { IsAnswer result (readdirplus_listing tree.now.tree fsid dir.now cookie dircount maxcount) }
{
    let room = entry_room(maxcount);
    let part_room = bounded_count(dircount);
    let Ok(gathered) = fill_plus(alloc, tree, fsid, dir, cookie, room, part_room) else {
        return Err(Refused::Memory);
    };
    if gathered.none_fits() {
        return Err(Refused::Status(NFS3ERR_TOOSMALL));
    }
    let res = Res::Readdirplus {
        verifier: VERIFIER,
        entries: gathered.entries.as_slice(),
        eof: gathered.eof,
    };
    match res_text(alloc, &res) {
        Ok(text) => Ok(text),
        Err(_) => Err(Refused::Memory),
    }
}

/// READDIRPLUS (RFC 1813 section 3.3.17): the text of its results, or a refusal. Takes memory.
pub fn readdirplus(
    alloc: Global,
    tree: &Tree,
    fsid: u64,
    caller: &Caller,
    page: &Page<'_>,
    dircount: u32,
    maxcount: u32,
) -> Result<Vec<u8>, Refused>
    requires { caller.now.gid_count ≤ 16 }
    ensures { IsAnswer result (readdirplus_outcome tree.now.tree fsid caller.now page.now.handle.now page.now.cookie
        page.now.verifier.now dircount maxcount) }
{
    match listed_dir(tree, fsid, caller, page) {
        Ok(dir) => plus_text(alloc, tree, fsid, &dir, page.cookie, dircount, maxcount),
        Err(status) => Err(Refused::Status(status)),
    }
}
