// Results that list entries of a directory, or what is mounted.
ghost use Rattle.std.specs.Prelude.{◌≡◌, map, OnOk};
ghost use Rattle.std.specs.List.{AllByRecursion};
ghost use Rattle.xdr.specs.Rows.{joined_text};
ghost use Rattle.xdr.specs.Lists.{list_row};
ghost use Rattle.nfs_wire.specs.Results.{Readdir, Readdirplus, Mnt, Dump, Export, dir_entry_row, entry_plus_row, mount_row, results_row};
ghost use Rattle.nfs_wire.specs.Short.{IsShort, HasShortName, HasShortNamePlus, IsShortMount};
ghost use Rattle.nfs_wire.specs.Views.{entry_view, entry_plus_view, mount_view};

use crate::put_attr::put_present;
use crate::put_words::put_zeros;
use crate::{Entry, EntryPlus, Mounted};
use xdr::{NoMemory, Writer};

#[tactic(auto, unfolding(xdr::specs::Items::bool_text))]
pub fn put_readdir(
    writer: &mut Writer,
    verifier: &[u8; 8],
    entries: &[Entry<'_>],
    eof: bool,
) -> Result<(), NoMemory>
    ensures ok { OnOk result (writer.new ≡ joined_text writer.old (results_row (Readdir verifier.now (map entry_view entries.now) eof))) }
    ensures short { OnOk result (AllByRecursion HasShortName (map entry_view entries.now)) }
{
    put_zeros(writer, 2)?;
    writer.put_fixed(verifier)?;
    put_entries(writer, entries)?;
    writer.put_bool(eof)
}

#[tactic(auto, unfolding(xdr::specs::Items::bool_text))]
pub fn put_readdirplus(
    writer: &mut Writer,
    verifier: &[u8; 8],
    entries: &[EntryPlus<'_>],
    eof: bool,
) -> Result<(), NoMemory>
    ensures ok { OnOk result (writer.new ≡ joined_text writer.old (results_row
        (Readdirplus verifier.now (map entry_plus_view entries.now) eof))) }
    ensures short { OnOk result (AllByRecursion HasShortNamePlus (map entry_plus_view entries.now)) }
{
    put_zeros(writer, 2)?;
    writer.put_fixed(verifier)?;
    put_entries_plus(writer, entries)?;
    writer.put_bool(eof)
}

#[tactic(auto, unfolding(xdr::specs::Items::bool_text))]
fn put_entries(writer: &mut Writer, entries: &[Entry<'_>]) -> Result<(), NoMemory>
    ensures ok { OnOk result (writer.new ≡ joined_text writer.old (list_row dir_entry_row (map entry_view entries.now))) }
    ensures short { OnOk result (AllByRecursion HasShortName (map entry_view entries.now)) }
{
    for entry in entries {
        writer.put_bool(true)?;
        put_entry(writer, entry)?;
    }
    writer.put_bool(false)
}

fn put_entry(writer: &mut Writer, entry: &Entry<'_>) -> Result<(), NoMemory>
    ensures ok { OnOk result (writer.new ≡ joined_text writer.old (dir_entry_row (entry_view entry.now))) }
    ensures short { OnOk result (IsShort entry.now.name.now) }
{
    writer.put_u64(entry.file)?;
    writer.put_opaque(entry.name)?;
    writer.put_u64(entry.cookie)
}

#[tactic(auto, unfolding(xdr::specs::Items::bool_text))]
fn put_entries_plus(writer: &mut Writer, entries: &[EntryPlus<'_>]) -> Result<(), NoMemory>
    ensures ok { OnOk result (writer.new ≡ joined_text writer.old (list_row entry_plus_row (map entry_plus_view entries.now))) }
    ensures short { OnOk result (AllByRecursion HasShortNamePlus (map entry_plus_view entries.now)) }
{
    for plus in entries {
        writer.put_bool(true)?;
        put_entry_plus(writer, plus)?;
    }
    writer.put_bool(false)
}

#[tactic(auto, unfolding(xdr::specs::Items::bool_text))]
fn put_entry_plus(writer: &mut Writer, plus: &EntryPlus<'_>) -> Result<(), NoMemory>
    ensures ok { OnOk result (writer.new ≡ joined_text writer.old (entry_plus_row (entry_plus_view plus.now))) }
    ensures short { OnOk result (IsShort plus.now.entry.name.now) }
{
    put_entry(writer, &plus.entry)?;
    put_present(writer, &plus.attr)?;
    writer.put_bool(true)?;
    writer.put_opaque(&plus.handle)
}

#[tactic(auto, unfolding(xdr::specs::Items::bool_text))]
pub fn put_mounts(writer: &mut Writer, mounts: &[Mounted<'_>]) -> Result<(), NoMemory>
    ensures ok { OnOk result (writer.new ≡ joined_text writer.old (results_row (Dump (map mount_view mounts.now)))) }
    ensures short { OnOk result (AllByRecursion IsShortMount (map mount_view mounts.now)) }
{
    for mounted in mounts {
        writer.put_bool(true)?;
        writer.put_opaque(mounted.host)?;
        writer.put_opaque(mounted.path)?;
    }
    writer.put_bool(false)
}

/// A handle and the flavors of credentials that are taken: AUTH_SYS alone.
pub fn put_mnt(writer: &mut Writer, handle: &[u8; 32]) -> Result<(), NoMemory>
    ensures { OnOk result (writer.new ≡ joined_text writer.old (results_row (Mnt handle.now))) }
{
    writer.put_u32(0)?;
    writer.put_opaque(handle)?;
    writer.put_u32(1)?;
    writer.put_u32(1)
}

/// The one path that can be mounted, by anybody.
#[tactic(auto, unfolding(xdr::specs::Items::bool_text))]
pub fn put_export(writer: &mut Writer, path: &[u8]) -> Result<(), NoMemory>
    ensures ok { OnOk result (writer.new ≡ joined_text writer.old (results_row (Export path.now))) }
    ensures short { OnOk result (IsShort path.now) }
{
    writer.put_bool(true)?;
    writer.put_opaque(path)?;
    put_zeros(writer, 2)
}
