//! How many bytes results have, so that a listing can be ended in time.
ghost use Rattle.std.specs.Prelude.{◌≡◌, ◌∷◌, ◌+◌, ℕ, Bool, List, length, sum_by};
ghost use Rattle.xdr.specs.Rows.{Word, row_length};
ghost use Rattle.nfs_types.specs.declared.attr.Attr.{Attr};
ghost use Rattle.nfs_wire.specs.Lengths.{entry_length, entry_plus_length};
ghost use Rattle.nfs_wire.specs.Results.{EntryText, EntryPlusText, Setattr, Create, Mkdir, Symlink, Remove, Rmdir, Rename, Readdir, Readdirplus, results_row};
ghost use Rattle.nfs_wire.specs.Views.{entry_view, entry_plus_view};

use crate::{Entry, EntryPlus};
use xdr::padded_length;

/// The bytes of a READDIR's or a READDIRPLUS's results with no entry, from the status on.
pub const EMPTY_LISTING: usize = 24;
/// The bytes of the results of CREATE, MKDIR and SYMLINK, from the status on.
pub const NEW_OBJECT: usize = 140;
/// The bytes of the results of SETATTR, REMOVE and RMDIR.
pub const CHANGE: usize = 12;
/// The bytes of the results of RENAME.
pub const RENAME: usize = 20;

/// The bytes of an entry among the results of a READDIR, with the word in front of it (RFC 1813 section 3.3.16).
pub fn entry_length(entry: &Entry<'_>) -> usize
    ensures { result ≡ entry_length (entry_view entry.now) }
{
    24 + padded_length(entry.name.len())
}

/// The same for a READDIRPLUS, with attributes and a handle of 32 bytes (RFC 1813 section 3.3.17).
pub fn entry_plus_length(plus: &EntryPlus<'_>) -> usize
    ensures { result ≡ entry_plus_length (entry_plus_view plus.now) }
{
    152 + padded_length(plus.entry.name.len())
}

/// What results have so many bytes. A listing has those of one with no entry, and those of its entries.
pub fn lengths_law()
    ensures listing { (v : List ℕ) (entries : List EntryText) (eof : Bool) → length v ≡ 8
        → row_length (results_row (Readdir v entries eof)) ≡ EMPTY_LISTING + sum_by entry_length entries }
    ensures listing_plus { (v : List ℕ) (entries : List EntryPlusText) (eof : Bool) → length v ≡ 8
        → row_length (results_row (Readdirplus v entries eof)) ≡ EMPTY_LISTING + sum_by entry_plus_length entries }
    ensures create { (handle : List ℕ) (attr : Attr) → length handle ≡ 32
        → row_length (results_row (Create handle attr)) ≡ NEW_OBJECT }
    ensures mkdir { (handle : List ℕ) (attr : Attr) → length handle ≡ 32
        → row_length (results_row (Mkdir handle attr)) ≡ NEW_OBJECT }
    ensures symlink { (handle : List ℕ) (attr : Attr) → length handle ≡ 32
        → row_length (results_row (Symlink handle attr)) ≡ NEW_OBJECT }
    ensures setattr { row_length (results_row Setattr) ≡ CHANGE }
    ensures remove { row_length (results_row Remove) ≡ CHANGE }
    ensures rmdir { row_length (results_row Rmdir) ≡ CHANGE }
    ensures rename { row_length (results_row Rename) ≡ RENAME }
{}
