// The edits of a log are done on a tree, one by one, as they are read.
ghost use Rattle.std.specs.Prelude.{◌≡◌, ◌≤◌, ◌^◌, ℕ, length, OnOk, IfOk, Result, Err};
ghost use Rattle.name_tree.specs.declared.edit.Edit.{Edit};
ghost use Rattle.name_tree.specs.Tree.{Tree as Plain};
ghost use Rattle.edit_log.specs.declared.gauge.Cut.{Cut};
ghost use Rattle.edit_log.specs.Edits.{Logged, edit_ahead, edits_from, edits_of, edits_with, size_ahead};
ghost use Rattle.edit_log.specs.Start.{DoesEdit, DoesLog, tree_after_log, tree_with_edit};

use crate::gauge::Cut;
use crate::parts::{back, front};
use crate::reading::{EditFault, HEADER, ReadFault, bytes_behind, edit_ahead, size_ahead};
use gw_model::NoMemory;
use name_tree::{Edit, Tree};
use std::alloc::Global;

// Does one edit of a log: at moment 0, and its id is passed, whether it fits or not. Takes memory.
fn put(tree: &mut Tree, edit: &Edit) -> Result<(), NoMemory>
    ensures { OnOk result (tree.new.tree ≡ tree_with_edit edit.now tree.old.tree) }
{
    tree.reserve(edit)?;
    tree.apply(edit, 0);
    match edit {
        Edit::Make { id, .. } | Edit::Set { id, .. } => tree.pass_id(*id),
        Edit::Remove { .. } | Edit::Rename { .. } => {}
    }
    Ok(())
}

// Where no edit could be read.
fn ending(place: u64, fault: ReadFault) -> Result<(), EditFault>
    ensures { (r : Result Edit Cut) (l : Logged) (t u : Plain) → DoesEdit {T = ℕ} (Err fault) r t u
        → DoesLog result u (tree_after_log (edits_with r place l) t) }
{
    match fault {
        ReadFault::Cut(Cut::Torn) => Ok(()),
        ReadFault::Cut(Cut::Bad) => Err(EditFault::Damaged { place }),
        ReadFault::Memory => Err(EditFault::Memory),
    }
}

// Does the edit in front, and gives its size. Takes memory.
fn one(alloc: Global, bytes: &[u8], tree: &mut Tree) -> Result<usize, ReadFault>
    ensures done { DoesEdit result (edit_ahead bytes.now) tree.old.tree tree.new.tree }
    ensures size { IfOk result (λ size. (4 ≤ length bytes.now) × (size ≡ size_ahead bytes.now) × (size ≤ 4096)) }
{
    let edit = edit_ahead(alloc, bytes)?;
    put(tree, &edit)?;
    Ok(size_ahead(bytes))
}

// The edits behind a header, up to a torn end. Takes memory.
fn replay_from(alloc: Global, fuel: usize, bytes: &[u8], tree: &mut Tree) -> Result<(), EditFault>
    requires { fuel ≤ 2 ^ 50 }
    ensures { DoesLog result tree.new.tree (tree_after_log (edits_from fuel 8 bytes.now) tree.old.tree) }
{
    let mut left = fuel;
    let mut rest = bytes;
    let mut place: u64 = 8;
    while left > 0 {
        match one(alloc, rest, tree) {
            Ok(size) => {
                rest = bytes_behind(rest, size);
                place += 4 + size as u64;
                left -= 1;
            }
            Err(fault) => return ending(place, fault),
        }
    }
    Ok(())
}

/// Does the edits of a log, up to a torn end. A header that is cut has none. Takes memory; where it
/// answers an error, some of the edits may have been done.
#[tactic(auto, unfolding(crate::specs::Edits::edits_of))]
pub fn replay(alloc: Global, bytes: &[u8], tree: &mut Tree) -> Result<(), EditFault>
    requires { length bytes.now ≤ 2 ^ 50 }
    ensures { DoesLog result tree.new.tree (tree_after_log (edits_of bytes.now) tree.old.tree) }
{
    if front(bytes, 8) == HEADER {
        return replay_from(alloc, bytes.len(), back(bytes, 8), tree);
    }
    if front(HEADER, bytes.len()) == bytes {
        return Ok(());
    }
    Err(EditFault::Damaged { place: 0 })
}
