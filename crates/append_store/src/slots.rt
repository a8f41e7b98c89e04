// What a store in memory keeps under a name, and what one call does there.
ghost use Rattle.std.specs.Prelude.{take, ◌≡◌, ◌++◌, ◌-◌, min, length, drop, IfSome, OnSome, IfNone, is_none, is_some};
ghost use Rattle.std.specs.Option.{option_copied};
ghost use Rattle.gw_model.specs.declared.object.ObjectId.{ObjectId};
ghost use Rattle.append_store.specs.State.{IsThere, bytes_of, content_in};
ghost use Rattle.append_store.specs.Calls.{part_at};
ghost use Rattle.append_store.specs.File.{file_state};
ghost use Rattle.append_store.specs.Slots.{CreatesSlot, IsCut, DeletesSlot, IsForeign, IsLentAs, IsTakenOf, IsOut, OnlyCounts, IsBackAs, entry_slot, slot_due};

use crate::MemFile;
use crate::mem_file::copy_part;
use gw_model::ObjectId;
use std::mem::replace;

// The file of an object that isn't there keeps the number of its calls.
#[derive(Drop)]
pub(crate) enum Spot {
    Gone(MemFile),
    Here(MemFile),
    Out,
}

#[derive(Drop)]
pub(crate) struct Entry {
    pub(crate) spot: Spot,
    pub(crate) losses: u64,
}

// Makes an object of no bytes where nothing is; false where the call is to fail.
#[tactic(auto, unfolding(crate::specs::Plan::due_of))]
pub(crate) fn create_at(object: ObjectId, entry: &mut Entry) -> bool
    ensures { CreatesSlot (entry_slot object entry.old) (entry_slot object entry.new) result }
{
    match replace(&mut entry.spot, Spot::Out) {
        Spot::Gone(mut file) => {
            let fails = file.due().is_some();
            entry.spot = if fails {
                Spot::Gone(file)
            } else {
                Spot::Here(file.emptied())
            };
            !fails
        }
        Spot::Here(mut file) => {
            let fails = file.due().is_some();
            entry.spot = Spot::Here(file);
            !fails
        }
        Spot::Out => true,
    }
}

// Takes the file of an object out; None where the call is to fail.
pub(crate) fn take_at(object: ObjectId, entry: &mut Entry) -> Option<MemFile>
    requires { IsThere (entry_slot object entry.old).state }
    ensures taken { IfSome result (λ file. IsTakenOf (entry_slot object entry.old) object (file_state file)) }
    ensures out { OnSome result (IsOut (entry_slot object entry.old) (entry_slot object entry.new) object) }
    ensures failed { IfNone result (OnlyCounts (entry_slot object entry.old) (entry_slot object entry.new)) }
    ensures due { is_none result ≡ is_some (slot_due (entry_slot object entry.old)) }
{
    match replace(&mut entry.spot, Spot::Out) {
        Spot::Here(mut file) => {
            if file.due().is_some() {
                entry.spot = Spot::Here(file);
                return None;
            }
            Some(file.handed_out(object))
        }
        _ => unreachable!(),
    }
}

// Puts a file back where it was taken, and lets go of it elsewhere.
pub(crate) fn give_at(object: ObjectId, entry: &mut Entry, file: MemFile)
    ensures own { IsLentAs (entry_slot object entry.old) (file_state file)
        → IsBackAs (entry_slot object entry.old) (entry_slot object entry.new) (file_state file) }
    ensures foreign { IsForeign (entry_slot object entry.old) (file_state file)
        → entry_slot object entry.new ≡ entry_slot object entry.old }
{
    if file.object() == object {
        if let Spot::Out = entry.spot {
            entry.spot = Spot::Here(file);
        }
    }
}

// Reads an object that is there; None where the call is to fail.
pub(crate) fn read_at(
    object: ObjectId,
    entry: &mut Entry,
    offset: u64,
    out: &mut [u8],
) -> Option<usize>
    requires { IsThere (entry_slot object entry.old).state }
    ensures length { IfSome result (λ n. n ≡ min (length out.old) (length (bytes_of (entry_slot object entry.old).state) - offset)) }
    ensures bytes { IfSome result (λ n. out.new ≡ part_at (bytes_of (entry_slot object entry.old).state) offset n ++ drop n out.old) }
    ensures due { is_none result ≡ is_some (slot_due (entry_slot object entry.old)) }
    ensures counted { OnlyCounts (entry_slot object entry.old) (entry_slot object entry.new) }
{
    match &mut entry.spot {
        Spot::Here(file) => {
            if file.due().is_some() {
                return None;
            }
            Some(copy_part(file.bytes(), offset, out))
        }
        _ => unreachable!(),
    }
}

// What came of a deletion.
pub(crate) enum Deletion {
    Done,
    Planned,
    // The number of losses is the greatest u64, and can't rise.
    Full,
}

// Takes away an object that is there. Its numbers of calls go on.
pub(crate) fn delete_at(object: ObjectId, entry: &mut Entry) -> Deletion
    requires { IsThere (entry_slot object entry.old).state }
    ensures { DeletesSlot (entry_slot object entry.old) (entry_slot object entry.new) result }
{
    match replace(&mut entry.spot, Spot::Out) {
        Spot::Here(mut file) => {
            if file.due().is_some() {
                entry.spot = Spot::Here(file);
                return Deletion::Planned;
            }
            let Some(losses) = entry.losses.checked_add(1) else {
                entry.spot = Spot::Here(file);
                return Deletion::Full;
            };
            entry.spot = Spot::Gone(file.emptied());
            entry.losses = losses;
            Deletion::Done
        }
        _ => unreachable!(),
    }
}

// Cuts an object as a crash does.
pub(crate) fn cut_at(entry: &mut Entry, pick: u64)
    ensures { IsCut pick entry.old entry.new }
{
    if let Spot::Here(file) = &mut entry.spot {
        file.cut(pick);
    }
}

// The bytes of an object that is there and isn't out.
pub(crate) fn bytes_at(entry: &Entry) -> Option<&[u8]>
    ensures { (object : ObjectId) → option_copied result ≡ content_in (entry_slot object entry.now).state }
{
    match &entry.spot {
        Spot::Here(file) => Some(file.bytes()),
        _ => None,
    }
}
