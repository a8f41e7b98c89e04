// What one call of a replicated store makes of its members and of what is kept of the object.
ghost use Rattle.std.specs.Prelude.{◌≡◌, ◌≤◌, ◌<◌, map, min, length, true, false, Some, IfSome, IfNone};
ghost use Rattle.gw_model.specs.declared.object.ObjectId.{ObjectId};
ghost use Rattle.gw_outside.specs.Causes.{Carries};
ghost use Rattle.append_store.specs.State.{IsThere, Kept};
ghost use Rattle.replica_store.specs.Parts.{AreCopies, IsLead, counts, fresh_files, live_of, part_of};
ghost use Rattle.replica_store.specs.Seats.{AllTakePart, called_of, column, counts_of, losses_of, mark_in, seat_view};
ghost use Rattle.replica_store.specs.Kept.{AllTouch, AllUnused, CreatedAs, Deleted, TakenOut, told_now};

use crate::file::ReplicaFile;
use crate::parts::{Part, count_live, lead_of, size_at};
use crate::rounds::{any_refused, delete_each, give_each, make_each, take_each, unmake_each};
use crate::seats::{Known, Seat, first_called};
use append_store::{AppendFile, Cluster};
use gw_model::ObjectId;
use std::alloc::Global;
use std::mem::replace;

// What came of a creation.
#[derive(Clone, Copy)]
pub(crate) enum Creation {
    // Each member that is called made it, and one is.
    Made,
    // No member is called any more.
    Nowhere,
    // A member was refused memory.
    Refused,
}

// Deletes an object in the members, and says whether one is still called.
pub(crate) fn delete_kept<C: Cluster>(
    seats: &mut Vec<Seat<C>>,
    kept: &mut Known<C::File>,
    object: ObjectId,
) -> bool
    requires there { C.File.tells → IsThere (told_now (seat_view C.at C.losses C.count) object seats.old.items kept.old) }
    requires part { AllTakePart (seat_view C.at C.losses C.count) seats.old.items kept.old.parts }
    requires places { length kept.old.parts ≡ length seats.old.items }
    ensures touched { AllTouch C.File.tells (seat_view C.at C.losses C.count) object seats.old.items seats.new.items }
    ensures deleted { Deleted C.File.tells (seat_view C.at C.losses C.count) object seats.old.items seats.new.items kept.old kept.new
        result }
{
    delete_each(seats, object, &mut kept.parts);
    first_called(seats).is_some()
}

// Makes an object in the members.
pub(crate) fn make_kept<C: Cluster>(
    seats: &mut Vec<Seat<C>>,
    kept: &mut Known<C::File>,
    object: ObjectId,
) -> Creation
    requires unused { AllUnused C.File.tells (seat_view C.at C.losses C.count) object seats.old.items }
    requires places { length kept.old.parts ≡ length seats.old.items }
    ensures touched { AllTouch C.File.tells (seat_view C.at C.losses C.count) object seats.old.items seats.new.items }
    ensures created { CreatedAs C.File.tells (seat_view C.at C.losses C.count) object seats.new.items kept.new result }
    ensures losses { C.File.tells → losses_of (seat_view C.at C.losses C.count) seats.old.items object
        ≤ losses_of (seat_view C.at C.losses C.count) seats.new.items object }
{
    make_each(seats, object, &mut kept.parts);
    if any_refused(seats) {
        unmake_each(seats, object);
        return Creation::Refused;
    }
    kept.synced = 0;
    match first_called(seats) {
        Some(first) => {
            kept.chief = first;
            Creation::Made
        }
        None => Creation::Nowhere,
    }
}

// The first of the files that were given, if they make a quorum.
fn leader<F: AppendFile>(parts: &Vec<Part<F>>, quorum: usize) -> Option<usize>
    requires { 0 < quorum }
    ensures some { IfSome result (λ lead. IsLead parts.now.items lead) }
    ensures none { IfNone result (live_of parts.now.items < quorum) }
{
    if count_live(parts) < quorum {
        return None;
    }
    lead_of(parts)
}

// Takes the file of an object, if at least a quorum of the members give theirs, and gives these back
// else. Members that gave none are dropped then.
pub(crate) fn take_kept<C: Cluster>(
    alloc: Global,
    seats: &mut Vec<Seat<C>>,
    kept: &mut Known<C::File>,
    quorum: usize,
    object: ObjectId,
) -> Option<ReplicaFile<C::File>>
    requires there { C.File.tells → IsThere (told_now (seat_view C.at C.losses C.count) object seats.old.items kept.old) }
    requires part { AllTakePart (seat_view C.at C.losses C.count) seats.old.items kept.old.parts }
    requires places { length kept.old.parts ≡ length seats.old.items }
    requires some { 0 < quorum }
    ensures touched { AllTouch C.File.tells (seat_view C.at C.losses C.count) object seats.old.items seats.new.items }
    ensures part { AllTakePart (seat_view C.at C.losses C.count) seats.new.items kept.new.parts }
    ensures losses { C.File.tells → losses_of (seat_view C.at C.losses C.count) seats.new.items object
        ≡ losses_of (seat_view C.at C.losses C.count) seats.old.items object }
    ensures taken { TakenOut C.File.tells (told_now (seat_view C.at C.losses C.count) object seats.old.items kept.old)
        (told_now (seat_view C.at C.losses C.count) object seats.new.items kept.new) result }
    ensures fresh { IfSome result (λ f. f ≡ fresh_files f.parts f.chief f.quorum f.synced) }
    ensures no_faults { IfSome result (λ f. counts f.parts ≡ 0) }
    ensures failed { IfNone result (called_of (seat_view C.at C.losses C.count) seats.new.items < quorum) }
{
    take_each(seats, object, &mut kept.parts);
    match leader(&kept.parts, quorum) {
        Some(lead) => {
            kept.chief = lead;
            let parts = replace(&mut kept.parts, Vec::new(alloc));
            Some(ReplicaFile::over(parts, lead, quorum, kept.synced))
        }
        None => {
            give_each(seats, object, &mut kept.parts);
            None
        }
    }
}

// Gives each member its file of an object back: the store has the object then as the file had it.
pub(crate) fn give_kept<C: Cluster>(
    seats: &mut Vec<Seat<C>>,
    kept: &mut Known<C::File>,
    object: ObjectId,
)
    requires places { length kept.old.parts ≡ length seats.old.items }
    ensures touched { AllTouch C.File.tells (seat_view C.at C.losses C.count) object seats.old.items seats.new.items }
    ensures part { AllTakePart (seat_view C.at C.losses C.count) seats.new.items kept.new.parts }
    ensures own { C.File.tells → map mark_in (column (seat_view C.at C.losses C.count) seats.old.items object) ≡ map (λ p. p.mark)
        kept.old.parts
        → AreCopies C.File.tells kept.old.parts kept.old.chief kept.old.synced
        → told_now (seat_view C.at C.losses C.count) object seats.new.items kept.new
        ≡ Kept (part_of kept.old.parts kept.old.chief).content
        (min kept.old.synced (length (part_of kept.old.parts kept.old.chief).content)) }
    ensures own_losses { C.File.tells
        → map mark_in (column (seat_view C.at C.losses C.count) seats.old.items object) ≡ map (λ p. p.mark) kept.old.parts
        → losses_of (seat_view C.at C.losses C.count) seats.new.items object ≡ losses_of (seat_view C.at C.losses C.count) seats.old.items
        object }
    ensures losses { C.File.tells → losses_of (seat_view C.at C.losses C.count) seats.old.items object
        ≤ losses_of (seat_view C.at C.losses C.count) seats.new.items object }
    ensures count { Carries (counts_of (seat_view C.at C.losses C.count) seats.old.items) (counts kept.old.parts)
        (counts_of (seat_view C.at C.losses C.count) seats.new.items) }
{
    // A file tells that it has fewer than 2^63 bytes.
    let _size = size_at(&kept.parts, kept.chief);
    give_each(seats, object, &mut kept.parts);
}
