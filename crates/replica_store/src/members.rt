// What one call of a replicated store does in one member.
ghost use Rattle.std.specs.Prelude.{◌≡◌, ◌≤◌, ◌-◌, min, take, length, true, false, IfSome, IfNone, IfOk, IsErrOf, OnOk};
ghost use Rattle.gw_model.specs.declared.object.ObjectId.{ObjectId};
ghost use Rattle.append_store.specs.State.{IsAway, IsThere, bytes_of};
ghost use Rattle.append_store.specs.Calls.{Creates, IsRising, part_at};
ghost use Rattle.replica_store.specs.Seats.{IsUnused, seat_view};
ghost use Rattle.replica_store.specs.Starting.{Supplies};
ghost use Rattle.replica_store.specs.Steps.{Deletes, GivesFile, IsListedBy, IsTried, Makes, Stays, TakesFile, Unmakes};

use crate::parts::Part;
use crate::seats::Seat;
use append_store::{Cluster, CreateFault, ListFault};
use gw_model::{KeptObject, ObjectId};
use std::alloc::AllocError;

// Deletes an object in one member, if it is called, and drops it where that fails.
pub(crate) fn delete_one<C: Cluster>(seat: &mut Seat<C>, object: ObjectId, part: &mut Part<C::File>)
    requires { C.File.tells → seat.old.live ≡ true → IsThere (C.at seat.old.cluster object) }
    ensures { Deletes C.File.tells object (seat_view C.at C.losses C.count seat.old) (seat_view C.at C.losses C.count seat.new) part.old
        part.new }
{
    if seat.live && seat.cluster.delete(object).is_err() {
        seat.live = false;
    }
    part.live = seat.live;
}

// Makes an object in one member, if it is called, and drops it where that fails.
pub(crate) fn make_one<C: Cluster>(seat: &mut Seat<C>, object: ObjectId, part: &mut Part<C::File>)
    requires { IsUnused C.File.tells object (seat_view C.at C.losses C.count seat.old) }
    ensures { Makes C.File.tells object (seat_view C.at C.losses C.count seat.old) (seat_view C.at C.losses C.count seat.new) part.old
        part.new }
{
    seat.made = false;
    if seat.live {
        match seat.cluster.create(object) {
            Ok(()) => seat.made = true,
            Err(CreateFault::Fault) => seat.live = false,
            Err(CreateFault::Memory) => {}
        }
    }
    part.live = seat.live;
}

// Makes an object in one member, if it is called and lacks it, and drops it where that fails.
pub(crate) fn supply_one<C: Cluster>(seat: &mut Seat<C>, object: ObjectId) -> Result<(), AllocError>
    ensures each { Supplies C.File.tells object (seat_view C.at C.losses C.count seat.old) (seat_view C.at C.losses C.count seat.new) }
    ensures done { OnOk result (C.File.tells → seat.new.live ≡ true → Creates (C.at seat.old.cluster object)
        (C.at seat.new.cluster object)) }
{
    if seat.live {
        match seat.cluster.create(object) {
            Ok(()) => {}
            Err(CreateFault::Fault) => seat.live = false,
            Err(CreateFault::Memory) => return Err(AllocError),
        }
    }
    Ok(())
}

// Deletes in one member what the last creation made, and drops it where that fails.
pub(crate) fn unmake_one<C: Cluster>(seat: &mut Seat<C>, object: ObjectId)
    requires { IsTried C.File.tells object (seat_view C.at C.losses C.count seat.old) }
    ensures { Unmakes C.File.tells object (seat_view C.at C.losses C.count seat.old) (seat_view C.at C.losses C.count seat.new) }
{
    if seat.live && seat.made && seat.cluster.delete(object).is_err() {
        seat.live = false;
    }
}

// Takes the file of one member, if it is called and gives it.
pub(crate) fn take_one<C: Cluster>(seat: &mut Seat<C>, object: ObjectId, part: &mut Part<C::File>)
    requires { C.File.tells → seat.old.live ≡ true → IsThere (C.at seat.old.cluster object) }
    ensures { TakesFile C.File.tells object (seat_view C.at C.losses C.count seat.old) (seat_view C.at C.losses C.count seat.new) part.old
        part.new }
{
    *part = Part::missing();
    if seat.live {
        if let Ok(file) = seat.cluster.take_file(object) {
            *part = Part::given(file);
        }
    }
}

// Gives a member its file back, if it gave one, and drops it where the file was.
pub(crate) fn give_one<C: Cluster>(seat: &mut Seat<C>, object: ObjectId, part: &mut Part<C::File>)
    ensures { GivesFile C.File.tells object (seat_view C.at C.losses C.count seat.old) (seat_view C.at C.losses C.count seat.new) part.old
        part.new }
{
    seat.live = seat.live && part.live;
    part.live = seat.live;
    if let Some(file) = part.file.take() {
        seat.cluster.give_file(object, file);
    }
}

// Reads an object in one member, if it is called, and drops it where that fails.
pub(crate) fn read_closed_one<C: Cluster>(
    seat: &mut Seat<C>,
    object: ObjectId,
    offset: u64,
    out: &mut [u8],
) -> Option<usize>
    requires { C.File.tells → seat.old.live ≡ true → IsThere (C.at seat.old.cluster object) }
    ensures stays { Stays C.File.tells (seat_view C.at C.losses C.count seat.old) (seat_view C.at C.losses C.count seat.new) }
    ensures bound { IfSome result (λ n. n ≤ length out.old) }
    ensures length { IfSome result (λ n. C.File.tells → n ≡ min (length out.old)
        (length (bytes_of (C.at seat.old.cluster object)) - offset)) }
    ensures bytes { IfSome result (λ n. C.File.tells → take n out.new ≡ part_at (bytes_of (C.at seat.old.cluster object)) offset n) }
    ensures live { IfSome result (λ n. seat.old.live ≡ true) }
    ensures failed { IfNone result (seat.new.live ≡ false) }
{
    if !seat.live {
        return None;
    }
    match seat.cluster.read_closed(object, offset, out) {
        Ok(count) => Some(count),
        Err(_) => {
            seat.live = false;
            None
        }
    }
}

// Lists the objects of one member, if it is called, and drops it where that fails.
pub(crate) fn list_one<C: Cluster>(seat: &mut Seat<C>) -> Result<Vec<KeptObject>, ListFault>
    requires { C.File.tells → seat.old.live ≡ true → (q : ObjectId) → IsAway (C.at seat.old.cluster q) → ⊥ }
    ensures stays { Stays C.File.tells (seat_view C.at C.losses C.count seat.old) (seat_view C.at C.losses C.count seat.new) }
    ensures listed { IfOk result (λ all. IsListedBy C.File.tells (seat_view C.at C.losses C.count seat.old) all.items) }
    ensures rising { IfOk result (λ all. IsRising all.items) }
    ensures failed { IsErrOf result ListFault.Fault → seat.new.live ≡ false }
{
    if !seat.live {
        return Err(ListFault::Fault);
    }
    let answer = seat.cluster.list();
    if let Err(ListFault::Fault) = answer {
        seat.live = false;
    }
    answer
}
