// What one call of a replicated store does in each member, one after another.
ghost use Rattle.std.specs.Prelude.{◌≡◌, ◌≤◌, ◌-◌, ℕ, List, min, take, length, true, false, IfSome, IfNone, IfOk, IsErrOf, OnOk};
ghost use Rattle.std.specs.List.{AllByRecursion, AllZip};
ghost use Rattle.gw_model.specs.declared.object.ObjectId.{ObjectId};
ghost use Rattle.append_store.specs.State.{IsAway, IsThere};
ghost use Rattle.append_store.specs.Calls.{Creates, IsRising, part_at};
ghost use Rattle.replica_store.specs.Seats.{IsUnused, seat_view};
ghost use Rattle.replica_store.specs.Starting.{Supplies};
ghost use Rattle.replica_store.specs.Steps.{AllHave, Deletes, GivesFile, IsListedBy, IsTried, Makes, SomeSeat, Stays, TakesFile, Together, Unmakes};

use crate::members::{
    delete_one, give_one, list_one, make_one, read_closed_one, supply_one, take_one, unmake_one,
};
use crate::parts::Part;
use crate::seats::Seat;
use append_store::{Cluster, ListFault};
use gw_model::{KeptObject, ObjectId};
use std::alloc::AllocError;

// Deletes an object in each member that is called, and drops those where that fails.
pub(crate) fn delete_each<C: Cluster>(
    seats: &mut Vec<Seat<C>>,
    object: ObjectId,
    parts: &mut Vec<Part<C::File>>,
)
    requires there { AllByRecursion (λ s. C.File.tells → s.live ≡ true → IsThere (C.at s.cluster object)) seats.old.items }
    requires places { length parts.old.items ≡ length seats.old.items }
    ensures { Together (λ s t p q. Deletes C.File.tells object (seat_view C.at C.losses C.count s) (seat_view C.at C.losses C.count t) p q)
        seats.old.items seats.new.items parts.old.items parts.new.items }
{
    for i in 0..seats.len() {
        delete_one(&mut seats[i], object, &mut parts[i]);
    }
}

// Makes an object in each member that is called, and drops those where that fails.
pub(crate) fn make_each<C: Cluster>(
    seats: &mut Vec<Seat<C>>,
    object: ObjectId,
    parts: &mut Vec<Part<C::File>>,
)
    requires unused { AllByRecursion (λ s. IsUnused C.File.tells object (seat_view C.at C.losses C.count s)) seats.old.items }
    requires places { length parts.old.items ≡ length seats.old.items }
    ensures { Together (λ s t p q. Makes C.File.tells object (seat_view C.at C.losses C.count s) (seat_view C.at C.losses C.count t) p q)
        seats.old.items seats.new.items parts.old.items parts.new.items }
{
    for i in 0..seats.len() {
        make_one(&mut seats[i], object, &mut parts[i]);
    }
}

// Takes the file of each member that is called and gives it.
pub(crate) fn take_each<C: Cluster>(
    seats: &mut Vec<Seat<C>>,
    object: ObjectId,
    parts: &mut Vec<Part<C::File>>,
)
    requires there { AllByRecursion (λ s. C.File.tells → s.live ≡ true → IsThere (C.at s.cluster object)) seats.old.items }
    requires places { length parts.old.items ≡ length seats.old.items }
    ensures { Together (λ s t p q. TakesFile C.File.tells object (seat_view C.at C.losses C.count s) (seat_view C.at C.losses C.count t) p q)
        seats.old.items seats.new.items parts.old.items parts.new.items }
{
    for i in 0..seats.len() {
        take_one(&mut seats[i], object, &mut parts[i]);
    }
}

// Gives each member its file back, and drops those where the file was.
pub(crate) fn give_each<C: Cluster>(
    seats: &mut Vec<Seat<C>>,
    object: ObjectId,
    parts: &mut Vec<Part<C::File>>,
)
    requires places { length parts.old.items ≡ length seats.old.items }
    ensures { Together (λ s t p q. GivesFile C.File.tells object (seat_view C.at C.losses C.count s) (seat_view C.at C.losses C.count t) p q)
        seats.old.items seats.new.items parts.old.items parts.new.items }
{
    for i in 0..seats.len() {
        give_one(&mut seats[i], object, &mut parts[i]);
    }
}

// Makes an object in each member that is called and lacks it, and drops those where that fails, until
// one is refused memory.
pub(crate) fn supply_each<C: Cluster>(
    seats: &mut Vec<Seat<C>>,
    object: ObjectId,
) -> Result<(), AllocError>
    ensures each { AllZip (λ s t. Supplies C.File.tells object (seat_view C.at C.losses C.count s) (seat_view C.at C.losses C.count t))
        seats.old.items seats.new.items }
    ensures done { OnOk result (AllZip (λ s t. C.File.tells → t.live ≡ true → Creates (C.at s.cluster object) (C.at t.cluster object))
        seats.old.items seats.new.items) }
{
    for seat in seats.iter_mut() {
        supply_one(seat, object)?;
    }
    Ok(())
}

// Deletes in each member what the last creation made, and drops those where that fails.
pub(crate) fn unmake_each<C: Cluster>(seats: &mut Vec<Seat<C>>, object: ObjectId)
    requires { AllByRecursion (λ s. IsTried C.File.tells object (seat_view C.at C.losses C.count s)) seats.old.items }
    ensures { AllZip (λ s t. Unmakes C.File.tells object (seat_view C.at C.losses C.count s) (seat_view C.at C.losses C.count t))
        seats.old.items seats.new.items }
{
    for seat in seats.iter_mut() {
        unmake_one(seat, object);
    }
}

// Whether a member was refused memory in the last creation.
fn was_refused<C>(seat: &Seat<C>) -> bool
    ensures { result ≡ false → seat.now.live ≡ true → seat.now.made ≡ true }
{
    seat.live && !seat.made
}

// Whether any was.
pub(crate) fn any_refused<C>(seats: &Vec<Seat<C>>) -> bool
    ensures { result ≡ false → AllByRecursion (λ s. s.live ≡ true → s.made ≡ true) seats.now.items }
{
    for i in 0..seats.len() {
        if was_refused(&seats[i]) {
            return true;
        }
    }
    false
}

// Reads an object in the first member that is called, drops it where that fails, and goes on.
pub(crate) fn read_closed_first<C: Cluster>(
    seats: &mut Vec<Seat<C>>,
    object: ObjectId,
    offset: u64,
    out: &mut [u8],
) -> Option<usize>
    requires { AllByRecursion (λ s. C.File.tells → s.live ≡ true → IsThere (C.at s.cluster object)) seats.old.items }
    ensures stays { AllZip (λ s t. Stays C.File.tells (seat_view C.at C.losses C.count s) (seat_view C.at C.losses C.count t))
        seats.old.items seats.new.items }
    ensures bound { IfSome result (λ n. n ≤ length out.old) }
    ensures length { IfSome result (λ n. (b : List ℕ) → C.File.tells → AllHave (seat_view C.at C.losses C.count) object b seats.old.items
        → n ≡ min (length out.old) (length b - offset)) }
    ensures bytes { IfSome result (λ n. (b : List ℕ) → C.File.tells → AllHave (seat_view C.at C.losses C.count) object b seats.old.items
        → take n out.new ≡ part_at b offset n) }
    ensures failed { IfNone result (AllByRecursion (λ s. s.live ≡ false) seats.new.items) }
{
    for seat in seats.iter_mut() {
        if let Some(count) = read_closed_one(seat, object, offset, out) {
            return Some(count);
        }
    }
    None
}

// Lists the objects of the first member that is called, drops it where that fails, and goes on.
pub(crate) fn list_first<C: Cluster>(seats: &mut Vec<Seat<C>>) -> Result<Vec<KeptObject>, ListFault>
    requires { AllByRecursion (λ s. C.File.tells → s.live ≡ true → (q : ObjectId) → IsAway (C.at s.cluster q) → ⊥) seats.old.items }
    ensures stays { AllZip (λ s t. Stays C.File.tells (seat_view C.at C.losses C.count s) (seat_view C.at C.losses C.count t))
        seats.old.items seats.new.items }
    ensures listed { IfOk result (λ all. SomeSeat (λ s. IsListedBy C.File.tells (seat_view C.at C.losses C.count s) all.items)
        seats.old.items) }
    ensures rising { IfOk result (λ all. IsRising all.items) }
    ensures failed { IsErrOf result ListFault.Fault → AllByRecursion (λ s. s.live ≡ false) seats.new.items }
{
    for seat in seats.iter_mut() {
        match list_one(seat) {
            Err(ListFault::Fault) => {}
            answer => return answer,
        }
    }
    Err(ListFault::Fault)
}
