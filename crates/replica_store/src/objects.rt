// What one call of a replicated store makes of its members and of its list of objects.
ghost use Rattle.std.specs.Prelude.{◌≡◌, ◌<◌, length, None, IfSome, IfNone};
ghost use Rattle.std.specs.BTreeMap.{get};
ghost use Rattle.append_store.specs.Calls.{object_cmp};
ghost use Rattle.append_store.specs.State.{IsThere};
ghost use Rattle.replica_store.specs.Parts.{AreCopies, counts, fresh_files};
ghost use Rattle.replica_store.specs.Seats.{called_of, seat_view};
ghost use Rattle.replica_store.specs.Objects.{AreSound, CreatesIn, DeletesIn, GivesIn, TakesIn, told_at};

use crate::file::ReplicaFile;
use crate::kept::{Creation, delete_kept, give_kept, make_kept, take_kept};
use crate::listed::{enter, hollow, lift, places, places_of, put_back, strike};
use crate::seats::{Known, Seat};
use append_store::Cluster;
use gw_model::ObjectId;
use std::alloc::{AllocError, Global};
use std::collections::BTreeMap;

// Makes an object that the list hasn't. The memory for it comes first.
fn create_new<C: Cluster>(
    alloc: Global,
    seats: &mut Vec<Seat<C>>,
    known: &mut BTreeMap<ObjectId, Known<C::File>>,
    object: ObjectId,
) -> Result<(), AllocError>
    requires sound { AreSound C.File.tells (seat_view C.at C.losses C.count) seats.old.items known.old.entries }
    requires new { get object_cmp known.old object ≡ None }
    ensures { CreatesIn C.File.tells (seat_view C.at C.losses C.count) object seats.old.items seats.new.items
        known.old.entries known.new.entries result }
{
    let parts = places(alloc, seats.len())?;
    enter(known, object, hollow(alloc))?;
    let mut kept = Known {
        chief: 0,
        synced: 0,
        parts,
    };
    match make_kept(seats, &mut kept, object) {
        Creation::Made => {
            put_back(known, object, kept);
            Ok(())
        }
        Creation::Nowhere => {
            strike(known, object);
            Ok(())
        }
        Creation::Refused => {
            strike(known, object);
            Err(AllocError)
        }
    }
}

// Makes an object, unless the list has it.
pub(crate) fn create_in<C: Cluster>(
    alloc: Global,
    seats: &mut Vec<Seat<C>>,
    known: &mut BTreeMap<ObjectId, Known<C::File>>,
    object: ObjectId,
) -> Result<(), AllocError>
    requires { AreSound C.File.tells (seat_view C.at C.losses C.count) seats.old.items known.old.entries }
    ensures { CreatesIn C.File.tells (seat_view C.at C.losses C.count) object seats.old.items seats.new.items
        known.old.entries known.new.entries result }
{
    if known.contains_key(&object) {
        return Ok(());
    }
    create_new(alloc, seats, known, object)
}

// Deletes an object, and strikes it off the list where a member is still called.
pub(crate) fn delete_in<C: Cluster>(
    alloc: Global,
    seats: &mut Vec<Seat<C>>,
    known: &mut BTreeMap<ObjectId, Known<C::File>>,
    object: ObjectId,
) -> bool
    requires sound { AreSound C.File.tells (seat_view C.at C.losses C.count) seats.old.items known.old.entries }
    requires there { C.File.tells → IsThere (told_at (seat_view C.at C.losses C.count) seats.old.items known.old.entries object) }
    ensures { DeletesIn C.File.tells (seat_view C.at C.losses C.count) object seats.old.items seats.new.items
        known.old.entries known.new.entries result }
{
    match lift(alloc, known, object, seats.len()) {
        Some(mut kept) => {
            if delete_kept(seats, &mut kept, object) {
                strike(known, object);
                return true;
            }
            put_back(known, object, kept);
            true
        }
        None => false,
    }
}

// Takes the file of an object, if at least a quorum of the members give theirs.
pub(crate) fn take_in<C: Cluster>(
    alloc: Global,
    seats: &mut Vec<Seat<C>>,
    known: &mut BTreeMap<ObjectId, Known<C::File>>,
    quorum: usize,
    object: ObjectId,
) -> Option<ReplicaFile<C::File>>
    requires sound { AreSound C.File.tells (seat_view C.at C.losses C.count) seats.old.items known.old.entries }
    requires there { C.File.tells → IsThere (told_at (seat_view C.at C.losses C.count) seats.old.items known.old.entries object) }
    requires some { 0 < quorum }
    ensures taken { TakesIn C.File.tells (seat_view C.at C.losses C.count) object seats.old.items seats.new.items
        known.old.entries known.new.entries result }
    ensures fresh { IfSome result (λ f. f ≡ fresh_files f.parts f.chief f.quorum f.synced) }
    ensures no_faults { IfSome result (λ f. counts f.parts ≡ 0) }
    ensures failed { IfNone result (C.File.tells → called_of (seat_view C.at C.losses C.count) seats.new.items < quorum) }
{
    match lift(alloc, known, object, seats.len()) {
        Some(mut kept) => {
            let file = take_kept(alloc, seats, &mut kept, quorum, object);
            put_back(known, object, kept);
            file
        }
        None => None,
    }
}

// Gives each member its file back, if the list has the object and there are as many files as members.
pub(crate) fn give_in<C: Cluster>(
    seats: &mut Vec<Seat<C>>,
    known: &mut BTreeMap<ObjectId, Known<C::File>>,
    object: ObjectId,
    given: Known<C::File>,
) -> bool
    requires sound { AreSound C.File.tells (seat_view C.at C.losses C.count) seats.old.items known.old.entries }
    requires copies { AreCopies C.File.tells given.parts given.chief given.synced }
    ensures { GivesIn C.File.tells (seat_view C.at C.losses C.count) object seats.old.items seats.new.items
        known.old.entries known.new.entries given result }
{
    if places_of(&given) != seats.len() {
        return false;
    }
    if !known.contains_key(&object) {
        return false;
    }
    let mut kept = given;
    give_kept(seats, &mut kept, object);
    put_back(known, object, kept);
    true
}
