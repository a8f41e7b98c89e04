// How a replicated store is made over members that have objects.
ghost use Rattle.std.specs.Prelude.{◌≡◌, ◌<◌, ℕ, List, [], length, IfOk, IsErrOf, IsSome, OnOk};
ghost use Rattle.std.specs.BTreeMap.{get};
ghost use Rattle.std.specs.List.{AllByRecursion, AllZip};
ghost use Rattle.gw_model.specs.declared.object.ObjectId.{ObjectId};
ghost use Rattle.append_store.specs.Calls.{Has, Lists, object_cmp};
ghost use Rattle.append_store.specs.State.{IsThere};
ghost use Rattle.replica_store.specs.Objects.{AreSound, told_at};
ghost use Rattle.replica_store.specs.Reopening.{IsOutOfNone};
ghost use Rattle.replica_store.specs.Seats.{IsCalledAt, column, seat_view, state_of};
ghost use Rattle.replica_store.specs.Starting.{AllEndure, AllMayAdd, AreCutOf, AreSupplied, Introduces, IsListedAt, StartsAs};
ghost use Rattle.replica_store.specs.Steps.{Stays};

use crate::listed::{enter, places};
use crate::members::list_one;
use crate::reopening::level_all;
use crate::rounds::supply_each;
use crate::seats::{Known, Seat};
use append_store::{Cluster, ListFault};
use gw_model::{KeptObject, ObjectId};
use std::alloc::{AllocError, Global};
use std::collections::BTreeMap;

/// Why no store was made over members.
#[derive(Clone, Copy, Debug, PartialEq, Eq)]
pub enum ReplicaFault {
    /// Too few members were left: how many.
    TooFew {
        /// How many of the members weren't dropped.
        live: usize,
    },
    /// Memory was refused.
    Memory,
}

/// Members over which no store was made. Each has what it had, perhaps with more behind it.
#[derive(Drop)]
pub struct Unstarted<C> {
    /// All members that were handed in, in their order.
    pub seats: Vec<Seat<C>>,
    /// Why no store was made.
    pub fault: ReplicaFault,
}

// Enters an object that this member has into the list, unless it is there, and makes it in each member
// that lacks it. Takes memory.
fn introduce<C: Cluster>(
    alloc: Global,
    seats: &mut Vec<Seat<C>>,
    known: &mut BTreeMap<ObjectId, Known<C::File>>,
    chief: usize,
    object: ObjectId,
) -> Result<(), AllocError>
    requires inside { (q : ObjectId) → IsOutOfNone C.File.tells (seat_view C.at C.losses C.count) q seats.old.items }
    requires supplied { AreSupplied C.File.tells (seat_view C.at C.losses C.count) seats.old.items known.old.entries }
    requires there { C.File.tells → IsThere (state_of (column (seat_view C.at C.losses C.count) seats.old.items object) chief) }
    ensures each { AllMayAdd C.File.tells (seat_view C.at C.losses C.count) seats.old.items seats.new.items }
    ensures introduced { OnOk result (Introduces C.File.tells (seat_view C.at C.losses C.count) seats.old.items seats.new.items
        known.old.entries known.new.entries) }
    ensures supplied { OnOk result (AreSupplied C.File.tells (seat_view C.at C.losses C.count) seats.new.items known.new.entries) }
    ensures listed { OnOk result (IsSome (get object_cmp known.new object)) }
{
    if known.contains_key(&object) {
        return Ok(());
    }
    let kept = Known {
        chief,
        synced: 0,
        parts: places(alloc, seats.len())?,
    };
    enter(known, object, kept)?;
    supply_each(seats, object)
}

// Enters each object that this member told. Takes memory.
fn introduce_each<C: Cluster>(
    alloc: Global,
    seats: &mut Vec<Seat<C>>,
    known: &mut BTreeMap<ObjectId, Known<C::File>>,
    chief: usize,
    all: &[KeptObject],
) -> Result<(), AllocError>
    requires inside { (q : ObjectId) → IsOutOfNone C.File.tells (seat_view C.at C.losses C.count) q seats.old.items }
    requires supplied { AreSupplied C.File.tells (seat_view C.at C.losses C.count) seats.old.items known.old.entries }
    requires there { C.File.tells
        → AllByRecursion (λ k. IsThere (state_of (column (seat_view C.at C.losses C.count) seats.old.items k.object) chief)) all.now }
    ensures each { AllMayAdd C.File.tells (seat_view C.at C.losses C.count) seats.old.items seats.new.items }
    ensures introduced { OnOk result (Introduces C.File.tells (seat_view C.at C.losses C.count) seats.old.items seats.new.items
        known.old.entries known.new.entries) }
    ensures supplied { OnOk result (AreSupplied C.File.tells (seat_view C.at C.losses C.count) seats.new.items known.new.entries) }
    ensures listed { OnOk result ((q : ObjectId) → Has all.now q → IsSome (get object_cmp known.new q)) }
{
    for kept in all {
        introduce(alloc, seats, known, chief, kept.object)?;
    }
    Ok(())
}

// Lists the objects of one of the members, and drops it where that fails. Takes memory.
fn list_at<C: Cluster>(seats: &mut Vec<Seat<C>>, index: usize) -> Result<Vec<KeptObject>, ListFault>
    requires place { index < length seats.old.items }
    requires inside { (q : ObjectId) → IsOutOfNone C.File.tells (seat_view C.at C.losses C.count) q seats.old.items }
    ensures stays { AllZip (λ s t. Stays C.File.tells (seat_view C.at C.losses C.count s) (seat_view C.at C.losses C.count t))
        seats.old.items seats.new.items }
    ensures listed { IfOk result (λ all. C.File.tells
        → Lists (λ q. state_of (column (seat_view C.at C.losses C.count) seats.old.items q) index) all.items) }
    ensures failed { IsErrOf result ListFault.Fault → IsCalledAt (seat_view C.at C.losses C.count) seats.new.items index → ⊥ }
{
    list_one(&mut seats[index])
}

// Enters each object of one of the members. Takes memory.
fn introduce_of<C: Cluster>(
    alloc: Global,
    seats: &mut Vec<Seat<C>>,
    known: &mut BTreeMap<ObjectId, Known<C::File>>,
    chief: usize,
) -> Result<(), AllocError>
    requires place { chief < length seats.old.items }
    requires inside { (q : ObjectId) → IsOutOfNone C.File.tells (seat_view C.at C.losses C.count) q seats.old.items }
    requires supplied { AreSupplied C.File.tells (seat_view C.at C.losses C.count) seats.old.items known.old.entries }
    ensures each { AllMayAdd C.File.tells (seat_view C.at C.losses C.count) seats.old.items seats.new.items }
    ensures introduced { OnOk result (Introduces C.File.tells (seat_view C.at C.losses C.count) seats.old.items seats.new.items
        known.old.entries known.new.entries) }
    ensures supplied { OnOk result (AreSupplied C.File.tells (seat_view C.at C.losses C.count) seats.new.items known.new.entries) }
    ensures listed { OnOk result (IsListedAt C.File.tells (seat_view C.at C.losses C.count) seats.new.items known.new.entries chief) }
{
    match list_at(seats, chief) {
        Ok(all) => introduce_each(alloc, seats, known, chief, &all),
        Err(ListFault::Fault) => Ok(()),
        Err(ListFault::Memory) => Err(AllocError),
    }
}

// Enters each object that a member has, and makes it in each other one. Takes memory.
fn introduce_all<C: Cluster>(
    alloc: Global,
    seats: &mut Vec<Seat<C>>,
    known: &mut BTreeMap<ObjectId, Known<C::File>>,
) -> Result<(), AllocError>
    requires inside { (q : ObjectId) → IsOutOfNone C.File.tells (seat_view C.at C.losses C.count) q seats.old.items }
    requires supplied { AreSupplied C.File.tells (seat_view C.at C.losses C.count) seats.old.items known.old.entries }
    ensures each { AllMayAdd C.File.tells (seat_view C.at C.losses C.count) seats.old.items seats.new.items }
    ensures introduced { OnOk result (Introduces C.File.tells (seat_view C.at C.losses C.count) seats.old.items seats.new.items
        known.old.entries known.new.entries) }
    ensures supplied { OnOk result (AreSupplied C.File.tells (seat_view C.at C.losses C.count) seats.new.items known.new.entries) }
    ensures listed { OnOk result ((k : ℕ) → k < length seats.new.items
        → IsListedAt C.File.tells (seat_view C.at C.losses C.count) seats.new.items known.new.entries k) }
{
    for chief in 0..seats.len() {
        introduce_of(alloc, seats, known, chief)?;
    }
    Ok(())
}

// Makes each object in each member that lacks it, and brings the copies of each to one content. Takes
// memory.
pub(crate) fn start_in<C: Cluster>(
    alloc: Global,
    seats: &mut Vec<Seat<C>>,
    known: &mut BTreeMap<ObjectId, Known<C::File>>,
) -> Result<(), AllocError>
    requires empty { known.old.entries ≡ [] }
    requires inside { (q : ObjectId) → IsOutOfNone C.File.tells (seat_view C.at C.losses C.count) q seats.old.items }
    ensures each { AllEndure C.File.tells (seat_view C.at C.losses C.count) seats.old.items seats.new.items }
    ensures sound { OnOk result (AreSound C.File.tells (seat_view C.at C.losses C.count) seats.new.items known.new.entries) }
    ensures started { OnOk result (C.File.tells → (q : ObjectId) (bytes : List ℕ)
        → AreCutOf (seat_view C.at C.losses C.count) q bytes seats.old.items
        → StartsAs (seat_view C.at C.losses C.count) q bytes seats.old.items seats.new.items
        (told_at (seat_view C.at C.losses C.count) seats.new.items known.new.entries q)) }
{
    introduce_all(alloc, seats, known)?;
    level_all(seats, known);
    Ok(())
}
