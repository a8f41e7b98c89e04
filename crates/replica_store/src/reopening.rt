// How a replicated store goes on after a crash of its members.
ghost use Rattle.std.specs.Prelude.{◌≡◌, ◌≢◌, ◌⊎◌, ◌≤◌, ◌<◌, ℕ, List, None, length, false, true, IfNone, IfSome, IsSome};
ghost use Rattle.std.specs.BTreeMap.{get, keys};
ghost use Rattle.std.specs.declared.cmp.Ordering.TheVariants.{Less};
ghost use Rattle.std.specs.List.{AllByRecursion, AllZip};
ghost use Rattle.gw_model.specs.declared.object.ObjectId.{ObjectId};
ghost use Rattle.append_store.specs.State.{IsAway, IsCrashImage, IsThere, Kept, Missing, ObjectState};
ghost use Rattle.append_store.specs.Calls.{object_cmp};
ghost use Rattle.replica_store.specs.Kept.{AllTouch, told_now};
ghost use Rattle.replica_store.specs.Objects.{AreSound, told_at};
ghost use Rattle.replica_store.specs.Levels.{AreFronts, Serves, StayFronts};
ghost use Rattle.replica_store.specs.Reopening.{Awaits, AwaitsLevel, CanLevel, Crashes, IsBehind, IsGivenUp, IsLed, IsLeft, needed_of};
ghost use Rattle.replica_store.specs.Starting.{AllEndure, AllLevelled};
ghost use Rattle.replica_store.specs.Seats.{AllTakePart, IsSoundAt, column, counts_of, losses_of, seat_view, told_of};

use crate::copying::level;
use crate::parts::{Lead, Part};
use crate::rounds::{give_each, take_each};
use crate::seats::{Known, Seat};
use append_store::{AppendFile, Cluster};
use gw_model::ObjectId;
use std::collections::BTreeMap;
use std::ops::Bound;

// Reopens one member after a crash, if it is called, and drops it where that fails.
fn crash_one<C: Cluster>(seat: &mut Seat<C>, pick: u64)
    requires { C.File.tells → seat.old.live ≡ true → (q : ObjectId) → IsAway (C.at seat.old.cluster q) → ⊥ }
    ensures { Crashes C.File.tells (seat_view C.at C.losses C.count seat.old) (seat_view C.at C.losses C.count seat.new) }
{
    if seat.live && seat.cluster.reopen(pick).is_err() {
        seat.live = false;
    }
}

// Reopens each member after a crash, and drops those where that fails.
pub(crate) fn crash_each<C: Cluster>(seats: &mut Vec<Seat<C>>, pick: u64)
    requires { AllByRecursion (λ s. C.File.tells → s.live ≡ true → (q : ObjectId) → IsAway (C.at s.cluster q) → ⊥) seats.old.items }
    ensures { AllZip (λ s t. Crashes C.File.tells (seat_view C.at C.losses C.count s) (seat_view C.at C.losses C.count t))
        seats.old.items seats.new.items }
{
    for seat in seats.iter_mut() {
        crash_one(seat, pick);
    }
}

// Brings the files that were taken of an object to one content, and makes them durable: which of them
// tells it then, and how many bytes of it are durable. Where none is left that is the same one as
// before, with all that it has.
fn settle<F: AppendFile>(parts: &mut Vec<Part<F>>, chief: usize) -> Lead
    ensures pairs { AllZip (Serves F.tells) parts.old.items parts.new.items }
    ensures fronts { (bytes : List ℕ) (least : ℕ) → AreFronts F.tells bytes least parts.old.items
        → StayFronts F.tells bytes least parts.old.items parts.new.items }
    ensures ends { IsLed F.tells parts.old.items parts.new.items result.index result.kept
        ⊎ IsLeft chief parts.new.items result.index result.kept }
{
    match level(parts) {
        Some(lead) => lead,
        None => Lead {
            index: chief,
            kept: u64::MAX,
        },
    }
}

// Brings the members' copies of one object to one content.
pub(crate) fn level_kept<C: Cluster>(
    seats: &mut Vec<Seat<C>>,
    kept: &mut Known<C::File>,
    object: ObjectId,
)
    requires there { AllByRecursion (λ s. C.File.tells → s.live ≡ true → IsThere (C.at s.cluster object)) seats.old.items }
    requires places { length kept.old.parts ≡ length seats.old.items }
    ensures touched { AllTouch C.File.tells (seat_view C.at C.losses C.count) object seats.old.items seats.new.items }
    ensures part { AllTakePart (seat_view C.at C.losses C.count) seats.new.items kept.new.parts }
    ensures places { length kept.new.parts ≡ length seats.new.items }
    ensures level { (bytes : List ℕ) (least : ℕ)
        → AwaitsLevel C.File.tells (seat_view C.at C.losses C.count) object bytes least seats.old.items kept.old
        → C.File.tells → IsCrashImage (Kept bytes least) (told_now (seat_view C.at C.losses C.count) object seats.new.items kept.new) }
    ensures given_up { IsGivenUp C.File.tells (seat_view C.at C.losses C.count) object seats.old.items kept.old
        → C.File.tells → told_now (seat_view C.at C.losses C.count) object seats.new.items kept.new ≡ Missing }
    ensures losses { C.File.tells → losses_of (seat_view C.at C.losses C.count) seats.new.items object
        ≡ losses_of (seat_view C.at C.losses C.count) seats.old.items object }
    ensures held { AllLevelled C.File.tells (seat_view C.at C.losses C.count) object seats.old.items seats.new.items }
{
    take_each(seats, object, &mut kept.parts);
    let lead = settle(&mut kept.parts, kept.chief);
    kept.chief = lead.index;
    kept.synced = lead.kept;
    give_each(seats, object, &mut kept.parts);
}

// The first object of the list, or the next one behind the last.
fn next_object<F: AppendFile>(
    known: &BTreeMap<ObjectId, Known<F>>,
    last: Option<ObjectId>,
) -> Option<ObjectId>
    ensures found { IfSome result (λ o. IsSome (get object_cmp known.now o)) }
    ensures behind { IfSome result (λ o. IsBehind last o) }
    ensures first { IfSome result (λ o. (q : ObjectId) → IsBehind last q → IsSome (get object_cmp known.now q) → object_cmp q o ≡ Less → ⊥) }
    ensures none { IfNone result ((q : ObjectId) → IsBehind last q → get object_cmp known.now q ≡ None) }
{
    let start = match last {
        Some(object) => Bound::Excluded(object),
        None => Bound::Unbounded,
    };
    match known.range((start, Bound::Unbounded)).next() {
        Some((object, _)) => Some(*object),
        None => None,
    }
}

// Whether the object isn't out: then it has a place for each member.
fn is_at_home<F: AppendFile>(kept: &Known<F>, places: usize) -> bool
    ensures full { result ≡ true → length kept.now.parts ≡ places }
    ensures out { result ≡ false → length kept.now.parts ≢ places }
{
    kept.parts.len() == places
}

// Brings the members' copies of an object of the list to one content. An object that is out is passed
// over.
fn level_at<C: Cluster>(
    seats: &mut Vec<Seat<C>>,
    known: &mut BTreeMap<ObjectId, Known<C::File>>,
    object: ObjectId,
)
    requires can { CanLevel C.File.tells (seat_view C.at C.losses C.count) object seats.old.items (get object_cmp known.old object) }
    requires sound { IsSoundAt C.File.tells (seat_view C.at C.losses C.count) seats.old.items object (get object_cmp known.old object) }
    ensures touched { AllTouch C.File.tells (seat_view C.at C.losses C.count) object seats.old.items seats.new.items }
    ensures sound { IsSoundAt C.File.tells (seat_view C.at C.losses C.count) seats.new.items object (get object_cmp known.new object) }
    ensures others { (q : ObjectId) → q ≢ object → get object_cmp known.new q ≡ get object_cmp known.old q }
    ensures keys { keys known.new ≡ keys known.old }
    ensures image { (before : ObjectState)
        → Awaits C.File.tells (seat_view C.at C.losses C.count) object seats.old.items (get object_cmp known.old object) before
        → C.File.tells → IsCrashImage before
        (told_of (get object_cmp known.new object) (column (seat_view C.at C.losses C.count) seats.new.items object)) }
    ensures losses { C.File.tells → losses_of (seat_view C.at C.losses C.count) seats.new.items object
        ≡ losses_of (seat_view C.at C.losses C.count) seats.old.items object }
    ensures held { AllLevelled C.File.tells (seat_view C.at C.losses C.count) object seats.old.items seats.new.items }
{
    let places = seats.len();
    if let Some(kept) = known.get_mut(&object) {
        if is_at_home(kept, places) {
            level_kept(seats, kept, object);
        }
    }
}

// Brings the members' copies of each object of the list to one content.
pub(crate) fn level_all<C: Cluster>(
    seats: &mut Vec<Seat<C>>,
    known: &mut BTreeMap<ObjectId, Known<C::File>>,
)
    requires can { (q : ObjectId) → CanLevel C.File.tells (seat_view C.at C.losses C.count) q seats.old.items (get object_cmp known.old q) }
    requires sound { AreSound C.File.tells (seat_view C.at C.losses C.count) seats.old.items known.old.entries }
    ensures sound { AreSound C.File.tells (seat_view C.at C.losses C.count) seats.new.items known.new.entries }
    ensures image { (q : ObjectId) (before : ObjectState)
        → Awaits C.File.tells (seat_view C.at C.losses C.count) q seats.old.items (get object_cmp known.old q) before → C.File.tells
        → IsCrashImage before (told_at (seat_view C.at C.losses C.count) seats.new.items known.new.entries q) }
    ensures losses { C.File.tells → (q : ObjectId) → losses_of (seat_view C.at C.losses C.count) seats.new.items q
        ≡ losses_of (seat_view C.at C.losses C.count) seats.old.items q }
    ensures later { counts_of (seat_view C.at C.losses C.count) seats.old.items
        ≤ counts_of (seat_view C.at C.losses C.count) seats.new.items }
    ensures each { AllEndure C.File.tells (seat_view C.at C.losses C.count) seats.old.items seats.new.items }
{
    let mut last = None;
    while let Some(object) = next_object(known, last) {
        level_at(seats, known, object);
        last = Some(object);
    }
}

// Reopens the members after a crash, and brings their copies of each object to one content.
pub(crate) fn reopen_in<C: Cluster>(
    seats: &mut Vec<Seat<C>>,
    known: &mut BTreeMap<ObjectId, Known<C::File>>,
    pick: u64,
)
    requires inside { C.File.tells → (q : ObjectId)
        → IsAway (told_at (seat_view C.at C.losses C.count) seats.old.items known.old.entries q) → ⊥ }
    requires sound { AreSound C.File.tells (seat_view C.at C.losses C.count) seats.old.items known.old.entries }
    ensures sound { AreSound C.File.tells (seat_view C.at C.losses C.count) seats.new.items known.new.entries }
    ensures image { C.File.tells → (q : ObjectId)
        → IsCrashImage (told_at (seat_view C.at C.losses C.count) seats.old.items known.old.entries q)
        (told_at (seat_view C.at C.losses C.count) seats.new.items known.new.entries q) }
    ensures losses { C.File.tells → (q : ObjectId) → losses_of (seat_view C.at C.losses C.count) seats.new.items q
        ≡ losses_of (seat_view C.at C.losses C.count) seats.old.items q }
    ensures later { counts_of (seat_view C.at C.losses C.count) seats.old.items
        ≤ counts_of (seat_view C.at C.losses C.count) seats.new.items }
{
    crash_each(seats, pick);
    level_all(seats, known);
}

// How many members have to be called still for a store to go on after a start or a crash.
pub(crate) fn needed(members: usize, quorum: usize) -> usize
    requires { 0 < quorum }
    ensures { result ≡ needed_of members quorum }
{
    quorum.max(members.saturating_sub(quorum) + 1)
}
