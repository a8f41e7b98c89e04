// A store over several stores, each of which has a copy of every object.
ghost use Rattle.std.specs.Prelude.{◌≡◌, ◌<◌, ◌≤◌, ℕ, List, length, IfErr, IfOk};
ghost use Rattle.std.specs.List.{AllByRecursion};
ghost use Rattle.gw_model.specs.declared.object.ObjectId.{ObjectId};
ghost use Rattle.gw_outside.specs.Tally.{no_calls};
ghost use Rattle.append_store.specs.State.{Missing};
ghost use Rattle.replica_store.specs.Kept.{AllUnused};
ghost use Rattle.replica_store.specs.Reopening.{IsOutOfNone, needed_of};
ghost use Rattle.replica_store.specs.Seats.{called_of, seat_view, told_in};
ghost use Rattle.replica_store.specs.Starting.{AllEndure, AreCutOf, IsUnstarted, StartsAs};

use crate::calls::Answered;
use crate::file::ReplicaFile;
use crate::objects::{create_in, delete_in, give_in, take_in};
use crate::reopening::{needed, reopen_in};
use crate::rounds::{list_first, read_closed_first};
use crate::seats::{Known, Seat, count_called, count_failures};
use crate::starting::{ReplicaFault, Unstarted, start_in};
use append_store::{AppendFile, Cluster, CreateFault, ListFault, StoreFault};
use gw_model::{KeptObject, ObjectId};
use std::alloc::Global;
use std::collections::BTreeMap;
use std::marker::Model;

/// A store over several stores. A call goes to all members that weren't dropped; one that fails is
/// dropped: it is called no more, but to get its files back. A read and a list ask the first that
/// wasn't dropped, and go on to the next where it fails. The list of the objects is kept, with the
/// room for a file of each member. Durable is what the last hsync, start or reopening that was done
/// covered. The losses of an object are the members' together, and the count of faults is theirs
/// and one for each fault that was answered, up to the greatest u64.
#[derive(Drop)]
pub struct Replica<C: Cluster> {
    pub(crate) alloc: Global,
    pub(crate) seats: Vec<Seat<C>>,
    pub(crate) known: BTreeMap<ObjectId, Known<C::File>>,
    pub(crate) quorum: usize,
    pub(crate) answered: Answered,
}

impl<C: Cluster> Model for Replica<C> {
    ghost use Rattle.replica_store.specs.Seats.{ReplicaState, IsSoundReplica, seat_view};

    ghost Value = { ReplicaState C };

    ghost view = { λ r. record { seats = r.seats.items; known = r.known.entries; quorum = r.quorum; answered = r.answered } };

    ghost invariant = { λ r. IsSoundReplica C.File.tells (seat_view C.at C.losses C.count) r.seats.items r.known.entries r.quorum };
}

impl<C: Cluster> Replica<C> {
    /// A store over members that have no objects. A call is done where at least `quorum` of them, 1 or
    /// more, did it. Takes no memory.
    pub fn new(alloc: Global, seats: Vec<Seat<C>>, quorum: usize) -> Replica<C>
        requires quorum { 0 < quorum }
        requires empty { (q : ObjectId) → AllUnused C.File.tells (seat_view C.at C.losses C.count) q seats.items }
        ensures empty { (q : ObjectId) → told_in (seat_view C.at C.losses C.count) result q ≡ Missing }
        ensures members { result.seats ≡ seats.items }
        ensures quorum { result.quorum ≡ quorum }
        ensures no_calls { result.answered ≡ record { refusals = 0; tally = no_calls } }
    {
        Replica {
            alloc,
            seats,
            known: BTreeMap::new(alloc),
            quorum,
            answered: Answered::new(),
        }
    }

    /// A store over members that may have objects, as a crash left them. A call is done where at least
    /// `quorum` of them, 1 or more, did it. Each object of a member is made in those that lack it, and
    /// each copy is brought to the longest one's content by appends, and made durable; a member where
    /// a call fails is dropped. Fails exactly where fewer members are left than the greater of the
    /// quorum and as many as leave less than a quorum out, or where memory is refused; all members are
    /// handed back then. Takes memory.
    pub fn start(
        alloc: Global,
        seats: Vec<Seat<C>>,
        quorum: usize,
    ) -> Result<Replica<C>, Unstarted<C>>
        requires quorum { 0 < quorum }
        requires inside { (q : ObjectId) → IsOutOfNone C.File.tells (seat_view C.at C.losses C.count) q seats.items }
        ensures started { IfOk result (λ r. C.File.tells → (q : ObjectId) (bytes : List ℕ)
            → AreCutOf (seat_view C.at C.losses C.count) q bytes seats.items
            → StartsAs (seat_view C.at C.losses C.count) q bytes seats.items r.seats (told_in (seat_view C.at C.losses C.count) r q)) }
        ensures each { IfOk result (λ r. AllEndure C.File.tells (seat_view C.at C.losses C.count) seats.items r.seats) }
        ensures back { IfErr result (λ e. AllEndure C.File.tells (seat_view C.at C.losses C.count) seats.items e.seats.items) }
        ensures enough { IfOk result (λ r. needed_of (length r.seats) quorum ≤ called_of (seat_view C.at C.losses C.count) r.seats) }
        ensures few { IfErr result (λ e. IsUnstarted (seat_view C.at C.losses C.count) e.seats.items quorum e.fault) }
        ensures quorum { IfOk result (λ r. r.quorum ≡ quorum) }
        ensures no_calls { IfOk result (λ r. r.answered ≡ record { refusals = 0; tally = no_calls }) }
    {
        let mut seats = seats;
        let mut known = BTreeMap::new(alloc);
        if start_in(alloc, &mut seats, &mut known).is_err() {
            let fault = ReplicaFault::Memory;
            return Err(Unstarted { seats, fault });
        }
        let live = count_called(&seats);
        if live < needed(seats.len(), quorum) {
            let fault = ReplicaFault::TooFew { live };
            return Err(Unstarted { seats, fault });
        }
        Ok(Replica {
            alloc,
            seats,
            known,
            quorum,
            answered: Answered::new(),
        })
    }

    /// The members, in their order, each with its objects.
    pub fn into_seats(self) -> Vec<Seat<C>>
        ensures { result.items ≡ self.seats }
    {
        self.seats
    }

    /// How many members weren't dropped.
    pub fn live(&self) -> usize
        ensures { result ≡ called_of (seat_view C.at C.losses C.count) self.now.seats }
    {
        count_called(&self.seats)
    }
}

impl<C: Cluster> Cluster for Replica<C> {
    ghost use Rattle.std.specs.Prelude.{◌≢◌, ◌⊎◌, ◌<◌, ◌≤◌, ◌-◌, false, min, take, length, is_err, IfOk, IsErrOf, OnErr, OnOk};
    ghost use Rattle.gw_model.specs.declared.object.ObjectId.{ObjectId};
    ghost use Rattle.gw_outside.specs.Causes.{Carries, HasCause, Rose};
    ghost use Rattle.gw_outside.specs.Tally.{joined_tally, no_calls, one_call};
    ghost use Rattle.append_store.specs.State.{IsAway, IsCrashImage, IsThere, Kept, Lent, MayCut, Missing, bytes_of};
    ghost use Rattle.append_store.specs.Calls.{Creates, GuardsAt, IsRising, Lists, MayCreate, creation_tally, listing_tally, part_at};
    ghost use Rattle.replica_store.specs.Parts.{bytes_in, count_in, durable_in, file_mark};
    ghost use Rattle.replica_store.specs.Reopening.{needed_of};
    ghost use Rattle.replica_store.specs.Seats.{faults_in, losses_in, told_in};

    type File = ReplicaFile<C::File>;

    ghost at = { λ r q. told_in (seat_view C.at C.losses C.count) r q };

    ghost losses = { λ r q. losses_in (seat_view C.at C.losses C.count) r q };

    ghost count = { λ r. faults_in (seat_view C.at C.losses C.count) r };

    ghost tally = { λ r. r.answered.tally };

    /// Lists the objects of the first member that wasn't dropped, drops it where that fails, and goes
    /// on. It fails only where none is left.
    fn list(&mut self) -> Result<Vec<KeptObject>, ListFault>
        requires { C.File.tells → (q : ObjectId) → IsAway (told_in (seat_view C.at C.losses C.count) self.old q) → ⊥ }
        ensures listed { IfOk result (λ all. C.File.tells → Lists (λ q. told_in (seat_view C.at C.losses C.count) self.old q) all.items) }
        ensures rising { IfOk result (λ all. IsRising all.items) }
        ensures same { C.File.tells → (q : ObjectId)
            → told_in (seat_view C.at C.losses C.count) self.new q ≡ told_in (seat_view C.at C.losses C.count) self.old q }
        ensures no_losses { C.File.tells → (q : ObjectId)
            → losses_in (seat_view C.at C.losses C.count) self.new q ≡ losses_in (seat_view C.at C.losses C.count) self.old q }
        ensures later { faults_in (seat_view C.at C.losses C.count) self.old ≤ faults_in (seat_view C.at C.losses C.count) self.new }
        ensures counted { self.new.answered.tally ≡ listing_tally result self.old.answered.tally }
        ensures cause { IsErrOf result ListFault.Fault
            → Rose (faults_in (seat_view C.at C.losses C.count) self.old) (faults_in (seat_view C.at C.losses C.count) self.new) }
        ensures failed { IsErrOf result ListFault.Fault → AllByRecursion (λ s. s.live ≡ false) self.new.seats }
    {
        match list_first(&mut self.seats) {
            Ok(all) => {
                self.answered.done();
                Ok(all)
            }
            Err(ListFault::Fault) => {
                self.answered.fail();
                Err(ListFault::Fault)
            }
            Err(ListFault::Memory) => Err(ListFault::Memory),
        }
    }

    /// Makes an object in each member that wasn't dropped, unless the list has it. It fails exactly
    /// where fewer than the quorum are left. Where a member was refused memory the others delete
    /// what they made, and those where that fails are dropped.
    fn create(&mut self, object: ObjectId) -> Result<(), CreateFault>
        ensures done { OnOk result (C.File.tells
            → Creates (told_in (seat_view C.at C.losses C.count) self.old object)
            (told_in (seat_view C.at C.losses C.count) self.new object)) }
        ensures failed { OnErr result (C.File.tells
            → MayCreate (told_in (seat_view C.at C.losses C.count) self.old object)
            (told_in (seat_view C.at C.losses C.count) self.new object)) }
        ensures refused { IsErrOf result CreateFault.Memory → C.File.tells
            → told_in (seat_view C.at C.losses C.count) self.new object ≡ told_in (seat_view C.at C.losses C.count) self.old object }
        ensures others { C.File.tells → (q : ObjectId) → q ≢ object
            → told_in (seat_view C.at C.losses C.count) self.new q ≡ told_in (seat_view C.at C.losses C.count) self.old q }
        ensures losses { C.File.tells → GuardsAt (λ r q. told_in (seat_view C.at C.losses C.count) r q)
            (λ r q. losses_in (seat_view C.at C.losses C.count) r q) object self.old self.new }
        ensures losses_there { C.File.tells → told_in (seat_view C.at C.losses C.count) self.old object ≢ Missing
            → losses_in (seat_view C.at C.losses C.count) self.new object ≡ losses_in (seat_view C.at C.losses C.count) self.old object }
        ensures no_losses { C.File.tells → (q : ObjectId) → q ≢ object
            → losses_in (seat_view C.at C.losses C.count) self.new q ≡ losses_in (seat_view C.at C.losses C.count) self.old q }
        ensures later { faults_in (seat_view C.at C.losses C.count) self.old ≤ faults_in (seat_view C.at C.losses C.count) self.new }
        ensures counted { self.new.answered.tally ≡ creation_tally result self.old.answered.tally }
        ensures cause { IsErrOf result CreateFault.Fault
            → Rose (faults_in (seat_view C.at C.losses C.count) self.old) (faults_in (seat_view C.at C.losses C.count) self.new) }
        ensures enough { OnOk result (self.old.quorum ≤ called_of (seat_view C.at C.losses C.count) self.new.seats) }
        ensures few { IsErrOf result CreateFault.Fault → called_of (seat_view C.at C.losses C.count) self.new.seats < self.old.quorum }
    {
        match create_in(self.alloc, &mut self.seats, &mut self.known, object) {
            Ok(()) => {
                if count_called(&self.seats) < self.quorum {
                    self.answered.fail();
                    return Err(CreateFault::Fault);
                }
                self.answered.done();
                Ok(())
            }
            Err(_) => Err(CreateFault::Memory),
        }
    }

    /// Takes the file of each member that wasn't dropped and gives it. It fails exactly where fewer
    /// than the quorum do; these get their files back then, and the others are dropped.
    fn take_file(&mut self, object: ObjectId) -> Result<ReplicaFile<C::File>, StoreFault>
        requires { C.File.tells → IsThere (told_in (seat_view C.at C.losses C.count) self.old object) }
        ensures taken { IfOk result (λ file. C.File.tells
            → told_in (seat_view C.at C.losses C.count) self.old object ≡ Kept (bytes_in file) (durable_in file)) }
        ensures out { IfOk result (λ file. C.File.tells
            → told_in (seat_view C.at C.losses C.count) self.new object ≡ Lent (file_mark file)) }
        ensures fresh { IfOk result (λ file. count_in file ≡ 0) }
        ensures no_calls { IfOk result (λ file. file.answered.tally ≡ no_calls) }
        ensures failed { OnErr result (C.File.tells
            → told_in (seat_view C.at C.losses C.count) self.new object ≡ told_in (seat_view C.at C.losses C.count) self.old object) }
        ensures others { C.File.tells → (q : ObjectId) → q ≢ object
            → told_in (seat_view C.at C.losses C.count) self.new q ≡ told_in (seat_view C.at C.losses C.count) self.old q }
        ensures no_losses { C.File.tells → (q : ObjectId)
            → losses_in (seat_view C.at C.losses C.count) self.new q ≡ losses_in (seat_view C.at C.losses C.count) self.old q }
        ensures counted { self.new.answered.tally ≡ one_call (is_err result) self.old.answered.tally }
        ensures cause { HasCause (faults_in (seat_view C.at C.losses C.count) self.old)
            (faults_in (seat_view C.at C.losses C.count) self.new) result }
        ensures few { OnErr result (C.File.tells → called_of (seat_view C.at C.losses C.count) self.new.seats < self.old.quorum) }
    {
        match take_in(
            self.alloc,
            &mut self.seats,
            &mut self.known,
            self.quorum,
            object,
        ) {
            Some(file) => {
                self.answered.done();
                Ok(file)
            }
            None => {
                self.answered.fail();
                Err(StoreFault)
            }
        }
    }

    /// Gives each member its file back, and drops those that were dropped for the file. A file that
    /// was taken of no object of this list, or has another number of files, is let go, and counted.
    fn give_file(&mut self, object: ObjectId, file: ReplicaFile<C::File>)
        ensures own { C.File.tells → told_in (seat_view C.at C.losses C.count) self.old object ≡ Lent (file_mark file)
            → told_in (seat_view C.at C.losses C.count) self.new object ≡ Kept (bytes_in file) (durable_in file) }
        ensures own_losses { C.File.tells → told_in (seat_view C.at C.losses C.count) self.old object ≡ Lent (file_mark file)
            → losses_in (seat_view C.at C.losses C.count) self.new object ≡ losses_in (seat_view C.at C.losses C.count) self.old object }
        ensures losses { C.File.tells
            → losses_in (seat_view C.at C.losses C.count) self.old object ≤ losses_in (seat_view C.at C.losses C.count) self.new object }
        ensures others { C.File.tells → (q : ObjectId) → q ≢ object
            → told_in (seat_view C.at C.losses C.count) self.new q ≡ told_in (seat_view C.at C.losses C.count) self.old q }
        ensures no_losses { C.File.tells → (q : ObjectId) → q ≢ object
            → losses_in (seat_view C.at C.losses C.count) self.new q ≡ losses_in (seat_view C.at C.losses C.count) self.old q }
        ensures counted { self.new.answered.tally ≡ joined_tally self.old.answered.tally file.answered.tally }
        ensures count { Carries (faults_in (seat_view C.at C.losses C.count) self.old) (count_in file)
            (faults_in (seat_view C.at C.losses C.count) self.new) }
    {
        let faults = file.faults();
        let (given, answered) = file.into_kept();
        if give_in(&mut self.seats, &mut self.known, object, given) {
            self.answered.join(answered.refusals, answered.tally);
            return;
        }
        self.answered.join(faults, answered.tally);
    }

    /// Reads the first member that wasn't dropped, drops it where that fails, and goes on. It fails
    /// only where none is left.
    fn read_closed(
        &mut self,
        object: ObjectId,
        offset: u64,
        out: &mut [u8],
    ) -> Result<usize, StoreFault>
        requires { C.File.tells → IsThere (told_in (seat_view C.at C.losses C.count) self.old object) }
        ensures bound { IfOk result (λ n. n ≤ length out.old) }
        ensures length { IfOk result (λ n. C.File.tells
            → n ≡ min (length out.old) (length (bytes_of (told_in (seat_view C.at C.losses C.count) self.old object)) - offset)) }
        ensures bytes { IfOk result (λ n. C.File.tells
            → take n out.new ≡ part_at (bytes_of (told_in (seat_view C.at C.losses C.count) self.old object)) offset n) }
        ensures same { C.File.tells → (q : ObjectId)
            → told_in (seat_view C.at C.losses C.count) self.new q ≡ told_in (seat_view C.at C.losses C.count) self.old q }
        ensures no_losses { C.File.tells → (q : ObjectId)
            → losses_in (seat_view C.at C.losses C.count) self.new q ≡ losses_in (seat_view C.at C.losses C.count) self.old q }
        ensures counted { self.new.answered.tally ≡ one_call (is_err result) self.old.answered.tally }
        ensures cause { HasCause (faults_in (seat_view C.at C.losses C.count) self.old)
            (faults_in (seat_view C.at C.losses C.count) self.new) result }
        ensures failed { OnErr result (AllByRecursion (λ s. s.live ≡ false) self.new.seats) }
    {
        match read_closed_first(&mut self.seats, object, offset, out) {
            Some(count) => {
                self.answered.done();
                Ok(count)
            }
            None => {
                self.answered.fail();
                Err(StoreFault)
            }
        }
    }

    /// Deletes an object in each member that wasn't dropped, and drops those that fail. It fails
    /// exactly where fewer than the quorum are left.
    fn delete(&mut self, object: ObjectId) -> Result<(), StoreFault>
        requires { C.File.tells → IsThere (told_in (seat_view C.at C.losses C.count) self.old object) }
        ensures done { OnOk result (C.File.tells → told_in (seat_view C.at C.losses C.count) self.new object ≡ Missing) }
        ensures failed { OnErr result (C.File.tells
            → (told_in (seat_view C.at C.losses C.count) self.new object ≡ told_in (seat_view C.at C.losses C.count) self.old object)
            ⊎ (told_in (seat_view C.at C.losses C.count) self.new object ≡ Missing)) }
        ensures others { C.File.tells → (q : ObjectId) → q ≢ object
            → told_in (seat_view C.at C.losses C.count) self.new q ≡ told_in (seat_view C.at C.losses C.count) self.old q }
        ensures losses { C.File.tells → GuardsAt (λ r q. told_in (seat_view C.at C.losses C.count) r q)
            (λ r q. losses_in (seat_view C.at C.losses C.count) r q) object self.old self.new }
        ensures no_losses { C.File.tells → (q : ObjectId) → q ≢ object
            → losses_in (seat_view C.at C.losses C.count) self.new q ≡ losses_in (seat_view C.at C.losses C.count) self.old q }
        ensures counted { self.new.answered.tally ≡ one_call (is_err result) self.old.answered.tally }
        ensures cause { HasCause (faults_in (seat_view C.at C.losses C.count) self.old)
            (faults_in (seat_view C.at C.losses C.count) self.new) result }
        ensures enough { OnOk result (self.old.quorum ≤ called_of (seat_view C.at C.losses C.count) self.new.seats) }
        ensures few { OnErr result (C.File.tells → called_of (seat_view C.at C.losses C.count) self.new.seats < self.old.quorum) }
    {
        if !delete_in(self.alloc, &mut self.seats, &mut self.known, object) {
            self.answered.fail();
            return Err(StoreFault);
        }
        if count_called(&self.seats) < self.quorum {
            self.answered.fail();
            return Err(StoreFault);
        }
        self.answered.done();
        Ok(())
    }

    /// Reopens each member that wasn't dropped, drops those that fail, and brings the copies of each
    /// object to one content. It fails exactly where fewer members are left than the greater of the
    /// quorum and as many as leave less than a quorum out. Takes no memory.
    fn reopen(&mut self, pick: u64) -> Result<(), StoreFault>
        requires { C.File.tells → (q : ObjectId) → IsAway (told_in (seat_view C.at C.losses C.count) self.old q) → ⊥ }
        ensures done { OnOk result (C.File.tells → (q : ObjectId)
            → IsCrashImage (told_in (seat_view C.at C.losses C.count) self.old q) (told_in (seat_view C.at C.losses C.count) self.new q)) }
        ensures failed { OnErr result (C.File.tells → (q : ObjectId)
            → MayCut (told_in (seat_view C.at C.losses C.count) self.old q) (told_in (seat_view C.at C.losses C.count) self.new q)) }
        ensures no_losses { C.File.tells → (q : ObjectId)
            → losses_in (seat_view C.at C.losses C.count) self.new q ≡ losses_in (seat_view C.at C.losses C.count) self.old q }
        ensures counted { self.new.answered.tally ≡ one_call (is_err result) self.old.answered.tally }
        ensures cause { HasCause (faults_in (seat_view C.at C.losses C.count) self.old)
            (faults_in (seat_view C.at C.losses C.count) self.new) result }
        ensures enough { OnOk result (needed_of (length self.new.seats) self.old.quorum
            ≤ called_of (seat_view C.at C.losses C.count) self.new.seats) }
        ensures few { OnErr result (called_of (seat_view C.at C.losses C.count) self.new.seats
            < needed_of (length self.new.seats) self.old.quorum) }
    {
        reopen_in(&mut self.seats, &mut self.known, pick);
        if count_called(&self.seats) < needed(self.seats.len(), self.quorum) {
            self.answered.fail();
            return Err(StoreFault);
        }
        self.answered.done();
        Ok(())
    }

    fn faults(&self) -> u64 {
        count_failures(&self.seats, self.answered.refusals)
    }
}
