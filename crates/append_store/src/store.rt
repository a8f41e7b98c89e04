// An append-only file, and a store of such files. What they hold is told by some and not by others.
ghost use Rattle.std.specs.Prelude.{◌≡◌, ◌≢◌, ◌⊎◌, ◌++◌, ◌-◌, ◌^◌, ◌<◌, ◌≤◌, List, ℕ, length, min, take, drop, IfOk, IfErr, OnOk, OnErr, IsErrOf, is_err};
ghost use Rattle.gw_outside.specs.Causes.{HasCause, Rose, Carries};
ghost use Rattle.gw_outside.specs.Tally.{joined_tally, no_calls, one_call};
ghost use Rattle.gw_outside.specs.declared.tally.Tally.{Tally};
ghost use Rattle.gw_model.specs.declared.object.ObjectId.{ObjectId};
ghost use Rattle.append_store.specs.State.{ObjectState, Missing, Kept, Lent, IsAway, IsCrashImage, IsThere, MayCut, bytes_of};
ghost use Rattle.append_store.specs.Calls.{Creates, MayCreate, GuardsAt, IsRising, Lists, added_bytes, creation_tally, listing_tally, part_at};

use gw_model::{KeptObject, ObjectId};

/// An append that failed.
#[derive(Clone, Copy, Debug, PartialEq, Eq)]
pub struct AppendFault {
    /// How many bytes of the piece were kept, from its front on.
    pub kept: u64,
}

/// Another call of a file or a store that failed.
#[derive(Clone, Copy, Debug, PartialEq, Eq)]
pub struct StoreFault;

/// Why the objects weren't listed.
#[derive(Clone, Copy, Debug, PartialEq, Eq)]
pub enum ListFault {
    /// The store failed.
    Fault,
    /// Memory was refused.
    Memory,
}

/// Why an object wasn't created.
#[derive(Clone, Copy, Debug, PartialEq, Eq)]
pub enum CreateFault {
    /// The store failed.
    Fault,
    /// Memory was refused.
    Memory,
}

/// A file that only grows. It was taken of a store, and has an object there.
pub trait AppendFile: Drop {
    /// Whether files of this type tell what they hold: the clauses on it stand under this premise.
    ghost tells: { Type 0 };

    /// Which file this is: the name of its object, or what the files have that it is made of.
    ghost mark: { Self → List ObjectId };

    /// The bytes of the file.
    ghost content: { Self → List ℕ };

    /// How many bytes, from the front on, are kept over a crash.
    ghost durable: { Self → ℕ };

    /// How often the file has failed since it was taken.
    ghost count: { Self → ℕ };

    /// The calls since the file was taken, and how many of them failed.
    ghost tally: { Self → Tally };

    /// Adds `bytes` at the end. Where it fails, the front of `bytes` that the error names was
    /// added.
    fn append(&mut self, bytes: &[u8]) -> Result<(), AppendFault>
        ensures kept { IfErr result (λ e. e.kept ≤ length bytes.now) }
        ensures content { tells → content self.new ≡ content self.old ++ added_bytes result bytes.now }
        ensures durable { tells → durable self.old ≤ durable self.new }
        ensures same { mark self.new ≡ mark self.old }
        ensures counted { tally self.new ≡ one_call (is_err result) (tally self.old) }
        ensures cause { HasCause (count self.old) (count self.new) result };

    /// Makes the whole file durable. A call that failed may have made a part of it durable.
    fn hsync(&mut self) -> Result<(), StoreFault>
        ensures done { OnOk result (tells → durable self.new ≡ length (content self.new)) }
        ensures content { tells → content self.new ≡ content self.old }
        ensures durable { tells → durable self.old ≤ durable self.new }
        ensures same { mark self.new ≡ mark self.old }
        ensures counted { tally self.new ≡ one_call (is_err result) (tally self.old) }
        ensures cause { HasCause (count self.old) (count self.new) result };

    /// Copies what lies from `offset` on into the front of `out`, as far as there is room, and gives
    /// how many bytes that were. What lies behind them, and all after a call that failed, may be
    /// any bytes.
    fn read_at(&mut self, offset: u64, out: &mut [u8]) -> Result<usize, StoreFault>
        ensures length { IfOk result (λ n. n ≡ min (length out.old) (length (content self.old) - offset)) }
        ensures bytes { IfOk result (λ n. tells → take n out.new ≡ part_at (content self.old) offset n) }
        ensures content { tells → content self.new ≡ content self.old }
        ensures durable { tells → durable self.new ≡ durable self.old }
        ensures same { mark self.new ≡ mark self.old }
        ensures counted { tally self.new ≡ one_call (is_err result) (tally self.old) }
        ensures cause { HasCause (count self.old) (count self.new) result };

    /// How many bytes the file has. A file has fewer than 2^63 bytes, the limit of this gateway.
    fn len(&self) -> u64
        ensures value { result ≡ length (content self.now) }
        ensures low { result < 2 ^ 63 };

    /// How often the file has failed since it was taken. The count never falls, and stays at the
    /// greatest u64.
    fn faults(&self) -> u64
        ensures { result ≡ count self.now };

    /// No more is durable than there is.
    ghost durable_within: { (f : Self) → tells → durable f ≤ length (content f) };
}

/// A store of objects that only grow. A call on one object changes no other.
pub trait Cluster: Drop {
    /// What is taken of an object.
    type File: AppendFile;

    /// What the store has under a name.
    ghost at: { Self → ObjectId → ObjectState };

    /// How often the durable length of an object fell, or the object was taken away, at a moment
    /// inside a call too. It never falls, also when the object is gone.
    ghost losses: { Self → ObjectId → ℕ };

    /// How often the store has failed, with the failures of the files that were given back.
    ghost count: { Self → ℕ };

    /// The calls that were made, and how many of them failed, with those of the files that were
    /// given back. A call that was refused memory isn't counted.
    ghost tally: { Self → Tally };

    /// The objects that are there, with their lengths in bytes: logs first, then by numbers. No
    /// object may be out. Takes memory.
    fn list(&mut self) -> Result<Vec<KeptObject>, ListFault>
        requires { Self.File.tells → (q : ObjectId) → IsAway (at self.old q) → ⊥ }
        ensures listed { IfOk result (λ all. Self.File.tells → Lists (at self.old) all.items) }
        ensures rising { IfOk result (λ all. IsRising all.items) }
        ensures same { Self.File.tells → (q : ObjectId) → at self.new q ≡ at self.old q }
        ensures no_losses { Self.File.tells → (q : ObjectId) → losses self.new q ≡ losses self.old q }
        ensures later { count self.old ≤ count self.new }
        ensures counted { tally self.new ≡ listing_tally result (tally self.old) }
        ensures cause { IsErrOf result ListFault.Fault → Rose (count self.old) (count self.new) };

    /// Makes an object of no bytes where nothing is, and leaves one that is there as it is. A call
    /// that failed may have made it; one that was refused memory didn't. Takes memory.
    fn create(&mut self, object: ObjectId) -> Result<(), CreateFault>
        ensures done { OnOk result (Self.File.tells → Creates (at self.old object) (at self.new object)) }
        ensures failed { OnErr result (Self.File.tells → MayCreate (at self.old object) (at self.new object)) }
        ensures refused { IsErrOf result CreateFault.Memory → Self.File.tells → at self.new object ≡ at self.old object }
        ensures others { Self.File.tells → (q : ObjectId) → q ≢ object → at self.new q ≡ at self.old q }

        // Only where nothing was there may the losses rise.
        ensures losses { Self.File.tells → GuardsAt at losses object self.old self.new }
        ensures losses_there { Self.File.tells → at self.old object ≢ Missing → losses self.new object ≡ losses self.old object }
        ensures no_losses { Self.File.tells → (q : ObjectId) → q ≢ object → losses self.new q ≡ losses self.old q }
        ensures later { count self.old ≤ count self.new }
        ensures counted { tally self.new ≡ creation_tally result (tally self.old) }
        ensures cause { IsErrOf result CreateFault.Fault → Rose (count self.old) (count self.new) };

    /// Takes the file of an object out. Its count and its tally begin at 0. A call that failed
    /// takes nothing out.
    fn take_file(&mut self, object: ObjectId) -> Result<Self::File, StoreFault>
        requires { Self.File.tells → IsThere (at self.old object) }
        ensures taken { IfOk result (λ file. Self.File.tells
            → at self.old object ≡ Kept (Self.File.content file) (Self.File.durable file)) }
        ensures out { IfOk result (λ file. Self.File.tells → at self.new object ≡ Lent (Self.File.mark file)) }
        ensures fresh { IfOk result (λ file. Self.File.count file ≡ 0) }
        ensures no_calls { IfOk result (λ file. Self.File.tally file ≡ no_calls) }
        ensures failed { OnErr result (Self.File.tells → at self.new object ≡ at self.old object) }
        ensures others { Self.File.tells → (q : ObjectId) → q ≢ object → at self.new q ≡ at self.old q }
        ensures no_losses { Self.File.tells → (q : ObjectId) → losses self.new q ≡ losses self.old q }
        ensures counted { tally self.new ≡ one_call (is_err result) (tally self.old) }
        ensures cause { HasCause (count self.old) (count self.new) result };

    /// Puts a file back, and adds its failures and its tally to the store's. The file is foreign where
    /// the object isn't out or where it was taken of another one: a store may then lose the object.
    fn give_file(&mut self, object: ObjectId, file: Self::File)
        ensures own { Self.File.tells → at self.old object ≡ Lent (Self.File.mark file)
            → at self.new object ≡ Kept (Self.File.content file) (Self.File.durable file) }
        ensures own_losses { Self.File.tells → at self.old object ≡ Lent (Self.File.mark file)
            → losses self.new object ≡ losses self.old object }
        ensures losses { Self.File.tells → losses self.old object ≤ losses self.new object }
        ensures others { Self.File.tells → (q : ObjectId) → q ≢ object → at self.new q ≡ at self.old q }
        ensures no_losses { Self.File.tells → (q : ObjectId) → q ≢ object → losses self.new q ≡ losses self.old q }
        ensures counted { tally self.new ≡ joined_tally (tally self.old) (Self.File.tally file) }
        ensures count { Carries (count self.old) (Self.File.count file) (count self.new) };

    /// Reads an object without taking it out: copies what lies from `offset` on into the front of
    /// `out`, as far as there is room, and gives how many bytes that were. What lies behind them,
    /// and all after a call that failed, may be any bytes.
    fn read_closed(
        &mut self,
        object: ObjectId,
        offset: u64,
        out: &mut [u8],
    ) -> Result<usize, StoreFault>
        requires { Self.File.tells → IsThere (at self.old object) }
        ensures bound { IfOk result (λ n. n ≤ length out.old) }
        ensures length { IfOk result (λ n. Self.File.tells → n ≡ min (length out.old) (length (bytes_of (at self.old object)) - offset)) }
        ensures bytes { IfOk result (λ n. Self.File.tells → take n out.new ≡ part_at (bytes_of (at self.old object)) offset n) }
        ensures same { Self.File.tells → (q : ObjectId) → at self.new q ≡ at self.old q }
        ensures no_losses { Self.File.tells → (q : ObjectId) → losses self.new q ≡ losses self.old q }
        ensures counted { tally self.new ≡ one_call (is_err result) (tally self.old) }
        ensures cause { HasCause (count self.old) (count self.new) result };

    /// Takes an object away, with its bytes. A call that failed may have taken it away.
    fn delete(&mut self, object: ObjectId) -> Result<(), StoreFault>
        requires { Self.File.tells → IsThere (at self.old object) }
        ensures done { OnOk result (Self.File.tells → at self.new object ≡ Missing) }
        ensures failed { OnErr result (Self.File.tells → (at self.new object ≡ at self.old object) ⊎ (at self.new object ≡ Missing)) }
        ensures others { Self.File.tells → (q : ObjectId) → q ≢ object → at self.new q ≡ at self.old q }
        ensures losses { Self.File.tells → GuardsAt at losses object self.old self.new }
        ensures no_losses { Self.File.tells → (q : ObjectId) → q ≢ object → losses self.new q ≡ losses self.old q }
        ensures counted { tally self.new ≡ one_call (is_err result) (tally self.old) }
        ensures cause { HasCause (count self.old) (count self.new) result };

    /// Makes the store what it may be after a crash: each object keeps a prefix that has at least
    /// what was durable, and all of it is durable then. `pick` says which of the crashes, where the
    /// store has a choice. No object may be out. A call that failed may have cut some objects so.
    fn reopen(&mut self, pick: u64) -> Result<(), StoreFault>
        requires { Self.File.tells → (q : ObjectId) → IsAway (at self.old q) → ⊥ }
        ensures done { OnOk result (Self.File.tells → (q : ObjectId) → IsCrashImage (at self.old q) (at self.new q)) }
        ensures failed { OnErr result (Self.File.tells → (q : ObjectId) → MayCut (at self.old q) (at self.new q)) }
        ensures no_losses { Self.File.tells → (q : ObjectId) → losses self.new q ≡ losses self.old q }
        ensures counted { tally self.new ≡ one_call (is_err result) (tally self.old) }
        ensures cause { HasCause (count self.old) (count self.new) result };

    /// How often the store has failed, with the failures of the files that were given back. The
    /// count never falls, and stays at the greatest u64.
    fn faults(&self) -> u64
        ensures { result ≡ count self.now };
}
