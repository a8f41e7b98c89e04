// Pending writes with the spill file of their bytes.
ghost use Rattle.std.specs.Prelude.{◌≡◌, ◌+◌, ◌≤◌, true, length, slice_get, IfErr, IfSome, OnErr, OnOk, IsNone, IsSomeAnd, IsTrue, find, [], ◌∷◌};
ghost use Rattle.std.specs.Option.{option_copied};
ghost use Rattle.range_map.specs.Entries.{commit_goal, entry_at, has_range, is_in_memory, is_new, with_entry, with_ticket_at};
ghost use Rattle.spill.specs.Kept.{extents_of};
ghost use Rattle.pending_writes.specs.Bytes.{pending_bytes};
ghost use Rattle.pending_writes.specs.Comparisons.{ComparesWrite};
ghost use Rattle.pending_writes.specs.Extents.{held_extents, live_without, place_extents};
ghost use Rattle.pending_writes.specs.Moves.{MovesLast};
ghost use Rattle.pending_writes.specs.Reads.{Loads};
ghost use Rattle.pending_writes.specs.Taken.{KeepsTaken, are_taken, freed_all, is_all_held};
ghost use Rattle.pending_writes.specs.Weights.{entries_weight, moved_weight, taken_weight};
ghost use Rattle.pending_writes.specs.Writes.{beyond_first, first_reached, is_sound_entry};

use crate::comparing::compare_range;
use crate::freeing::{free_all, free_place};
use crate::loading::load_extent;
use crate::steps::move_last;
use crate::{Comparison, Load, SpillMove};
use gw_model::Stable;
use range_map::{Entry, PendingMap, Place};
use spill::{SpillDevice, SpillFile};
use spill_region::Extent;
use std::alloc::Global;
use std::marker::Model;
use tickets::Ticket;

/// The pending writes of one open file, each in memory or in an extent of the spill file.
#[derive(Drop)]
pub struct PendingWrites<M: PendingMap, D: SpillDevice> {
    map: M,
    spill: SpillFile<D>,
}

impl<M: PendingMap, D: SpillDevice> Model for PendingWrites<M, D> {
    ghost use Rattle.pending_writes.specs.Writes.{AreSoundEntries, PendingState, pending_state};

    ghost Value = { PendingState };

    ghost view = { λ p. pending_state (M.entries p.map) p.spill };

    ghost invariant = { λ p. AreSoundEntries (pending_state (M.entries p.map) p.spill) };
}

impl<M: PendingMap, D: SpillDevice> PendingWrites<M, D> {
    /// No pending write, over a spill file. Takes no memory.
    pub fn new(alloc: Global, spill: SpillFile<D>) -> Self
        ensures { result ≡ record { entries = []; spill = spill } }
    {
        PendingWrites {
            map: M::new(alloc),
            spill,
        }
    }

    /// Puts an accepted write with its bytes where it belongs. For want of memory it hands the entry back and changes
    /// nothing.
    pub fn insert(&mut self, entry: Entry) -> Result<(), Entry>
        requires new { IsTrue (is_new entry.number self.old.entries) }
        requires here { is_in_memory entry ≡ true }
        requires sound { is_sound_entry entry ≡ true }
        ensures ok { OnOk result (self.new ≡ record self.old { entries = with_entry entry self.old.entries }) }
        ensures weight { OnOk result (entries_weight self.new.entries ≡ entry.weight + entries_weight self.old.entries) }
        ensures back { IfErr result (λ e. e ≡ entry) }
        ensures err { OnErr result (self.new ≡ self.old) }
    {
        self.map.insert(entry)
    }

    /// Takes the first entry off where it begins at or below a position. If it is on the device, its extent stays live.
    pub fn take_first(&mut self, reach: u64) -> Option<Entry>
        ensures first { result ≡ first_reached reach self.old.entries }
        ensures rest { self.new ≡ record self.old { entries = beyond_first reach self.old.entries } }
        ensures weight { entries_weight self.old.entries ≡ taken_weight result + entries_weight self.new.entries }
        ensures taken { IfSome result (λ e. are_taken (place_extents e.place) self.new ≡ true) }
        ensures sound { IfSome result (λ e. is_sound_entry e ≡ true) }
    {
        match self.map.first() {
            Some(entry) if entry.offset <= reach => self.map.pop_first(),
            _ => None,
        }
    }

    /// The first entry of this offset and count.
    pub fn same_range(&self, offset: u64, count: u32) -> Option<&Entry>
        ensures { option_copied result ≡ find (has_range offset count) self.now.entries }
    {
        self.map.same_range(offset, count)
    }

    /// Gives a ticket and its stability to the entry of this offset and number, which has none.
    pub fn give_ticket(&mut self, offset: u64, number: u32, stable: Stable, ticket: Ticket)
        requires { IsSomeAnd (entry_at offset number self.old.entries) (λ e. IsNone e.ticket) }
        ensures given { self.new ≡ record self.old { entries = with_ticket_at offset number stable ticket self.old.entries } }
        ensures bytes { pending_bytes self.new ≡ pending_bytes self.old }
        ensures weight { entries_weight self.new.entries ≡ entries_weight self.old.entries }
    {
        self.map.give_ticket(offset, number, stable, ticket);
    }

    /// Compares a write with the first pending one of its offset and count. Nothing changes but what the device counts,
    /// which is read where the pending bytes are there. Takes memory.
    pub fn compare(&mut self, offset: u64, bytes: &[u8]) -> Comparison
        requires few { length bytes.now ≤ 1048576 }
        ensures bytes { D.tells → pending_bytes self.new ≡ pending_bytes self.old }
        ensures comparison { ComparesWrite D.tells offset bytes.now result self.old self.new }
        ensures entries { self.new.entries ≡ self.old.entries }
    {
        compare_range(&self.map, &mut self.spill, offset, bytes)
    }

    /// The bytes of an entry that was taken off and is on the device come back into memory. Its extent is freed; also
    /// after a fault, since the bytes are lost then. Takes memory: where that is refused, the extent stays.
    pub fn load(&mut self, extent: Extent) -> Load
        requires taken { are_taken (extent ∷ []) self.old ≡ true }
        ensures bytes { D.tells → pending_bytes self.new ≡ pending_bytes self.old }
        ensures load { Loads D.tells extent result self.old.spill self.new.spill }
        ensures entries { self.new.entries ≡ self.old.entries }
    {
        load_extent(&mut self.spill, extent)
    }

    /// Lets the bytes of an entry go that was taken off: their extent is freed, if they are on the device.
    pub fn let_go(&mut self, place: Place)
        requires taken { are_taken (place_extents place) self.old ≡ true }
        ensures freed { self.new ≡ record self.old { spill = freed_all (place_extents place) self.old.spill } }
        ensures bytes { pending_bytes self.new ≡ pending_bytes self.old }
        ensures live { extents_of self.new.spill.kept ≡ live_without (place_extents place) (extents_of self.old.spill.kept) }
    {
        free_place(&mut self.spill, place);
    }

    /// Drops all entries, and frees their extents. Takes no memory. Whoever owes replies takes the entries off one by
    /// one and lets go of their places.
    pub fn give_up(&mut self)
        ensures freed { self.new ≡ record { entries = []; spill = freed_all (held_extents self.old.entries) self.old.spill } }
        ensures live { extents_of self.new.spill.kept ≡ live_without (held_extents self.old.entries) (extents_of self.old.spill.kept) }
        ensures none { IsTrue (is_all_held self.old) → self.new.spill.kept ≡ [] }
    {
        free_all(&mut self.map, &mut self.spill);
    }

    /// The bytes of the last entry in memory go to the device. Takes memory.
    pub fn spill_one(&mut self) -> SpillMove
        ensures step { MovesLast D.tells result self.old self.new }
        ensures taken { KeepsTaken self.old self.new }
        ensures weight { entries_weight self.old.entries ≡ moved_weight result + entries_weight self.new.entries }
        ensures bytes { D.tells → pending_bytes self.new ≡ pending_bytes self.old }
    {
        move_last(&mut self.map, &mut self.spill)
    }

    /// The first entry.
    pub fn first(&self) -> Option<&Entry>
        ensures { option_copied result ≡ slice_get self.now.entries 0 }
    {
        self.map.first()
    }

    /// How far a file must reach until a COMMIT up to `limit` is complete, as a map of pending writes says it.
    pub fn max_goal(&self, limit: u64) -> u64
        ensures { result ≡ commit_goal limit self.now.entries }
    {
        self.map.max_goal(limit)
    }

    /// How many entries there are.
    pub fn len(&self) -> usize
        ensures { result ≡ length self.now.entries }
    {
        self.map.len()
    }
}
