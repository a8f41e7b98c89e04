// What a map of pending writes does.
ghost use Rattle.std.specs.Prelude.{◌≡◌, ◌^◌, ◌<◌, true, List, [], length, drop, reverse, find, slice_get, OnOk, IfErr, IfSome, IsNone, IsSomeAnd, IsTrue};
ghost use Rattle.std.specs.Option.{option_copied};
ghost use Rattle.range_map.specs.declared.entry.Entry.{Entry};
ghost use Rattle.range_map.specs.Entries.{MayReplace, entry_at, commit_goal, has_range, is_in_memory, is_in_order, is_new, with_entry, with_place_at, with_ticket_at};

use crate::{Entry, Place};
use gw_model::Stable;
use std::alloc::Global;
use tickets::Ticket;

/// Pending writes by offset, then by number. A call costs no more than their number, and only `insert` takes memory.
pub trait PendingMap: Drop {
    /// The entries in this order.
    ghost entries: { Self → List Entry };

    /// Makes a map without entries.
    fn new(alloc: Global) -> Self
        ensures { entries result ≡ [] };

    /// Puts an entry where it belongs. For want of memory it hands the entry back and changes nothing.
    fn insert(&mut self, entry: Entry) -> Result<(), Entry>
        requires { IsTrue (is_new entry.number (entries self.old)) }
        ensures ok { OnOk result (entries self.new ≡ with_entry entry (entries self.old)) }
        ensures back { IfErr result (λ e. e ≡ entry) }
        ensures err { IfErr result (λ e. entries self.new ≡ entries self.old) };

    /// The first entry.
    fn first(&self) -> Option<&Entry>
        ensures { option_copied result ≡ slice_get (entries self.now) 0 };

    /// Takes the first entry off.
    fn pop_first(&mut self) -> Option<Entry>
        ensures first { result ≡ slice_get (entries self.old) 0 }
        ensures rest { entries self.new ≡ drop 1 (entries self.old) };

    /// The first entry with this offset and count.
    fn same_range(&self, offset: u64, count: u32) -> Option<&Entry>
        ensures { option_copied result ≡ find (has_range offset count) (entries self.now) };

    /// Gives a ticket and its stability to the entry of this offset and number, which has none.
    fn give_ticket(&mut self, offset: u64, number: u32, stable: Stable, ticket: Ticket)
        requires { IsSomeAnd (entry_at offset number (entries self.old)) (λ e. IsNone e.ticket) }
        ensures { entries self.new ≡ with_ticket_at offset number stable ticket (entries self.old) };

    /// The last entry whose bytes are in memory.
    fn last_in_memory(&self) -> Option<&Entry>
        ensures { option_copied result ≡ find is_in_memory (reverse (entries self.now)) };

    /// Puts the bytes of the entry of this offset and number elsewhere, and gives where they were. Spilled bytes don't
    /// come back to memory.
    fn set_place(&mut self, offset: u64, number: u32, place: Place) -> Place
        requires { IsSomeAnd (entry_at offset number (entries self.old)) (λ e. MayReplace e.place place) }
        ensures old { IfSome (entry_at offset number (entries self.old)) (λ e. result ≡ e.place) }
        ensures new { entries self.new ≡ with_place_at offset number place (entries self.old) };

    /// How far a file must reach until a COMMIT up to `limit` is complete: the greatest end, up to the limit, of the
    /// entries that begin below it. It is 0 where none does.
    fn max_goal(&self, limit: u64) -> u64
        ensures { result ≡ commit_goal limit (entries self.now) };

    /// How many entries there are.
    fn len(&self) -> usize
        ensures value { result ≡ length (entries self.now) }
        ensures small { result < 2 ^ 63 };

    /// The entries are in order.
    ghost ordered: { (m : Self) → is_in_order (entries m) ≡ true };
}
