// Pending writes in a sorted vector.
ghost use Rattle.std.specs.Prelude.{◌≡◌, ◌≤◌, ◌++◌, ◌∷◌, true, length, take, drop, position, slice_get, IsSome};
ghost use Rattle.range_map.specs.Entries.{entry_at, is_at, is_before, is_in_order, with_entry};

use crate::{Entry, PendingMap, Place};
use gw_model::Stable;
use std::alloc::Global;
use std::mem::replace;
use tickets::Ticket;

/// Pending writes in a vector that is kept in order.
#[derive(Debug, Drop)]
pub struct SortedVecMap {
    items: Vec<Entry>,
    ghost ordered: { is_in_order items.items ≡ true },
}

// Whether an entry is before another: by offset, then by number.
fn is_before(one: &Entry, other: &Entry) -> bool
    ensures { result ≡ is_before one.now other.now }
{
    one.offset < other.offset || (one.offset == other.offset && one.number < other.number)
}

// How many of the entries are before one that is to be put among them.
fn place_for(entry: &Entry, items: &[Entry]) -> usize
    ensures within { result ≤ length items.now }
    ensures put { with_entry entry.now items.now ≡ take result items.now ++ entry.now ∷ drop result items.now }
{
    for (place, item) in items.iter().enumerate() {
        if !is_before(item, entry) {
            return place;
        }
    }
    items.len()
}

// The index of the entry with this offset and number, if there is one.
fn find_place(offset: u64, number: u32, items: &[Entry]) -> Option<usize>
    ensures { result ≡ position (is_at offset number) items.now }
{
    items
        .iter()
        .position(|entry| entry.offset == offset && entry.number == number)
}

// The same where there is one.
fn place_of(offset: u64, number: u32, items: &[Entry]) -> usize
    requires { IsSome (entry_at offset number items.now) }
    ensures { slice_get items.now result ≡ entry_at offset number items.now }
{
    match find_place(offset, number, items) {
        Some(place) => place,
        None => unreachable!(),
    }
}

impl PendingMap for SortedVecMap {
    ghost entries = { λ m. m.items.items };

    ghost ordered = { λ m. m.ordered };

    fn new(alloc: Global) -> Self {
        SortedVecMap {
            items: Vec::new(alloc),
        }
    }

    fn insert(&mut self, entry: Entry) -> Result<(), Entry> {
        let place = place_for(&entry, &self.items);
        match self.items.insert(place, entry) {
            Ok(()) => Ok(()),
            Err(failed) => Err(failed.value),
        }
    }

    fn first(&self) -> Option<&Entry> {
        self.items.first()
    }

    fn pop_first(&mut self) -> Option<Entry> {
        if self.items.is_empty() {
            return None;
        }
        Some(self.items.remove(0))
    }

    fn same_range(&self, offset: u64, count: u32) -> Option<&Entry> {
        self.items
            .iter()
            .find(|entry| entry.offset == offset && entry.count == count)
    }

    fn give_ticket(&mut self, offset: u64, number: u32, stable: Stable, ticket: Ticket) {
        let place = place_of(offset, number, &self.items);
        let entry = &mut self.items[place];
        entry.stable = stable;
        entry.ticket = Some(ticket);
    }

    fn last_in_memory(&self) -> Option<&Entry> {
        self.items
            .iter()
            .rev()
            .find(|entry| entry.place.is_in_memory())
    }

    fn set_place(&mut self, offset: u64, number: u32, place: Place) -> Place {
        let index = place_of(offset, number, &self.items);
        let entry = &mut self.items[index];
        replace(&mut entry.place, place)
    }

    fn max_goal(&self, limit: u64) -> u64 {
        let mut goal = 0;
        for entry in &self.items {
            if entry.offset < limit {
                let end = entry.offset.saturating_add(u64::from(entry.count));
                goal = goal.max(end.min(limit));
            }
        }
        goal
    }

    fn len(&self) -> usize {
        self.items.len()
    }
}
