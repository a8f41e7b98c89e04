// Pending writes in ordered trees.
ghost use Rattle.std.specs.Prelude.{◌≡◌, true, OnOk, OnErr};
ghost use Rattle.std.specs.BTreeMap.{values};
ghost use Rattle.range_map.specs.Entries.{is_in_order};
ghost use Rattle.range_map.specs.Keys.{memory_keys, moved_keys, with_keys, with_memory_key};

use crate::{Entry, EntryKey, PendingMap, Place};
use gw_model::Stable;
use std::alloc::{AllocError, Global};
use std::collections::{BTreeMap, BTreeSet};
use std::mem::replace;
use tickets::Ticket;

/// Pending writes in an ordered tree, with the keys of those in memory in another.
#[derive(Debug, Drop)]
pub struct TreeMap {
    entries: BTreeMap<EntryKey, Entry>,
    in_memory: BTreeSet<EntryKey>,
    ghost keyed: { entries.entries ≡ with_keys (values entries) },
    ghost ordered: { is_in_order (values entries) ≡ true },
    ghost listed: { in_memory.keys ≡ memory_keys (values entries) },
}

// Adds the key of an entry that is in memory. Takes memory.
fn add_key(keys: &mut BTreeSet<EntryKey>, entry: &Entry) -> Result<(), AllocError>
    ensures ok { OnOk result (keys.new.keys ≡ with_memory_key entry.now keys.old.keys) }
    ensures err { OnErr result (keys.new.keys ≡ keys.old.keys) }
{
    if entry.place.is_in_memory() {
        keys.insert(entry.key())?;
    }
    Ok(())
}

// Takes the key of an entry away whose bytes go to this place, unless they stay in memory.
fn move_key(keys: &mut BTreeSet<EntryKey>, key: EntryKey, place: &Place)
    ensures { keys.new.keys ≡ moved_keys key place.now keys.old.keys }
{
    if !place.is_in_memory() {
        keys.remove(&key);
    }
}

impl PendingMap for TreeMap {
    ghost entries = { λ m. values m.entries };

    ghost ordered = { λ m. m.ordered };

    fn new(alloc: Global) -> Self {
        TreeMap {
            entries: BTreeMap::new(alloc),
            in_memory: BTreeSet::new(alloc),
        }
    }

    fn insert(&mut self, entry: Entry) -> Result<(), Entry> {
        if add_key(&mut self.in_memory, &entry).is_err() {
            return Err(entry);
        }
        let key = entry.key();
        match self.entries.insert(key, entry) {
            Ok(_) => Ok(()),
            Err(refused) => {
                self.in_memory.remove(&key);
                Err(refused.value.1)
            }
        }
    }

    fn first(&self) -> Option<&Entry> {
        let (_, entry) = self.entries.first_key_value()?;
        Some(entry)
    }

    fn pop_first(&mut self) -> Option<Entry> {
        let (key, entry) = self.entries.pop_first()?;
        self.in_memory.remove(&key);
        Some(entry)
    }

    fn same_range(&self, offset: u64, count: u32) -> Option<&Entry> {
        let from = EntryKey { offset, number: 0 };
        for (_, entry) in self.entries.range(from..) {
            if entry.offset != offset {
                return None;
            }
            if entry.count == count {
                return Some(entry);
            }
        }
        None
    }

    fn give_ticket(&mut self, offset: u64, number: u32, stable: Stable, ticket: Ticket) {
        let key = EntryKey { offset, number };
        match self.entries.get_mut(&key) {
            Some(entry) => {
                entry.stable = stable;
                entry.ticket = Some(ticket);
            }
            None => unreachable!(),
        }
    }

    fn last_in_memory(&self) -> Option<&Entry> {
        self.entries.get(self.in_memory.last()?)
    }

    fn set_place(&mut self, offset: u64, number: u32, place: Place) -> Place {
        let key = EntryKey { offset, number };
        move_key(&mut self.in_memory, key, &place);
        match self.entries.get_mut(&key) {
            Some(entry) => replace(&mut entry.place, place),
            None => unreachable!(),
        }
    }

    fn max_goal(&self, limit: u64) -> u64 {
        let end = EntryKey {
            offset: limit,
            number: 0,
        };
        let mut goal = 0;
        for (_, entry) in self.entries.range(..end) {
            let end = entry.offset.saturating_add(u64::from(entry.count));
            goal = goal.max(end.min(limit));
        }
        goal
    }

    fn len(&self) -> usize {
        self.entries.len()
    }
}
