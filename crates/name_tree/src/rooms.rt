// A map in which room for an entry can be made beforehand: a key with no value is room.
ghost use Rattle.std.specs.Prelude.{◌≡◌, ℕ, ◌==◌, if◌then◌else◌, OnOk, Some, None, is_none};
ghost use Rattle.std.specs.Option.{option_copied};
ghost use Rattle.std.specs.Ordering.{nat_cmp};
ghost use Rattle.std.specs.BTreeMap.{insert_entry, is_at};
ghost use Rattle.std.specs.List.Sorted.{IsStrictlySortedBy};
ghost use Rattle.std.specs.Map.{keys_of, remove_entry};
ghost use Rattle.name_tree.specs.Rooms.{HasKey, filled_entries, first_above, first_entry, lent_entry, slot_at, value_at};

use std::alloc::AllocError;
use std::collections::BTreeMap;
use std::ops::Bound;

#[tactic(auto, using(crate::proofs::RoomEntries::filled_room))]
// Makes room for an entry. Takes memory.
pub fn make_room<V: Drop>(map: &mut BTreeMap<u64, Option<V>>, key: u64) -> Result<(), AllocError>
    ensures same { filled_entries map.new.entries ≡ filled_entries map.old.entries }
    ensures room { OnOk result (HasKey key map.new.entries) }
    ensures kept { (q : ℕ) → HasKey q map.old.entries → HasKey q map.new.entries }
{
    if !map.contains_key(&key) {
        map.insert(key, None)?;
    }
    Ok(())
}

#[tactic(auto, using(crate::proofs::RoomEntries::filled_lookup))]
// What the map has at a key.
pub fn find<V>(map: &BTreeMap<u64, Option<V>>, key: u64) -> Option<&V>
    ensures value { option_copied result ≡ value_at key map.now.entries }
{
    // A call on the map tells that its keys are in order.
    let _ = map.len();
    match map.get(&key) {
        Some(Some(value)) => Some(value),
        Some(None) => None,
        None => None,
    }
}

#[tactic(auto, using(crate::proofs::RoomEntries::filled_fill, crate::proofs::RoomEntries::each_key))]
// Puts an entry into the room that was made for it. Takes no memory.
pub fn fill<V: Drop>(map: &mut BTreeMap<u64, Option<V>>, key: u64, value: V)
    requires { HasKey key map.old.entries }
    ensures entries { filled_entries map.new.entries ≡ insert_entry nat_cmp (filled_entries map.old.entries) key value }
    ensures each { (q : ℕ) → value_at q map.new.entries ≡ (if key == q then Some value else value_at q map.old.entries) }
    ensures at_each { (q : ℕ) → slot_at q map.new.entries ≡ (if key == q then Some value else slot_at q map.old.entries) }
    ensures kept { (q : ℕ) → HasKey q map.old.entries → HasKey q map.new.entries }
{
    let _ = map.insert(key, Some(value));
}

#[tactic(auto, using(crate::proofs::RoomEntries::filled_remove, crate::proofs::RoomEntries::filled_lookup))]
// Takes an entry out, with its room. Takes no memory.
pub fn empty<V>(map: &mut BTreeMap<u64, Option<V>>, key: u64) -> Option<V>
    ensures value { result ≡ value_at key map.old.entries }
    ensures entries { filled_entries map.new.entries ≡ remove_entry (is_at (nat_cmp key)) (filled_entries map.old.entries) }
    ensures each { (q : ℕ) → value_at q map.new.entries ≡ (if key == q then None else value_at q map.old.entries) }
    ensures at_each { (q : ℕ) → slot_at q map.new.entries ≡ (if key == q then None else slot_at q map.old.entries) }
{
    // A call on the map tells that its keys are in order.
    let _ = map.len();
    match map.remove(&key) {
        Some(value) => value,
        None => None,
    }
}

// The entry with the least key above this one.
pub fn next_above<V>(map: &BTreeMap<u64, Option<V>>, key: u64) -> Option<(u64, &V)>
    ensures { lent_entry result ≡ first_above key (filled_entries map.now.entries) }
{
    let mut entries = map.range((Bound::Excluded(key), Bound::Unbounded));
    while let Some((found, value)) = entries.next() {
        if let Some(value) = value {
            return Some((*found, value));
        }
    }
    None
}

// Takes the room of a key away, where it has no entry. Takes no memory.
pub fn drop_room<V: Drop>(map: &mut BTreeMap<u64, Option<V>>, key: u64)
    ensures { filled_entries map.new.entries ≡ filled_entries map.old.entries }
{
    // A call on the map tells that its keys are in order.
    let _ = map.len();
    if let Some(None) = map.get(&key) {
        map.remove(&key);
    }
}

#[tactic(auto, using(crate::proofs::RoomEntries::filled_vacated, crate::proofs::RoomEntries::filled_sorted))]
// Takes an entry out and keeps its room, where there is room. Takes no memory.
pub fn vacate<V: Drop>(map: &mut BTreeMap<u64, Option<V>>, key: u64)
    requires { HasKey key map.old.entries }
    ensures entries { filled_entries map.new.entries ≡ remove_entry (is_at (nat_cmp key)) (filled_entries map.old.entries) }
    ensures each { (q : ℕ) → value_at q map.new.entries ≡ (if key == q then None else value_at q map.old.entries) }
    ensures ordered { IsStrictlySortedBy nat_cmp (keys_of (filled_entries map.new.entries)) }
    ensures kept { (q : ℕ) → HasKey q map.old.entries → HasKey q map.new.entries }
{
    let _ = map.insert(key, None);
}

// Whether there is no entry.
pub fn is_empty<V>(map: &BTreeMap<u64, Option<V>>) -> bool
    ensures { result ≡ is_none (first_entry (filled_entries map.now.entries)) }
{
    let mut entries = map.iter();
    while let Some((_, value)) = entries.next() {
        if value.is_some() {
            return false;
        }
    }
    true
}
