// The names of one directory. A name is found by its bytes and by the id of what it names.
ghost use Rattle.std.specs.Prelude.{◌≡◌, ℕ, List, [], OnOk, None, is_none, if◌then◌else◌};
ghost use Rattle.std.specs.Ordering.{nat_cmp};
ghost use Rattle.std.specs.BTreeMap.{insert_entry};
ghost use Rattle.name_tree.specs.Rooms.{HasKey, filled_entries, first_above, first_entry, lent_entry, value_at};
ghost use Rattle.name_tree.specs.NameRooms.{HasName, id_at};
ghost use Rattle.name_tree.specs.Directory.{IsIndexed, child_in, is_that_name, names_without};

use crate::{name_rooms, rooms};
use std::alloc::{AllocError, Global};
use std::collections::BTreeMap;
use std::marker::Model;

/// A name.
#[derive(Drop)]
pub struct Name {
    bytes: Vec<u8>,
}

impl Model for Name {
    ghost use Rattle.std.specs.Prelude.{List, ℕ};

    ghost Value = { List ℕ };

    ghost view = { λ n. n.bytes.items };
}

impl Name {
    pub fn of(bytes: Vec<u8>) -> Name
        ensures { result ≡ bytes.items }
    {
        Name { bytes }
    }

    pub fn bytes(&self) -> &[u8]
        ensures { result.now ≡ self.now }
    {
        &self.bytes
    }
}

/// The names of a directory. An id with no name, and a name with no id, is room.
#[derive(Drop)]
pub struct Directory {
    by_id: BTreeMap<u64, Option<Name>>,
    by_name: BTreeMap<Vec<u8>, Option<u64>>,
    ghost indexed: { IsIndexed by_id.entries by_name.entries },
}

// Takes away what stands under the name of an id.
fn forget(
    by_id: &BTreeMap<u64, Option<Name>>,
    by_name: &mut BTreeMap<Vec<u8>, Option<u64>>,
    id: u64,
)
    requires { IsIndexed by_id.now.entries by_name.old.entries }
    ensures ids { (q : List ℕ) → id_at q by_name.new.entries ≡
        (if is_that_name q (value_at id by_id.now.entries) then None else id_at q by_name.old.entries) }
    ensures kept { (q : List ℕ) → HasName q by_name.old.entries → HasName q by_name.new.entries }
{
    if let Some(name) = rooms::find(by_id, id) {
        name_rooms::set(by_name, name.bytes(), None);
    }
}

impl Directory {
    pub fn new(alloc: Global) -> Directory
        ensures { filled_entries result.by_id.entries ≡ [] }
    {
        Directory {
            by_id: BTreeMap::new(alloc),
            by_name: BTreeMap::new(alloc),
        }
    }

    /// What a name names.
    pub fn child(&self, name: &[u8]) -> Option<u64>
        ensures { result ≡ child_in name.now (filled_entries self.now.by_id.entries) }
    {
        // A call on the map tells that its keys are in order.
        let _ = self.by_id.len();
        name_rooms::find(&self.by_name, name)
    }

    /// Whether there is no name.
    pub fn is_empty(&self) -> bool
        ensures { result ≡ is_none (first_entry (filled_entries self.now.by_id.entries)) }
    {
        rooms::is_empty(&self.by_id)
    }

    /// The name with the least id above this one.
    pub fn after(&self, id: u64) -> Option<(u64, &Name)>
        ensures { lent_entry result ≡ first_above id (filled_entries self.now.by_id.entries) }
    {
        rooms::next_above(&self.by_id, id)
    }

    /// Makes room for a name. Takes memory.
    pub fn make_room(&mut self, id: u64, name: Vec<u8>) -> Result<(), AllocError>
        ensures same { filled_entries self.new.by_id.entries ≡ filled_entries self.old.by_id.entries }
        ensures id { OnOk result (HasKey id self.new.by_id.entries) }
        ensures name { OnOk result (HasName name.items self.new.by_name.entries) }
    {
        rooms::make_room(&mut self.by_id, id)?;
        name_rooms::make_room(&mut self.by_name, name)?;
        Ok(())
    }

    /// Puts a name into the room that was made for it, in place of another one of this id. Takes no
    /// memory.
    pub fn add(&mut self, id: u64, name: Name)
        requires id { HasKey id self.old.by_id.entries }
        requires name { HasName name self.old.by_name.entries }
        requires free { child_in name (filled_entries self.old.by_id.entries) ≡ None }
        ensures names { filled_entries self.new.by_id.entries ≡ insert_entry nat_cmp (filled_entries self.old.by_id.entries) id name }
    {
        // A call on the map tells that its keys are in order.
        let _ = self.by_id.len();
        forget(&self.by_id, &mut self.by_name, id);
        name_rooms::set(&mut self.by_name, name.bytes(), Some(id));
        rooms::fill(&mut self.by_id, id, name);
    }

    /// Takes a name out and keeps its room. Takes no memory.
    pub fn take(&mut self, name: &[u8]) -> Option<u64>
        ensures id { result ≡ child_in name.now (filled_entries self.old.by_id.entries) }
        ensures names { filled_entries self.new.by_id.entries ≡
            names_without (child_in name.now (filled_entries self.old.by_id.entries)) (filled_entries self.old.by_id.entries) }
        ensures gone { child_in name.now (filled_entries self.new.by_id.entries) ≡ None }
        ensures absent { (q : List ℕ) →
            child_in q (filled_entries self.old.by_id.entries) ≡ None → child_in q (filled_entries self.new.by_id.entries) ≡ None }
        ensures ids_kept { (q : ℕ) → HasKey q self.old.by_id.entries → HasKey q self.new.by_id.entries }
        ensures names_kept { (q : List ℕ) → HasName q self.old.by_name.entries → HasName q self.new.by_name.entries }
    {
        // A call on the map tells that its keys are in order.
        let _ = self.by_id.len();
        let id = self.child(name)?;
        name_rooms::set(&mut self.by_name, name, None);
        rooms::vacate(&mut self.by_id, id);
        Some(id)
    }

    /// Takes the room of an id and of a name away, where they have none. Takes no memory.
    pub fn drop_room(&mut self, id: u64, name: &[u8])
        ensures { filled_entries self.new.by_id.entries ≡ filled_entries self.old.by_id.entries }
    {
        rooms::drop_room(&mut self.by_id, id);
        name_rooms::drop_room(&mut self.by_name, name);
    }
}
