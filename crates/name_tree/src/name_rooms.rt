// The ids of names. A name with no id is room for one.
ghost use Rattle.std.specs.Prelude.{◌≡◌, ℕ, List, if◌then◌else◌, OnOk, None};
ghost use Rattle.std.specs.Str.{bytes_eq};
ghost use Rattle.name_tree.specs.NameRooms.{HasName, id_at};

use std::alloc::AllocError;
use std::collections::BTreeMap;

// Makes room for the id of a name. Takes memory.
pub fn make_room(map: &mut BTreeMap<Vec<u8>, Option<u64>>, name: Vec<u8>) -> Result<(), AllocError>
    ensures same { (q : List ℕ) → id_at q map.new.entries ≡ id_at q map.old.entries }
    ensures room { OnOk result (HasName name.items map.new.entries) }
    ensures kept { (q : List ℕ) → HasName q map.old.entries → HasName q map.new.entries }
{
    match map.get(name.as_slice()) {
        Some(_) => Ok(()),
        None => {
            map.insert(name, None)?;
            Ok(())
        }
    }
}

// The id of a name.
pub fn find(map: &BTreeMap<Vec<u8>, Option<u64>>, name: &[u8]) -> Option<u64>
    ensures { result ≡ id_at name.now map.now.entries }
{
    match map.get(name) {
        Some(id) => *id,
        None => None,
    }
}

// Sets the id of a name, or takes it away, where there is room. Takes no memory.
pub fn set(map: &mut BTreeMap<Vec<u8>, Option<u64>>, name: &[u8], id: Option<u64>)
    requires { HasName name.now map.old.entries }
    ensures ids { (q : List ℕ) → id_at q map.new.entries ≡ (if bytes_eq name.now q then id else id_at q map.old.entries) }
    ensures kept { (q : List ℕ) → HasName q map.old.entries → HasName q map.new.entries }
{
    if let Some(place) = map.get_mut(name) {
        *place = id;
    }
}

// Takes the room of a name away. Takes no memory.
pub fn drop_room(map: &mut BTreeMap<Vec<u8>, Option<u64>>, name: &[u8])
    ensures { (q : List ℕ) → id_at q map.new.entries ≡ id_at q map.old.entries }
{
    if let Some(None) = map.get(name) {
        map.remove(name);
    }
}
