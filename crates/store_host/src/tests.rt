use super::*;
use append_store::{AppendFile, Cluster};
use gw_model::{KeptObject, ObjectId};
use spill::{SpillDevice, SpillHost};
use std::fs;
use std::test::Fail;

const BODY: ObjectId = ObjectId::Body {
    file: 4,
    version: 1,
};

// Whether a thread may take it over, which is proved.
fn may_be_sent<T: Send>(_value: &T) -> bool {
    true
}

// Makes a folder with nothing in it but a file of another name.
fn makes_folder(rt: &HostRuntime) -> bool {
    let _ = fs::remove_dir_all(rt, "kept");
    fs::create_dir(rt, "kept").is_ok() && fs::write(rt, "kept/notes", "body-4-1").is_ok()
}

// Opens the store, makes the body and puts "abcde" into it.
fn stores_five(rt: HostRuntime) -> bool {
    let Ok(mut store) = HostStore::open(rt, "kept") else {
        return false;
    };
    if store.create(BODY).is_err() {
        return false;
    }
    let Ok(mut file) = store.take_file(BODY) else {
        return false;
    };
    let written = file.append(b"abcde").is_ok() && file.hsync().is_ok();
    store.give_file(BODY, file);
    written
}

// Opens the store again, and reads "bcde" of the body.
fn reads_four(store: &mut HostStore<HostRuntime>) -> bool {
    let mut out = *b"------";
    store.read_closed(BODY, 1, &mut out) == Ok(4) && out.as_slice() == b"bcde--".as_slice()
}

// Whether the store lists just these objects.
fn lists(store: &mut HostStore<HostRuntime>, objects: &[KeptObject]) -> bool {
    match store.list() {
        Ok(all) => all.as_slice() == objects,
        Err(_) => false,
    }
}

#[test]
fn keeps_what_was_synced(rt: HostRuntime) -> Result<(), Fail> {
    assert!(rt; makes_folder(&rt));
    assert!(rt; stores_five(rt));
    let mut store = HostStore::open(rt, "kept").map_err(|_| "opened")?;
    let body = KeptObject {
        object: BODY,
        length: 5,
    };
    assert!(rt; may_be_sent(&store));
    assert!(rt; lists(&mut store, &[body]));
    assert!(rt; reads_four(&mut store));
    assert_eq!(rt; store.delete(BODY), Ok(()));
    assert!(rt; lists(&mut store, &[]));
    assert_eq!(rt; store.faults(), 0);
    assert!(rt; fs::read_to_string(&rt, "kept/notes").is_ok());
    assert!(rt; fs::remove_dir_all(&rt, "kept").is_ok());
    Ok(())
}

// Writes "abc" at a place of a device, and reads "bc" of it.
fn spills(device: &mut FolderDevice) -> bool {
    let mut out = *b"--";
    device.write_at(8, b"abc").is_ok()
        && device.read_at(9, &mut out).is_ok()
        && out.as_slice() == b"bc".as_slice()
}

#[test]
fn spills_to_a_file(rt: HostRuntime) -> Result<(), Fail> {
    let _ = fs::create_dir(&rt, "spilled");
    let mut host = SpillFolder::open(rt, "spilled").map_err(|_| "opened")?;
    let mut device = host.take_device(4).map_err(|_| "taken")?;
    assert!(rt; may_be_sent(&host) && may_be_sent(&device));
    assert!(rt; spills(&mut device));
    host.give_device(4, device);
    assert_eq!(rt; host.faults(), 0);
    assert!(rt; fs::remove_dir(&rt, "spilled").is_ok());
    Ok(())
}
