// The worked rows, and each call of a start and of an add failed once.
ghost use Rattle.std.specs.Prelude.{◌≡◌, true};
ghost use Rattle.gw_model.specs.declared.object.ObjectId.{ObjectId};
ghost use Rattle.append_store.specs.State.{IsAway, Missing};

use super::*;
use append_store::{AppendFile, Cluster, MemCluster, Planned};
use gw_model::{FileId, ObjectId, Trace};
use name_tree::{Edit, Name};
use std::alloc::Global;
use std::test::Fail;

const FIRST: ObjectId = ObjectId::Log { generation: 1 };

const SECOND: ObjectId = ObjectId::Log { generation: 2 };

const BODY: ObjectId = ObjectId::Body {
    file: 4,
    version: 1,
};

// The text of an edit that makes the file `n` with the number 4 in the root, of mode 0644.
const MAKE_N: &[u8] =
    b"\x00\x00\x00\x30\x00\x00\x00\x01\x00\x00\x00\x00\x00\x00\x00\x03\x00\x00\x00\x00\x00\x00\x00\x04\x00\x00\x00\x01\x00\x00\x01\xa4\x00\x00\x00\x00\x00\x00\x00\x00\x00\x00\x00\x01n\x00\x00\x00\x00\x00\x00\x00";

// The call of this number on an object is to fail; an append keeps 10 bytes.
fn fails_at(object: ObjectId, call: u64) -> Planned {
    Planned {
        object: Some(object),
        call,
        kept: 10,
    }
}

fn make_n(alloc: Global) -> Result<Edit, Fail> {
    Ok(Edit::Make {
        parent: 3,
        id: 4,
        kind: 1,
        mode: 0o644,
        uid: 0,
        gid: 0,
        name: Name::of(Vec::from_slice(alloc, b"n")?),
        path: Name::of(Vec::new(alloc)),
        atime: None,
        mtime: None,
        verifier: None,
    })
}

// Puts bytes into a file, all of them durable.
fn stores<F: AppendFile>(file: &mut F, bytes: &[u8]) -> bool
    ensures mark { F.tells → F.mark file.new ≡ F.mark file.old }
{
    file.append(b"NFSEDIT1").is_ok() && file.append(bytes).is_ok() && file.hsync().is_ok()
}

// Makes the log of generation 1 in a store where nothing is, with these bytes behind its header. These are five calls.
fn logs<C: Cluster>(cluster: &mut C, bytes: &[u8]) -> bool
    requires { C.File.tells → (q : ObjectId) → C.at cluster.old q ≡ Missing }
    ensures { result ≡ true → C.File.tells → (q : ObjectId) → IsAway (C.at cluster.new q) → ⊥ }
{
    if cluster.create(FIRST).is_err() {
        return false;
    }
    let Ok(mut file) = cluster.take_file(FIRST) else {
        return false;
    };
    let stored = stores(&mut file, bytes);
    cluster.give_file(FIRST, file);
    stored
}

// Makes the body of file 4.
fn makes_body<C: Cluster>(cluster: &mut C) -> bool
    requires { C.File.tells → (q : ObjectId) → IsAway (C.at cluster.old q) → ⊥ }
    ensures { C.File.tells → (q : ObjectId) → IsAway (C.at cluster.new q) → ⊥ }
{
    cluster.create(BODY).is_ok()
}

// Starts, and gives the log back at once: its generation.
fn generation_of<C: Cluster>(alloc: Global, cluster: &mut C) -> Result<u64, StartFault>
    requires { C.File.tells → (q : ObjectId) → IsAway (C.at cluster.old q) → ⊥ }
    ensures { C.File.tells → (q : ObjectId) → IsAway (C.at cluster.new q) → ⊥ }
{
    let mut trace = Trace::new(alloc);
    match Log::start(alloc, cluster, &mut trace) {
        Ok((log, _)) => {
            let generation = log.generation();
            cluster.give_file(ObjectId::Log { generation }, log.into_file());
            Ok(generation)
        }
        Err(fault) => Err(fault),
    }
}

// Starts, adds a text twice, and gives the log back: what failed of both, 1,000 where neither did.
fn added_after<C: Cluster>(alloc: Global, cluster: &mut C, text: &[u8]) -> Result<u64, StartFault>
    requires { C.File.tells → (q : ObjectId) → IsAway (C.at cluster.old q) → ⊥ }
    ensures { C.File.tells → (q : ObjectId) → IsAway (C.at cluster.new q) → ⊥ }
{
    let mut trace = Trace::new(alloc);
    match Log::start(alloc, cluster, &mut trace) {
        Ok((mut log, _)) => {
            let generation = log.generation();
            if trace.reserve(4).is_err() {
                cluster.give_file(ObjectId::Log { generation }, log.into_file());
                return Err(StartFault::Memory);
            }
            let first = log.add(text, &mut trace);
            let second = log.add(text, &mut trace);
            let after = match (first, second) {
                (Err(first), Err(second)) => first.after.min(9) + second.after.min(9),
                (Ok(()), Err(second)) => 100 + second.after.min(9),
                (Err(_), Ok(())) => 500,
                (Ok(()), Ok(())) => 1_000,
            };
            cluster.give_file(ObjectId::Log { generation }, log.into_file());
            Ok(after)
        }
        Err(fault) => Err(fault),
    }
}

#[test]
fn writes_an_edit(rt: HostRuntime) -> Result<(), Fail> {
    let alloc = rt.alloc();
    let edit = make_n(alloc)?;
    let text = edit_text(alloc, &edit).map_err(|_| "text")?;
    assert_eq!(rt; text.as_slice(), MAKE_N);
    Ok(())
}

// How many edits a log has.
fn count_of(alloc: Global, bytes: &[u8]) -> Result<usize, EditFault> {
    match edits_of(alloc, bytes) {
        Ok(edits) => Ok(edits.len()),
        Err(fault) => Err(fault),
    }
}

#[test]
fn reads_edits(rt: HostRuntime) -> Result<(), Fail> {
    let alloc = rt.alloc();
    assert_eq!(rt; count_of(alloc, b"NFSE"), Ok(0));
    assert_eq!(rt;
        count_of(alloc, b"NFSEDIT2"),
        Err(EditFault::Damaged { place: 0 })
    );
    assert_eq!(rt;
        count_of(
            alloc,
            b"NFSEDIT1\x00\x00\x00\x30\x00\x00\x00\x01\x00\x00\x00\x00\x00\x00\x00\x03\x00\x00\x00\x00\x00\x00\x00\x04\x00\x00\x00\x01\x00\x00\x01\xa4\x00\x00\x00\x00\x00\x00\x00\x00\x00\x00\x00\x01n\x00\x00\x00\x00\x00\x00\x00\x00\x00"
        ),
        Ok(1)
    );
    let damaged =
        b"NFSEDIT1\x00\x00\x00\x30\x00\x00\x00\x01\x00\x00\x00\x00\x00\x00\x00\x03\x00\x00\x00\x00\x00\x00\x00\x04\x00\x00\x00\x01\x00\x00\x01\xa4\x00\x00\x00\x00\x00\x00\x00\x00\x00\x00\x00\x01n\x00\x00\x00\x00\x00\x00\x00\x00\x00\x00\x01";
    assert_eq!(rt;
        count_of(alloc, damaged),
        Err(EditFault::Damaged { place: 60 })
    );
    Ok(())
}

// damaged-log-at-eight, and missing-body: the same file with its body is no obstacle.
#[test]
fn refuses_damage_and_a_missing_body(rt: HostRuntime) -> Result<(), Fail> {
    let alloc = rt.alloc();
    let mut damaged = MemCluster::new(alloc, Vec::new(alloc));
    assert!(rt; logs(&mut damaged, b"\x00\x00\x00\x01"));
    let refusal = StartFault::Damaged {
        generation: 1,
        place: 8,
    };
    assert_eq!(rt; generation_of(alloc, &mut damaged), Err(refusal));
    let mut cluster = MemCluster::new(alloc, Vec::new(alloc));
    assert!(rt; logs(&mut cluster, MAKE_N));
    assert_eq!(rt;
        generation_of(alloc, &mut cluster),
        Err(StartFault::MissingBody { file: 4 })
    );
    assert!(rt; makes_body(&mut cluster));
    assert_eq!(rt; generation_of(alloc, &mut cluster), Ok(2));
    Ok(())
}

// Over a log of no edits one call fails: the generation that the next start has, 0 where the first start didn't fail so.
fn next_generation(alloc: Global, failing: Planned) -> Result<u64, Fail> {
    let mut cluster = MemCluster::new(alloc, vec![in alloc; failing]?);
    if !logs(&mut cluster, b"") {
        return Ok(0);
    }
    if generation_of(alloc, &mut cluster) != Err(StartFault::Store) {
        return Ok(0);
    }
    match generation_of(alloc, &mut cluster) {
        Ok(generation) => Ok(generation),
        Err(_) => Ok(0),
    }
}

// The list, the read of the first log, and the making of the second: from its taking on it is there when the next start lists.
#[test]
fn fails_at_each_call_of_a_start(rt: HostRuntime) -> Result<(), Fail> {
    let alloc = rt.alloc();
    let list = Planned {
        object: None,
        call: 1,
        kept: 0,
    };
    assert_eq!(rt; next_generation(alloc, list)?, 2);
    assert_eq!(rt; next_generation(alloc, fails_at(FIRST, 6))?, 2);
    assert_eq!(rt; next_generation(alloc, fails_at(SECOND, 1))?, 2);
    assert_eq!(rt; next_generation(alloc, fails_at(SECOND, 2))?, 3);
    assert_eq!(rt; next_generation(alloc, fails_at(SECOND, 3))?, 3);
    assert_eq!(rt; next_generation(alloc, fails_at(SECOND, 4))?, 3);
    Ok(())
}

// What two adds came to where one call fails, and then whether the next start has the file: 10 times the first, and 1 where it
// misses the file's body.
fn added_and_started(alloc: Global, call: u64) -> Result<u64, Fail> {
    let mut cluster = MemCluster::new(alloc, vec![in alloc; fails_at(FIRST, call)]?);
    let Ok(after) = added_after(alloc, &mut cluster, MAKE_N) else {
        return Ok(99);
    };
    match generation_of(alloc, &mut cluster) {
        Err(StartFault::MissingBody { file: 4 }) => Ok(after.min(1_000) * 10 + 1),
        Ok(2) => Ok(after.min(1_000) * 10),
        _ => Ok(99),
    }
}

// Calls 5 and 6 are the append and the sync of the first add, 7 and 8 those of the second; there is no call 20.
#[test]
fn fails_at_each_call_of_an_add(rt: HostRuntime) -> Result<(), Fail> {
    let alloc = rt.alloc();
    assert_eq!(rt; added_and_started(alloc, 5)?, 0);
    assert_eq!(rt; added_and_started(alloc, 6)?, 1);
    assert_eq!(rt; added_and_started(alloc, 7)?, 1_011);
    assert_eq!(rt; added_and_started(alloc, 8)?, 1_011);
    assert_eq!(rt; added_and_started(alloc, 20)?, 10_001);
    Ok(())
}
