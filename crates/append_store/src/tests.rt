ghost use Rattle.std.specs.Prelude.{◌≡◌, true};
ghost use Rattle.gw_model.specs.declared.object.ObjectId.{ObjectId};
ghost use Rattle.append_store.specs.State.{IsAway, IsThere, Missing};

use super::*;
use gw_model::{KeptObject, ObjectId};
use std::test::Fail;

const BODY: ObjectId = ObjectId::Body {
    file: 4,
    version: 1,
};

// Makes the body in a store where nothing is.
fn makes_body<C: Cluster>(cluster: &mut C) -> bool
    requires { C.File.tells → (q : ObjectId) → C.at cluster.old q ≡ Missing }
    ensures there { result ≡ true → C.File.tells → IsThere (C.at cluster.new BODY) }
    ensures none_out { result ≡ true → C.File.tells → (q : ObjectId) → IsAway (C.at cluster.new q) → ⊥ }
{
    cluster.create(BODY).is_ok()
}

// Makes the body in a store where it isn't, and takes it.
fn taken_anew<C: Cluster>(cluster: &mut C) -> Result<C::File, Fail>
    requires { C.File.tells → C.at cluster.old BODY ≡ Missing }
{
    cluster.create(BODY).map_err(|_| "created")?;
    let file = cluster.take_file(BODY).map_err(|_| "taken")?;
    Ok(file)
}

#[test]
fn keeps_what_is_appended(rt: HostRuntime) -> Result<(), Fail> {
    let alloc = rt.alloc();
    let mut cluster = MemCluster::new(alloc, Vec::new(alloc));
    assert_eq!(rt; cluster.content_of(BODY), None);
    assert_eq!(rt; cluster.create(BODY), Ok(()));
    let mut lent = &mut cluster;
    let mut file = lent.take_file(BODY).map_err(|_| "taken")?;
    assert_eq!(rt; file.object(), BODY);
    assert_eq!(rt; file.append(b"abc"), Ok(()));
    assert_eq!(rt; file.append(b"de"), Ok(()));
    assert_eq!(rt; file.len(), 5);
    lent.give_file(BODY, file);
    assert_eq!(rt; cluster.content_of(BODY), Some(b"abcde".as_slice()));
    assert_eq!(rt; cluster.faults(), 0);
    Ok(())
}

#[test]
fn reads_and_syncs(rt: HostRuntime) -> Result<(), Fail> {
    let alloc = rt.alloc();
    let mut cluster = MemCluster::new(alloc, Vec::new(alloc));
    let mut file = taken_anew(&mut cluster)?;
    assert_eq!(rt; file.append(b"abcde"), Ok(()));
    assert_eq!(rt; file.hsync(), Ok(()));
    let mut out = *b"----";
    assert_eq!(rt; file.read_at(4, &mut out), Ok(1));
    assert_eq!(rt; out.as_slice(), b"e---".as_slice());
    Ok(())
}

#[test]
fn lists_what_is_there(rt: HostRuntime) -> Result<(), Fail> {
    let alloc = rt.alloc();
    let mut cluster = MemCluster::new(alloc, Vec::new(alloc));
    assert!(rt; makes_body(&mut cluster));
    let all = cluster.list().map_err(|_| "listed")?;
    let body = KeptObject {
        object: BODY,
        length: 0,
    };
    assert_eq!(rt; all.as_slice(), [body].as_slice());
    Ok(())
}

// Puts "abcde" into a file; the first 3 bytes of it are durable.
fn writes_five<F: AppendFile>(file: &mut F) -> bool
    ensures mark { F.tells → F.mark file.new ≡ F.mark file.old }
{
    file.append(b"abc").is_ok() && file.hsync().is_ok() && file.append(b"de").is_ok()
}

// Makes the body in a store where nothing is, with "abcde" in it.
fn stores_five<C: Cluster>(cluster: &mut C) -> bool
    requires { C.File.tells → (q : ObjectId) → C.at cluster.old q ≡ Missing }
    ensures there { result ≡ true → C.File.tells → IsThere (C.at cluster.new BODY) }
    ensures none_out { result ≡ true → C.File.tells → (q : ObjectId) → IsAway (C.at cluster.new q) → ⊥ }
{
    if !makes_body(cluster) {
        return false;
    }
    let Ok(mut file) = cluster.take_file(BODY) else {
        return false;
    };
    let written = writes_five(&mut file);
    cluster.give_file(BODY, file);
    written
}

// Of "abcde" the first 3 bytes are durable, and the crash keeps one more.
#[test]
fn reopens_with_what_is_durable(rt: HostRuntime) -> Result<(), Fail> {
    let alloc = rt.alloc();
    let mut cluster = MemCluster::new(alloc, Vec::new(alloc));
    assert!(rt; stores_five(&mut cluster));
    assert_eq!(rt; cluster.reopen(1), Ok(()));
    let mut out = *b"------";
    assert_eq!(rt; cluster.read_closed(BODY, 1, &mut out), Ok(3));
    assert_eq!(rt; out.as_slice(), b"bcd---".as_slice());
    Ok(())
}

#[test]
fn deletes_what_is_there(rt: HostRuntime) -> Result<(), Fail> {
    let alloc = rt.alloc();
    let mut cluster = MemCluster::new(alloc, Vec::new(alloc));
    assert!(rt; makes_body(&mut cluster));
    assert_eq!(rt; cluster.delete(BODY), Ok(()));
    assert_eq!(rt; cluster.content_of(BODY), None);
    Ok(())
}
