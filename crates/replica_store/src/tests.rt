ghost use Rattle.std.specs.Prelude.{◌≡◌, ◌≢◌, [], true, IfOk};
ghost use Rattle.gw_model.specs.declared.object.ObjectId.{ObjectId};
ghost use Rattle.append_store.specs.State.{IsAway, IsThere, Missing};
ghost use Rattle.replica_store.specs.Seats.{seat_view, told_in};

use super::*;
use append_store::{AppendFile, Cluster, MemCluster, Planned, StoreFault};
use gw_model::ObjectId;
use std::alloc::Global;
use std::test::Fail;

const BODY: ObjectId = ObjectId::Body {
    file: 4,
    version: 1,
};

const LOG: ObjectId = ObjectId::Log { generation: 1 };

// The call of this number on the body is to fail, and keeps 2 bytes if it is an append. Calls 1 and
// 2 are the create and the taking.
fn fails_at(call: u64) -> Planned {
    Planned {
        object: Some(BODY),
        call,
        kept: 2,
    }
}

// Makes the body in a store where it isn't, and takes it.
fn taken_anew<C: Cluster>(cluster: &mut C) -> Result<C::File, Fail>
    requires { C.File.tells → C.at cluster.old BODY ≡ Missing }
    ensures { IfOk result (λ file. C.File.tells → C.File.content file ≡ []) }
{
    cluster.create(BODY).map_err(|_| "created")?;
    let file = cluster.take_file(BODY).map_err(|_| "taken")?;
    Ok(file)
}

// A file over three of no bytes, of which two make a quorum.
fn over_three<F: AppendFile>(alloc: Global, a: F, b: F, c: F) -> Result<ReplicaFile<F>, Fail>
    requires a { F.tells → F.content a ≡ [] }
    requires b { F.tells → F.content b ≡ [] }
    requires c { F.tells → F.content c ≡ [] }
{
    let mut parts = Vec::new(alloc);
    parts.push(Part::given(a)).map_err(|_| "first")?;
    parts.push(Part::given(b)).map_err(|_| "second")?;
    parts.push(Part::given(c)).map_err(|_| "third")?;
    Ok(ReplicaFile::over(parts, 0, 2, 0))
}

// Gives a member its file back.
fn give_back<C: Cluster>(cluster: &mut C, part: Option<Part<C::File>>) {
    if let Some(part) = part {
        if let Some(file) = part.into_file() {
            cluster.give_file(BODY, file);
        }
    }
}

// Whether a member has these bytes of the body.
fn has_body(seat: Option<Seat<MemCluster>>, bytes: &[u8]) -> bool {
    match seat {
        Some(seat) => seat.into_cluster().content_of(BODY) == Some(bytes),
        None => false,
    }
}

// A store over three that have nothing; two of them make a quorum.
fn over_empty<C: Cluster>(alloc: Global, a: C, b: C, c: C) -> Result<Replica<C>, Fail>
    requires a { (q : ObjectId) → C.at a q ≡ Missing }
    requires b { (q : ObjectId) → C.at b q ≡ Missing }
    requires c { (q : ObjectId) → C.at c q ≡ Missing }
    ensures { IfOk result (λ r. (q : ObjectId) → told_in (seat_view C.at C.losses C.count) r q ≡ Missing) }
{
    let mut seats = Vec::new(alloc);
    seats.push(Seat::new(a)).map_err(|_| "first")?;
    seats.push(Seat::new(b)).map_err(|_| "second")?;
    seats.push(Seat::new(c)).map_err(|_| "third")?;
    Ok(Replica::new(alloc, seats, 2))
}

// Makes an object in a store where none is out, with these bytes, durable. None is out then.
fn stores<C: Cluster>(cluster: &mut C, object: ObjectId, bytes: &[u8]) -> bool
    requires missing { C.File.tells → C.at cluster.old object ≡ Missing }
    requires inside { C.File.tells → (q : ObjectId) → IsAway (C.at cluster.old q) → ⊥ }
    ensures there { C.File.tells → result ≡ true → IsThere (C.at cluster.new object) }
    ensures inside { C.File.tells → (q : ObjectId) → IsAway (C.at cluster.new q) → ⊥ }
    ensures others { C.File.tells → (q : ObjectId) → q ≢ object → C.at cluster.new q ≡ C.at cluster.old q }
{
    if cluster.create(object).is_err() {
        return false;
    }
    let Ok(mut file) = cluster.take_file(object) else {
        return false;
    };
    let written = file.append(bytes).is_ok() && file.hsync().is_ok();
    cluster.give_file(object, file);
    written
}

// Reopens a store after a crash: whether the body has "abcde" then, and nothing else.
fn reopens_with_five<C: Cluster>(cluster: &mut C) -> bool
    requires there { C.File.tells → IsThere (C.at cluster.old BODY) }
    requires inside { C.File.tells → (q : ObjectId) → IsAway (C.at cluster.old q) → ⊥ }
    ensures there { C.File.tells → result ≡ true → IsThere (C.at cluster.new BODY) }
    ensures inside { C.File.tells → result ≡ true → (q : ObjectId) → IsAway (C.at cluster.new q) → ⊥ }
{
    if cluster.reopen(0).is_err() {
        return false;
    }
    let mut out = [0; 6];
    cluster.read_closed(BODY, 0, &mut out) == Ok(5) && out.starts_with(b"abcde")
}

// Takes the body and gives it back: whether its hsync fails. None is out then.
fn fails_to_sync<C: Cluster>(cluster: &mut C) -> bool
    requires there { C.File.tells → IsThere (C.at cluster.old BODY) }
    requires inside { C.File.tells → (q : ObjectId) → IsAway (C.at cluster.old q) → ⊥ }
    ensures { C.File.tells → (q : ObjectId) → IsAway (C.at cluster.new q) → ⊥ }
{
    let Ok(mut file) = cluster.take_file(BODY) else {
        return false;
    };
    let failed = file.hsync() == Err(StoreFault);
    cluster.give_file(BODY, file);
    failed
}

// A store over three of which none has an object out; two of them make a quorum.
fn started<C: Cluster>(alloc: Global, a: C, b: C, c: C) -> Result<Replica<C>, Fail>
    requires a { C.File.tells → (q : ObjectId) → IsAway (C.at a q) → ⊥ }
    requires b { C.File.tells → (q : ObjectId) → IsAway (C.at b q) → ⊥ }
    requires c { C.File.tells → (q : ObjectId) → IsAway (C.at c q) → ⊥ }
{
    let mut seats = Vec::new(alloc);
    seats.push(Seat::new(a)).map_err(|_| "first")?;
    seats.push(Seat::new(b)).map_err(|_| "second")?;
    seats.push(Seat::new(c)).map_err(|_| "third")?;
    let store = Replica::start(alloc, seats, 2).map_err(|_| "started")?;
    Ok(store)
}

// Whether a member has these bytes of the body and of the log.
fn has_both(seat: Option<Seat<MemCluster>>) -> bool {
    match seat {
        Some(seat) => {
            let member = seat.into_cluster();
            member.content_of(BODY) == Some(b"abcde".as_slice())
                && member.content_of(LOG) == Some(b"xy".as_slice())
        }
        None => false,
    }
}

// The first has the whole body, the second a front of it, and the third nothing of it; the second
// lacks the log.
#[test]
fn members_are_made_equal_at_the_start(rt: HostRuntime) -> Result<(), Fail> {
    let alloc = rt.alloc();
    let mut first = MemCluster::new(alloc, Vec::new(alloc));
    let mut second = MemCluster::new(alloc, Vec::new(alloc));
    let mut third = MemCluster::new(alloc, Vec::new(alloc));
    assert!(rt; stores(&mut first, BODY, b"abcde") && stores(&mut first, LOG, b"x"));
    assert!(rt; stores(&mut second, BODY, b"ab"));
    assert!(rt; stores(&mut third, LOG, b"xy"));
    let store = started(alloc, first, second, third)?;
    let mut seats = store.into_seats().into_iter();
    assert!(rt; has_both(seats.next()));
    assert!(rt; has_both(seats.next()));
    assert!(rt; has_both(seats.next()));
    Ok(())
}

// The second keeps a part of its append, and is dropped. Calls 5 and 6 on the third are the taking and
// the hsync of the reopening, and call 7 is the next taking; the hsync behind it fails.
#[test]
fn goes_on_with_two_of_three_but_not_with_one(rt: HostRuntime) -> Result<(), Fail> {
    let alloc = rt.alloc();
    let first = MemCluster::new(alloc, Vec::new(alloc));
    let second = MemCluster::new(alloc, vec![in alloc; fails_at(3)]?);
    let third = MemCluster::new(alloc, vec![in alloc; fails_at(8)]?);
    let mut store = over_empty(alloc, first, second, third)?;
    assert!(rt; stores(&mut store, BODY, b"abcde"));
    assert_eq!(rt; store.live(), 2);
    assert!(rt; reopens_with_five(&mut store));
    assert!(rt; fails_to_sync(&mut store));
    assert_eq!(rt; store.live(), 1);
    assert_eq!(rt; store.reopen(0), Err(StoreFault));
    let mut seats = store.into_seats().into_iter();
    assert!(rt; has_body(seats.next(), b"abcde"));
    assert!(rt; has_body(seats.next(), b"ab"));
    assert!(rt; has_body(seats.next(), b"abcde"));
    Ok(())
}

#[test]
fn drops_a_member_whose_append_fails(rt: HostRuntime) -> Result<(), Fail> {
    let alloc = rt.alloc();
    let mut first = MemCluster::new(alloc, Vec::new(alloc));
    let mut second = MemCluster::new(alloc, vec![in alloc; fails_at(3)]?);
    let mut third = MemCluster::new(alloc, vec![in alloc; fails_at(5)]?);
    let (a, b, c) = (
        taken_anew(&mut first)?,
        taken_anew(&mut second)?,
        taken_anew(&mut third)?,
    );
    let mut file = over_three(alloc, a, b, c)?;
    assert_eq!(rt; file.append(b"abcde"), Ok(()));
    assert_eq!(rt; file.hsync(), Ok(()));
    assert_eq!(rt; file.live(), 2);
    assert_eq!(rt; file.len(), 5);
    assert_eq!(rt; file.faults(), 1);

    // The third file fails its second hsync.
    assert_eq!(rt; file.hsync(), Err(StoreFault));
    assert_eq!(rt; file.live(), 1);
    assert_eq!(rt; file.faults(), 3);
    let mut parts = file.into_parts().into_iter();
    give_back(&mut first, parts.next());
    give_back(&mut second, parts.next());
    give_back(&mut third, parts.next());
    assert_eq!(rt; first.content_of(BODY), Some(b"abcde".as_slice()));
    assert_eq!(rt; second.content_of(BODY), Some(b"ab".as_slice()));
    assert_eq!(rt; third.content_of(BODY), Some(b"abcde".as_slice()));
    Ok(())
}
