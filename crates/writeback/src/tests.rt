ghost use Rattle.std.specs.Prelude.{◌≡◌, ◌<◌, ◌≤◌, [], length, true};
ghost use Rattle.append_store.specs.State.{Missing};
ghost use Rattle.job_line.specs.Items.{put_size};
ghost use Rattle.job_line.specs.Views.{data_size};

use super::*;
use append_store::{AppendFile, Cluster, MemCluster, Planned};
use bytes::Bytes;
use gw_model::{ObjectId, Outcome, Stable, Trace};
use job_line::Job;
use std::test::Fail;
use tickets::{Body, ReplyDesk, Ticket};

const BODY: ObjectId = ObjectId::Body {
    file: 4,
    version: 1,
};

// Makes the body in a store where it isn't, and takes it: its calls 1 and 2.
fn taken_anew<C: Cluster>(cluster: &mut C) -> Result<C::File, Fail>
    requires { C.File.tells → C.at cluster.old BODY ≡ Missing }
{
    cluster.create(BODY).map_err(|_| "created")?;
    let file = cluster.take_file(BODY).map_err(|_| "taken")?;
    Ok(file)
}

// The call of this number on the body is to fail, and keeps 3 bytes if it is an append.
fn fails_at(call: u64) -> Planned {
    Planned {
        object: Some(BODY),
        call,
        kept: 3,
    }
}

fn put(text: &'static [u8], stable: Stable, ticket: Ticket) -> Job
    requires { length text.now ≤ 100 }
    ensures few { data_size result ≤ 100 }
    ensures fits { put_size result ≤ 100 }
{
    Job::Put {
        number: 1,
        bytes: Bytes::from_static(text),
        stable,
        count: text.len() as u32,
        ticket: Some(ticket),
    }
}

fn compare(offset: u64, text: &'static [u8], ticket: Ticket) -> Job
    requires { length text.now ≤ 100 }
    ensures few { data_size result ≤ 100 }
    ensures fits { put_size result ≤ 100 }
{
    Job::Compare {
        offset,
        bytes: Bytes::from_static(text),
        stable: Stable::Unstable,
        ticket,
    }
}

// What a turn answers, where there is room and no answer is left.
fn turned<F: AppendFile>(writer: &mut Writer<F>, job: Job, trace: &mut Trace) -> Option<Body>
    requires left { writer.old.left ≡ [] }
    requires few { data_size job ≤ 100 }
    requires fits { put_size job ≤ 100 }
    ensures left { writer.new.left ≡ [] }
{
    if !writer.room() || writer.stored() > 1000 || trace.reserve(1).is_err() {
        return None;
    }
    let answer = writer.turn(job, trace)?;
    Some(answer.body)
}

// What a sync comes to, where there is room for its note.
fn synced<F: AppendFile>(writer: &mut Writer<F>, trace: &mut Trace) -> Option<Synced> {
    trace.reserve(1).ok()?;
    Some(writer.sync(trace))
}

fn next_body<F: AppendFile>(writer: &mut Writer<F>) -> Option<Body> {
    let answer = writer.next_answer()?;
    Some(answer.body)
}

fn is_drained<F: AppendFile>(writer: &mut Writer<F>) -> bool
    ensures { result ≡ true → writer.new.left ≡ [] }
{
    writer.next_answer().is_none()
}

fn wrote(count: u32, committed: u32) -> Option<Body> {
    Some(Body::Write {
        status: 0,
        count,
        committed,
    })
}

fn refused(status: u32) -> Option<Body> {
    Some(Body::Write {
        status,
        count: 0,
        committed: 0,
    })
}

// A write that asks for it is answered after the sync.
#[test]
fn a_durable_write_waits_for_the_sync(rt: HostRuntime) -> Result<(), Fail> {
    let alloc = rt.alloc();
    let mut desk = ReplyDesk::new(alloc);
    let mut trace = Trace::new(alloc);
    let mut cluster = MemCluster::new(alloc, Vec::new(alloc));
    let file = taken_anew(&mut cluster)?;
    let mut writer = Writer::new(alloc, file).map_err(|_| "made")?;
    let job = put(b"fgh", Stable::FileSync, desk.issue(1, 1)?);
    assert_eq!(rt; turned(&mut writer, job, &mut trace), None);
    assert_eq!(rt; synced(&mut writer, &mut trace), Some(Synced::Done));
    assert_eq!(rt; next_body(&mut writer), wrote(3, 2));
    assert!(rt; is_drained(&mut writer));
    assert_eq!(rt;
        (writer.stored(), writer.synced(), writer.waiting()),
        (3, 3, 0)
    );
    Ok(())
}

// The append is call 3, and keeps the whole piece.
#[test]
fn an_append_that_kept_all_has_failed(rt: HostRuntime) -> Result<(), Fail> {
    let alloc = rt.alloc();
    let mut desk = ReplyDesk::new(alloc);
    let mut trace = Trace::new(alloc);
    let mut cluster = MemCluster::new(alloc, vec![in alloc; fails_at(3)]?);
    let file = taken_anew(&mut cluster)?;
    let mut writer = Writer::new(alloc, file).map_err(|_| "made")?;
    let job = put(b"abc", Stable::Unstable, desk.issue(1, 1)?);
    assert_eq!(rt; turned(&mut writer, job, &mut trace), refused(5));
    let failed = Failed { stored: 3, kept: 3 };
    assert_eq!(rt; (writer.failed(), writer.stored()), (Some(failed), 3));
    assert_eq!(rt; trace.outcomes(), [Outcome::Failed { kept: 3 }].as_slice());
    Ok(())
}

#[test]
fn bytes_are_compared_and_read(rt: HostRuntime) -> Result<(), Fail> {
    let alloc = rt.alloc();
    let mut desk = ReplyDesk::new(alloc);
    let mut trace = Trace::new(alloc);
    let mut cluster = MemCluster::new(alloc, Vec::new(alloc));
    let file = taken_anew(&mut cluster)?;
    let mut writer = Writer::new(alloc, file).map_err(|_| "made")?;
    let job = put(b"abcdefgh", Stable::Unstable, desk.issue(1, 1)?);
    assert_eq!(rt; turned(&mut writer, job, &mut trace), wrote(8, 0));
    let job = compare(2, b"cXe", desk.issue(1, 2)?);
    assert_eq!(rt; turned(&mut writer, job, &mut trace), refused(22));
    let job = Job::Fetch {
        offset: 2,
        count: 3,
        ticket: desk.issue(1, 3)?,
    };
    let part = Body::Read {
        status: 0,
        eof: false,
        bytes: vec![in alloc; 99, 100, 101]?,
    };
    assert_eq!(rt; turned(&mut writer, job, &mut trace), Some(part));
    Ok(())
}

#[test]
fn a_file_is_finished(rt: HostRuntime) -> Result<(), Fail> {
    let alloc = rt.alloc();
    let mut trace = Trace::new(alloc);
    let mut cluster = MemCluster::new(alloc, Vec::new(alloc));
    let file = taken_anew(&mut cluster)?;
    let writer = Writer::new(alloc, file).map_err(|_| "made")?;
    trace.reserve(1)?;
    let file = writer.finish(&mut trace).map_err(|_| "finished")?;
    assert_eq!(rt; (file.len(), file.faults()), (0, 0));
    let writer = Writer::new(alloc, file).map_err(|_| "made")?;
    assert_eq!(rt; writer.into_file().len(), 0);
    Ok(())
}
