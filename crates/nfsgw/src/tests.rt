// Whole runs, over texts that were typed word by word from the RFCs.
use crate::command::run_command;
use crate::exit_codes::{exit_code, status_text};
use append_store::{MemCluster, Planned};
use gw_model::ObjectId;
use gw_outside::{MemSink, MemSource};
use std::alloc::{AllocError, Global};
use std::test::Fail;

const BODY: ObjectId = ObjectId::Body {
    file: 4,
    version: 1,
};

// A WRITE of `abcde` at 0 with the xid 1, and its turn.
const UPLOAD: &str =
    "file data\nbytes 1 80000068000000010000000000000002000186a3000000030000000700000000000000000000000000000000000000200000000000000004000000000000000121e0f2975a84e78cec58787af28bde1400000000000000000000000500000000000000056162636465000000\nturn 4\nend\nrubbish";

const WROTE: &[u8] =
    b"reply 1 8000003400000001000000010000000000000000000000000000000000000000000000000000000000000005000000000000000000000001\ncontext 4 from 0\nwrite 1 0 5 put -\nended 4 end reach 5 stored 5 synced 0\n";

// A WRITE and its turn, and two COMMITs of it, each with its turn and a sync.
const COMMITS: &str =
    "file data\nbytes 1 80000068000000010000000000000002000186a3000000030000000700000000000000000000000000000000000000200000000000000004000000000000000121e0f2975a84e78cec58787af28bde1400000000000000000000000500000000000000056162636465000000\nturn 4\nbytes 1 80000058000000020000000000000002000186a3000000030000001500000000000000000000000000000000000000200000000000000004000000000000000121e0f2975a84e78cec58787af28bde14000000000000000000000000\nturn 4\nsync 4\nbytes 1 80000058000000030000000000000002000186a3000000030000001500000000000000000000000000000000000000200000000000000004000000000000000121e0f2975a84e78cec58787af28bde14000000000000000000000000\nturn 4\nsync 4\nend\n";

// The sync of the first COMMIT failed.
const COMMITTED: &[u8] =
    b"reply 1 8000003400000001000000010000000000000000000000000000000000000000000000000000000000000005000000000000000000000001\nreply 1 80000024000000020000000100000000000000000000000000000000000000050000000000000000\nreply 1 8000002c0000000300000001000000000000000000000000000000000000000000000000000000000000000000000001\ncontext 4 from 0\nwrite 1 0 5 put -\nended 4 end reach 5 stored 5 synced 5\n";

// The fourth call of the body, which is its first sync, fails.
const PLANNED: Planned = Planned {
    object: Some(BODY),
    call: 4,
    kept: 0,
};

// A WRITE whose append fails, requests of the file that turned stale, a tick that closes it, and requests of it behind that.
const STALE: &str =
    "file data\nbytes 1 80000068000000010000000000000002000186a3000000030000000700000000000000000000000000000000000000200000000000000004000000000000000121e0f2975a84e78cec58787af28bde1400000000000000000000000500000000000000056162636465000000\nturn 4\npump 4\nbytes 1 80000058000000020000000000000002000186a3000000030000001500000000000000000000000000000000000000200000000000000004000000000000000121e0f2975a84e78cec58787af28bde14000000000000000000000000\nbytes 1 80000064000000030000000000000002000186a3000000030000000700000000000000000000000000000000000000200000000000000004000000000000000121e0f2975a84e78cec58787af28bde14000000000000000500000001000000000000000178000000\ntick 1\nbytes 1 80000058000000040000000000000002000186a3000000030000001500000000000000000000000000000000000000200000000000000004000000000000000121e0f2975a84e78cec58787af28bde14000000000000000000000000\nbytes 1 80000064000000050000000000000002000186a3000000030000000700000000000000000000000000000000000000200000000000000004000000000000000121e0f2975a84e78cec58787af28bde14000000000000000300000002000000000000000264650000\nturn 4\nbytes 1 80000058000000060000000000000002000186a3000000030000001500000000000000000000000000000000000000200000000000000004000000000000000121e0f2975a84e78cec58787af28bde14000000000000000000000000\nturn 4\nsync 4\nend\n";

const CLOSED: &[u8] =
    b"reply 1 80000024000000010000000100000000000000000000000000000000000000050000000000000000\nreply 1 80000024000000020000000100000000000000000000000000000000000000050000000000000000\nreply 1 80000024000000030000000100000000000000000000000000000000000000050000000000000000\ncontext 4 from 0\nwrite 1 0 5 lost -\nended 4 closed reach 5 stored 3 synced 3\nreply 1 80000024000000040000000100000000000000000000000000000000000000050000000000000000\nreply 1 8000003400000005000000010000000000000000000000000000000000000000000000000000000000000002000000000000000000000001\nreply 1 8000002c0000000600000001000000000000000000000000000000000000000000000000000000000000000000000001\ncontext 4 from 3\nwrite 1 3 2 put -\nended 4 end reach 5 stored 5 synced 5\n";

// The third call of the body, which is its first append, fails and keeps three bytes.
const CUT_APPEND: Planned = Planned {
    object: Some(BODY),
    call: 3,
    kept: 3,
};

// NFS3ERR_ROFS.
const REFUSED: &[u8] =
    b"reply 1 800000240000000100000001000000000000000000000000000000000000001e0000000000000000\n";

// What a run came to: its code, what is said of it, what it wrote, and what the body holds then.
#[derive(Drop)]
struct Outcome {
    code: u8,
    said: Vec<u8>,
    written: Vec<u8>,
    content: Vec<u8>,
}

fn words_of(alloc: Global, texts: &[&str]) -> Result<Vec<String>, AllocError> {
    let mut words = Vec::new(alloc);
    for text in texts {
        words.push(String::from_str(alloc, text)?)?;
    }
    Ok(words)
}

fn run(alloc: Global, texts: &[&str], transcript: &str) -> Result<Outcome, Fail> {
    run_over(alloc, texts, transcript, Vec::new(alloc))
}

// Over a store in which these calls fail.
fn run_over(
    alloc: Global,
    texts: &[&str],
    transcript: &str,
    failing: Vec<Planned>,
) -> Result<Outcome, Fail> {
    let words = words_of(alloc, texts)?;
    let mut source = MemSource::new(
        Vec::from_slice(alloc, transcript.as_bytes())?,
        Vec::new(alloc),
    );
    let mut sink = MemSink::new(alloc, Vec::new(alloc));
    let mut cluster = MemCluster::new(alloc, failing);
    let status = run_command(alloc, &words, &mut source, &mut sink, &mut cluster);
    let content = match cluster.content_of(BODY) {
        Some(bytes) => Vec::from_slice(alloc, bytes)?,
        None => Vec::new(alloc),
    };
    Ok(Outcome {
        code: exit_code(&status),
        said: status_text(alloc, &status).map_err(|_| "memory")?,
        written: Vec::from_slice(alloc, sink.bytes())?,
        content,
    })
}

#[test]
fn a_write_is_put(rt: HostRuntime) -> Result<(), Fail> {
    let outcome = run(rt.alloc(), &["replay"], UPLOAD)?;
    assert_eq!(rt; outcome.code, 0);
    assert_eq!(rt; outcome.written.as_slice(), WROTE);
    assert_eq!(rt; outcome.content.as_slice(), b"abcde".as_slice());
    Ok(())
}

#[test]
fn a_commit_waits_for_a_sync_that_is_done(rt: HostRuntime) -> Result<(), Fail> {
    let alloc = rt.alloc();
    let mut failing = Vec::new(alloc);
    failing.push(PLANNED)?;
    let outcome = run_over(alloc, &["replay"], COMMITS, failing)?;
    assert_eq!(rt; outcome.code, 0);
    assert_eq!(rt; outcome.written.as_slice(), COMMITTED);
    assert_eq!(rt; outcome.content.as_slice(), b"abcde".as_slice());
    Ok(())
}

#[test]
fn a_tick_closes_a_stale_file(rt: HostRuntime) -> Result<(), Fail> {
    let alloc = rt.alloc();
    let mut failing = Vec::new(alloc);
    failing.push(CUT_APPEND)?;
    let outcome = run_over(alloc, &["replay"], STALE, failing)?;
    assert_eq!(rt; outcome.code, 0);
    assert_eq!(rt; outcome.written.as_slice(), CLOSED);
    assert_eq!(rt; outcome.content.as_slice(), b"abcde".as_slice());
    Ok(())
}

#[test]
fn settings_hold(rt: HostRuntime) -> Result<(), Fail> {
    let outcome = run(
        rt.alloc(),
        &["replay", "contexts = 1", "read_only = true"],
        UPLOAD,
    )?;
    assert_eq!(rt; outcome.code, 0);
    assert_eq!(rt; outcome.written.as_slice(), REFUSED);
    assert!(rt; outcome.content.is_empty());
    Ok(())
}

#[test]
fn refusals_have_their_codes(rt: HostRuntime) -> Result<(), Fail> {
    let alloc = rt.alloc();
    let none = run(alloc, &["replay", "--help"], UPLOAD)?;
    assert_eq!(rt; none.code, 2);
    assert_eq!(rt; none.said.as_slice(), b"nfsgw: usage".as_slice());
    let zero = run(alloc, &["replay", "contexts = 0"], UPLOAD)?;
    assert_eq!(rt; zero.code, 8);
    assert_eq!(rt;
        zero.said.as_slice(),
        b"nfsgw: bad configuration".as_slice()
    );
    let bad = run(alloc, &["replay"], "file data\nturn 04\n")?;
    assert_eq!(rt; bad.code, 6);
    assert_eq!(rt;
        bad.said.as_slice(),
        b"nfsgw: line 2: not a transcript line".as_slice()
    );
    Ok(())
}
