use super::*;
use std::test::Fail;

fn written(count: u32, verifier: u64) -> PutAnswer {
    PutAnswer::Written { count, verifier }
}

fn write(xid: u32, offset: u64, count: u32) -> Next {
    Next::Write { xid, offset, count }
}

// Three bytes in chunks of two, backward. The COMMIT is answered under another verifier, so all is sent again.
#[test]
fn another_verifier_at_the_commit(rt: HostRuntime) -> Result<(), Fail> {
    let mut put = Put::new(rt.alloc(), 3, 2, 2, true)?;
    assert_eq!(rt; put.next_call(), write(1, 2, 1));
    assert_eq!(rt; put.next_call(), write(2, 0, 2));
    assert_eq!(rt; put.next_call(), Next::Wait);
    put.reply(1, written(1, 1));
    put.reply(2, written(2, 1));
    assert_eq!(rt; put.next_call(), Next::Commit { xid: 3 });
    put.reply(3, PutAnswer::Committed { verifier: 2 });
    assert_eq!(rt; put.next_call(), write(4, 2, 1));
    assert_eq!(rt; put.next_call(), write(5, 0, 2));
    put.reply(4, written(1, 2));
    put.reply(5, written(2, 2));
    assert_eq!(rt; put.next_call(), Next::Commit { xid: 6 });
    put.reply(6, PutAnswer::Committed { verifier: 2 });
    assert_eq!(rt; put.next_call(), Next::Done { verifier: 2 });
    Ok(())
}

#[test]
fn an_empty_source_is_committed_at_once(rt: HostRuntime) -> Result<(), Fail> {
    let mut put = Put::new(rt.alloc(), 0, 2, 2, false)?;
    assert_eq!(rt; put.next_call(), Next::Commit { xid: 1 });
    put.reply(1, PutAnswer::Committed { verifier: 7 });
    assert_eq!(rt; put.next_call(), Next::Done { verifier: 7 });
    Ok(())
}

// NFS3ERR_INVAL.
#[test]
fn a_status_refuses(rt: HostRuntime) -> Result<(), Fail> {
    let mut put = Put::new(rt.alloc(), 3, 2, 2, false)?;
    assert_eq!(rt; put.next_call(), write(1, 0, 2));
    put.reply(1, PutAnswer::Failed { status: 22 });
    assert_eq!(rt; put.next_call(), Next::Refused { status: 22 });
    Ok(())
}

// After the link broke the old xids aren't outstanding any more.
#[test]
fn a_broken_link_gives_new_xids(rt: HostRuntime) -> Result<(), Fail> {
    let mut put = Put::new(rt.alloc(), 3, 2, 2, false)?;
    assert_eq!(rt; put.next_call(), write(1, 0, 2));
    assert_eq!(rt; put.next_call(), write(2, 2, 1));
    put.broken();
    put.reply(1, written(2, 1));
    assert_eq!(rt; put.next_call(), write(3, 0, 2));
    assert_eq!(rt; put.next_call(), write(4, 2, 1));
    Ok(())
}

// NFS3ERR_JUKEBOX.
#[test]
fn too_many_repeats_are_given_up(rt: HostRuntime) -> Result<(), Fail> {
    let mut put = Put::new(rt.alloc(), 3, 2, 1, false)?;
    for _ in 0..1024 {
        if let Next::Write { xid, .. } = put.next_call() {
            put.reply(xid, PutAnswer::Failed { status: 10008 });
        }
    }
    assert_eq!(rt;
        put.next_call(),
        Next::Spent {
            beginnings: 0,
            retries: 1024
        }
    );
    Ok(())
}

#[test]
fn the_last_chunk_is_shorter(rt: HostRuntime) -> Result<(), Fail> {
    assert_eq!(rt; chunk_count(5, 2), 3);
    assert_eq!(rt; chunk_count(4, 2), 2);
    Ok(())
}
