ghost use Rattle.std.specs.Prelude.{◌≡◌, ◌≤◌, ◌<◌, ◌+◌, [], length, IfOk, OnOk, None};
ghost use Rattle.append_store.specs.State.{Lent, Missing};
ghost use Rattle.gw_config.specs.Ranges.{AreInRange};
ghost use Rattle.gw_config.specs.Seen.{settings_in};
ghost use Rattle.file_calls.specs.Outside.{IsBodyHome};
ghost use Rattle.file_calls.specs.PartSteps.{IsCellReady};

use super::*;
use append_store::{AppendFile, Cluster, MemCluster};
use bytes::Bytes;
use file_cell::FileCell;
use gw_config::Config;
use gw_model::{ObjectId, Stable};
use gw_outside::MemSink;
use range_map::TreeMap;
use std::alloc::Global;
use std::test::Fail;

const BODY: ObjectId = ObjectId::Body {
    file: 4,
    version: 1,
};

// Replies to a WRITE of xid 1 and to a READ of xid 2, word by word from the RFCs.
const WROTE: &str =
    "reply 1 8000003400000001000000010000000000000000000000000000000000000000000000000000000000000005000000000000000000000001\n";

const GAVE: &str =
    "reply 1 8000003400000002000000010000000000000000000000000000000000000000000000000000000500000001000000056162636465000000\n";

// The settings where nothing is set.
fn unset(alloc: Global) -> Result<Config, Fail>
    ensures in_range { IfOk result (λ c. AreInRange (settings_in c)) }
{
    match Config::from_toml(alloc, "") {
        Ok(config) => Ok(config),
        Err(_) => Err("settings".into()),
    }
}

// Creates the body in a store where it isn't.
fn created<C: Cluster>(tracker: &mut RequestTracker, cluster: &mut C) -> Result<(), Fail>
    requires missing { C.File.tells → C.at cluster.old BODY ≡ Missing }
    ensures home { OnOk result (IsBodyHome C.File.tells (C.at cluster.new BODY) None) }
    ensures event { tracker.new.noted.event ≡ tracker.old.noted.event }
    ensures settings { tracker.new.settings ≡ tracker.old.settings }
{
    match create_body(4, tracker, cluster) {
        StepResult::Text(_) => Ok(()),
        _ => Err("created".into()),
    }
}

// The context that a WRITE at 0 opens, which waits for its turn.
fn opened<C: Cluster>(
    tracker: &mut RequestTracker,
    cluster: &mut C,
    bytes: &'static [u8],
) -> Result<FileCell<C::File, TreeMap>, Fail>
    requires few { length bytes.now ≤ 100 }
    requires home { IsBodyHome C.File.tells (C.at cluster.old BODY) None }
    ensures ready { IfOk result (λ c. IsCellReady tracker.new.settings.limits 4 c) }
    ensures out { IfOk result (λ c. C.File.tells → C.at cluster.new BODY ≡ Lent c.file.mark) }
    ensures event { tracker.new.noted.event ≡ tracker.old.noted.event }
    ensures settings { tracker.new.settings ≡ tracker.old.settings }
{
    let call = WriteCall {
        xid: 1,
        offset: 0,
        stable: Stable::Unstable,
        content: Bytes::from_static(bytes),
    };
    let FirstWrite { cell, text } = first_write(1, 4, call, None, tracker, cluster);
    if text.map_err(|_| "memory")?.len() > 0 {
        return Err("a reply before the turn".into());
    }
    match cell {
        Some(cell) => Ok(cell),
        None => Err("closed".into()),
    }
}

fn turned<F: AppendFile>(
    cell: &mut FileCell<F, TreeMap>,
    tracker: &mut RequestTracker,
) -> Result<String, Fail>
    requires ready { IsCellReady tracker.old.settings.limits 4 cell.old }
    requires few { tracker.old.noted.event < 100 }
    ensures ready { IsCellReady tracker.new.settings.limits 4 cell.new }
    ensures same { cell.new.file.mark ≡ cell.old.file.mark }
    ensures event { tracker.new.noted.event ≡ tracker.old.noted.event + 1 }
    ensures settings { tracker.new.settings ≡ tracker.old.settings }
{
    Ok(turn_cell(cell, tracker).map_err(|_| "memory")?)
}

fn pumped<F: AppendFile>(
    cell: &mut FileCell<F, TreeMap>,
    tracker: &mut RequestTracker,
) -> Result<String, Fail>
    requires ready { IsCellReady tracker.old.settings.limits 4 cell.old }
    requires few { tracker.old.noted.event < 100 }
    ensures ready { IsCellReady tracker.new.settings.limits 4 cell.new }
    ensures same { cell.new.file.mark ≡ cell.old.file.mark }
{
    Ok(pump_cell(cell, tracker).map_err(|_| "memory")?)
}

fn read<F: AppendFile>(
    cell: &mut FileCell<F, TreeMap>,
    tracker: &mut RequestTracker,
) -> Result<String, Fail>
    requires ready { IsCellReady tracker.old.settings.limits 4 cell.old }
    ensures ready { IsCellReady tracker.new.settings.limits 4 cell.new }
    ensures same { cell.new.file.mark ≡ cell.old.file.mark }
    ensures event { tracker.new.noted.event ≡ tracker.old.noted.event }
    ensures settings { tracker.new.settings ≡ tracker.old.settings }
{
    let call = ReadCall {
        xid: 2,
        offset: 0,
        count: 100,
    };
    Ok(read_cell(1, call, cell, tracker).map_err(|_| "memory")?)
}

// What a turn, a READ, a turn and a pump write.
fn four_texts<F: AppendFile>(
    cell: &mut FileCell<F, TreeMap>,
    tracker: &mut RequestTracker,
) -> Result<[String; 4], Fail>
    requires ready { IsCellReady tracker.old.settings.limits 4 cell.old }
    requires few { tracker.old.noted.event < 90 }
    ensures ready { IsCellReady tracker.new.settings.limits 4 cell.new }
    ensures same { cell.new.file.mark ≡ cell.old.file.mark }
{
    let wrote = turned(cell, tracker)?;
    let held = read(cell, tracker)?;
    let gave = turned(cell, tracker)?;
    Ok([wrote, held, gave, pumped(cell, tracker)?])
}

// Whether this is the history of the context, which is closed.
fn ends_with<C: Cluster>(
    alloc: Global,
    cell: FileCell<C::File, TreeMap>,
    cluster: &mut C,
    text: &str,
) -> bool
    requires none_left { cell.left ≡ [] }
    requires id { cell.id.0 ≡ 4 }
    requires out { C.File.tells → C.at cluster.old BODY ≡ Lent cell.file.mark }
{
    let mut sink = MemSink::new(alloc, Vec::new(alloc));
    close_cell(4, cell, Ok(()), &mut sink, cluster).is_ok() && sink.bytes() == text.as_bytes()
}

#[test]
fn a_first_write_is_put_and_read(rt: HostRuntime) -> Result<(), Fail> {
    let alloc = rt.alloc();
    let mut tracker = RequestTracker::new(alloc, unset(alloc)?);
    let mut cluster = MemCluster::new(alloc, Vec::new(alloc));
    created(&mut tracker, &mut cluster)?;
    let mut cell = opened(&mut tracker, &mut cluster, b"abcde")?;
    let texts = four_texts(&mut cell, &mut tracker)?;
    assert_eq!(rt; texts[0].as_str(), WROTE);
    assert_eq!(rt; texts[1].as_str(), "");
    assert_eq!(rt; texts[2].as_str(), GAVE);
    assert_eq!(rt; texts[3].as_str(), "");
    assert!(rt;
        ends_with(
            alloc,
            cell,
            &mut cluster,
            "context 4 from 0\nwrite 1 0 5 put -\nended 4 end reach 5 stored 5 synced 0\n"
        )
    );
    assert_eq!(rt; cluster.content_of(BODY), Some(b"abcde".as_slice()));
    Ok(())
}
