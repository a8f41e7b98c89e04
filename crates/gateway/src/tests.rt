// Connections with their bytes in pieces; records and replies are word by word from RFC 5531 and RFC 1813.
ghost use Rattle.std.specs.Prelude.{ℕ, ◌≤◌, ◌<◌, ◌+◌, IfOk, OnOk};
ghost use Rattle.gw_config.specs.Ranges.{AreInRange};
ghost use Rattle.gw_config.specs.Seen.{settings_in};
ghost use Rattle.append_store.specs.State.{IsAway};
ghost use Rattle.file_calls.specs.Outside.{body_id};
ghost use Rattle.nfs_procs.specs.Contexts.{file_count, AreBodiesPlaced, AreBodiesSafe};

use super::*;
use append_store::{Cluster, MemCluster};
use file_calls::StepResult;
use gw_config::Config;
use gw_model::ObjectId;
use gw_outside::MemSink;
use std::alloc::{AllocError, Global};
use std::test::Fail;

const BODY: ObjectId = ObjectId::Body {
    file: 4,
    version: 1,
};

// A WRITE of `abcde` at 0 of file 4, as a record.
const WRITE: [u32; 27] = [
    0x8000_0068,
    1,
    0,
    2,
    100_003,
    3,
    7,
    0,
    0,
    0,
    0,
    32,
    0,
    4,
    0,
    1,
    0x21e0_f297,
    0x5a84_e78c,
    0xec58_787a,
    0xf28b_de14,
    0,
    0,
    5,
    0,
    5,
    0x6162_6364,
    0x6500_0000,
];

const WROTE: &str =
    "reply 1 8000003400000001000000010000000000000000000000000000000000000000000000000000000000000005000000000000000000000001\n";

const HISTORY: &str =
    "context 4 from 0\nwrite 1 0 5 put -\nended 4 end reach 5 stored 5 synced 0\n";

fn bytes_of(alloc: Global, words: &[u32]) -> Result<Vec<u8>, AllocError> {
    let mut bytes = Vec::new(alloc);
    for word in words {
        bytes.extend_from_slice(&word.to_be_bytes())?;
    }
    Ok(bytes)
}

// What an event writes.
fn text_of<C: Cluster>(
    gateway: &mut Gateway<C>,
    event: Event,
    cluster: &mut C,
) -> Result<String, Fail>
    requires placed { AreBodiesPlaced C.File.tells (file_count gateway.old.kept) (C.at cluster.old) gateway.old.kept.cells }
    requires few { gateway.old.kept.tracker.noted.event < 100 }
    ensures placed_after { OnOk result
        (AreBodiesPlaced C.File.tells (file_count gateway.new.kept) (C.at cluster.new) gateway.new.kept.cells) }
    ensures safe { AreBodiesSafe C.File.tells (C.at cluster.new) gateway.new.kept.cells }
    ensures event { gateway.new.kept.tracker.noted.event ≤ gateway.old.kept.tracker.noted.event + 1 }
{
    match gateway.step(event, cluster) {
        StepResult::Text(text) => Ok(text),
        StepResult::StoreFault => Err("store".into()),
        StepResult::NoMemory => Err("memory".into()),
    }
}

// The settings where nothing is set.
fn unset(alloc: Global) -> Result<Config, Fail>
    ensures in_range { IfOk result (λ c. AreInRange (settings_in c)) }
{
    match Config::from_toml(alloc, "") {
        Ok(config) => Ok(config),
        Err(_) => Err("settings".into()),
    }
}

// A gateway with file 4 in a store that has none of its bodies out.
fn with_file<C: Cluster>(alloc: Global, cluster: &mut C) -> Result<Gateway<C>, Fail>
    requires safe { C.File.tells → (k : ℕ) → IsAway (C.at cluster.old (body_id k)) → ⊥ }
    ensures placed { IfOk result (λ g. AreBodiesPlaced C.File.tells (file_count g.kept) (C.at cluster.new) g.kept.cells) }
    ensures event { IfOk result (λ g. g.kept.tracker.noted.event ≤ 1) }
{
    let mut gateway = Gateway::new(alloc, unset(alloc)?);
    text_of(&mut gateway, Event::MakeFile(Piece::new(b"data")), cluster)?;
    Ok(gateway)
}

// What pieces of one connection write, one after another, and then the file's turn.
fn texts_of<C: Cluster>(
    gateway: &mut Gateway<C>,
    pieces: [&[u8]; 2],
    cluster: &mut C,
) -> Result<[String; 3], Fail>
    requires placed { AreBodiesPlaced C.File.tells (file_count gateway.old.kept) (C.at cluster.old) gateway.old.kept.cells }
    requires few { gateway.old.kept.tracker.noted.event < 90 }
    ensures safe { OnOk result (AreBodiesSafe C.File.tells (C.at cluster.new) gateway.new.kept.cells) }
{
    let [first, second] = pieces;
    let bytes = Piece::new(first);
    let before = text_of(gateway, Event::Bytes { conn: 1, bytes }, cluster)?;
    let bytes = Piece::new(second);
    let held = text_of(gateway, Event::Bytes { conn: 1, bytes }, cluster)?;
    Ok([before, held, text_of(gateway, Event::Turn(4), cluster)?])
}

// Whether this is the history that is written at the end.
fn ends_with<C: Cluster>(alloc: Global, gateway: Gateway<C>, cluster: &mut C, text: &str) -> bool
    requires safe { AreBodiesSafe C.File.tells (C.at cluster.old) gateway.kept.cells }
{
    let mut sink = MemSink::new(alloc, Vec::new(alloc));
    gateway.stop(&mut sink, cluster).is_ok() && sink.bytes() == text.as_bytes()
}

#[test]
fn a_write_in_two_pieces_is_answered_at_its_turn(rt: HostRuntime) -> Result<(), Fail> {
    let alloc = rt.alloc();
    let mut cluster = MemCluster::new(alloc, Vec::new(alloc));
    let mut gateway = with_file(alloc, &mut cluster)?;
    let half = bytes_of(alloc, &WRITE[..12])?;
    let rest = bytes_of(alloc, &WRITE[12..])?;
    let texts = texts_of(&mut gateway, [&half, &rest], &mut cluster)?;
    assert_eq!(rt; texts[0].as_str(), "");
    assert_eq!(rt; texts[1].as_str(), "");
    assert_eq!(rt; texts[2].as_str(), WROTE);
    assert!(rt; ends_with(alloc, gateway, &mut cluster, HISTORY));
    assert_eq!(rt; cluster.content_of(BODY), Some(b"abcde".as_slice()));
    Ok(())
}

// Half of a record is gone with its connection, and the record that comes then is whole.
#[test]
fn a_hang_up_forgets_half_a_record(rt: HostRuntime) -> Result<(), Fail> {
    let alloc = rt.alloc();
    let mut cluster = MemCluster::new(alloc, Vec::new(alloc));
    let mut gateway = with_file(alloc, &mut cluster)?;
    let half = bytes_of(alloc, &WRITE[..12])?;
    let rest = bytes_of(alloc, &WRITE[12..])?;
    let bytes = Piece::new(&half);
    let before = text_of(&mut gateway, Event::Bytes { conn: 1, bytes }, &mut cluster)?;
    let hung_up = text_of(&mut gateway, Event::HangUp(1), &mut cluster)?;
    assert_eq!(rt; before.as_str(), "");
    assert_eq!(rt; hung_up.as_str(), "");
    let texts = texts_of(&mut gateway, [&half, &rest], &mut cluster)?;
    assert_eq!(rt; texts[2].as_str(), WROTE);
    Ok(())
}
