// Connections and files: what each event asks for is done operation by operation.
ghost use Rattle.std.specs.Prelude.{◌≡◌, ◌≤◌, ◌<◌, ◌+◌, ◌-◌, ◌++◌, ◌^◌, ℕ, IfOk, OnErr, drop, length, string_bytes};
ghost use Rattle.gw_outside.specs.Causes.{Rose};
ghost use Rattle.gw_config.specs.Ranges.{AreInRange};
ghost use Rattle.gw_config.specs.Seen.{settings_in};
ghost use Rattle.append_store.specs.State.{IsAway, bytes_of};
ghost use Rattle.file_calls.specs.Outside.{IsText, body_id, store_counts, without_outcomes};
ghost use Rattle.nfs_procs.specs.Contexts.{bodies_at, file_count, store_state, world_scene_of, AreBodiesPlaced, AreBodiesSafe};
ghost use Rattle.nfs_procs.specs.Contexts.{Cuts, LossesStay, ObjectsStay, SameLosses, StaysThere};
ghost use Rattle.nfs_procs.specs.Closing.{WritesHistories, GivesAllBack};
ghost use Rattle.gateway.specs.Links.{Links, AreLinks, hearing_at, hearing_of};
ghost use Rattle.gateway.specs.Steps.{idle_gateway, gateway_scene, IsPieceServed, IsReceived, IsEventStep};

use crate::event::Event;
use crate::link::{Link, forget_link, give_link, link_after, take_link};
use append_store::Cluster;
use file_calls::{StepResult, step_result};
use gw_config::Config;
use gw_outside::{Sink, WriteFault};
use nfs_procs::{Served, World};
use rpc_record::{Stream, StreamStep};
use std::alloc::{AllocError, Global};
use std::collections::BTreeMap;
use std::marker::Model;

/// The connections, and the files with the requests that wait for an answer.
#[derive(Drop)]
pub struct Gateway<C: Cluster> {
    alloc: Global,
    links: BTreeMap<u32, Link>,
    world: World<C>,
}

impl<C: Cluster> Model for Gateway<C> {
    ghost use Rattle.gateway.specs.Steps.{GatewayState};

    ghost Value = { GatewayState };

    ghost view = { λ g. record { links = g.links.entries; kept = g.world } };
}

// What a piece has behind its first bytes.
fn behind(piece: &[u8], taken: usize) -> &[u8]
    requires { taken ≤ length piece.now }
    ensures { result.now ≡ drop taken piece.now }
{
    &piece[taken..]
}

// Does what the records ask for that a piece completes.
fn serve_piece<C: Cluster>(
    alloc: Global,
    conn: u32,
    stream: &mut Stream,
    piece: &[u8],
    world: &mut World<C>,
    cluster: &mut C,
) -> Result<Served, AllocError>
    requires placed { AreBodiesPlaced C.File.tells (file_count world.old) (C.at cluster.old) world.old.cells }
    ensures ok { IfOk result (λ s. IsPieceServed C.File.tells s (hearing_of conn (stream.old ++ piece.now)) stream.new
        (world_scene_of C.Cluster world.old cluster.old) (world_scene_of C.Cluster world.new cluster.new)) }
    ensures err { OnErr result (Cuts C.File.tells (hearing_of conn (stream.old ++ piece.now)).operations
        (world_scene_of C.Cluster world.old cluster.old) (world_scene_of C.Cluster world.new cluster.new)) }
    ensures placed_after { AreBodiesPlaced C.File.tells (file_count world.new) (C.at cluster.new) world.new.cells }
    ensures names { world.new.names ≡ world.old.names }
    ensures others { C.File.tells → ObjectsStay (store_state C.Cluster cluster.old) (store_state C.Cluster cluster.new) }
    ensures losses { C.File.tells → SameLosses (store_state C.Cluster cluster.old) (store_state C.Cluster cluster.new) }
    ensures there { C.File.tells → StaysThere (store_state C.Cluster cluster.old) (store_state C.Cluster cluster.new) }
    ensures event { world.new.tracker.noted.event ≡ world.old.tracker.noted.event }
{
    let mut text = String::new(alloc);
    let mut rest = piece;
    loop {
        match stream.hear(alloc, rest)? {
            StreamStep::More => return Ok(Served { text, ended: false }),
            StreamStep::Broken => {
                text.push_str(world.break_connection(conn)?.as_str())?;
                return Ok(Served { text, ended: true });
            }
            StreamStep::Record { taken, message } => {
                let served = world.serve(conn, message, cluster)?;
                text.push_str(served.text.as_str())?;
                if served.ended {
                    return Ok(Served { text, ended: true });
                }
                rest = behind(rest, taken);
            }
        }
    }
}

impl<C: Cluster> Gateway<C> {
    /// No file is in the tree, nothing came on any connection, and nobody waits.
    pub fn new(alloc: Global, config: Config) -> Gateway<C>
        requires in_range { AreInRange (settings_in config) }
        ensures { result ≡ idle_gateway (settings_in config) }
    {
        Gateway {
            alloc,
            links: BTreeMap::new(alloc),
            world: World::new(alloc, config),
        }
    }

    /// Forgets the outcomes that were noted.
    pub fn clear(&mut self)
        ensures { self.new ≡ record self.old {
          kept = record self.old.kept {
            tracker = without_outcomes self.old.kept.tracker self.new.kept.tracker.noted.room;
          };
        } }
    {
        self.world.clear();
    }

    // A connection sends bytes.
    fn receive(&mut self, conn: u32, piece: &[u8], cluster: &mut C) -> Result<String, AllocError>
        requires placed { AreBodiesPlaced C.File.tells (file_count self.old.kept) (C.at cluster.old) self.old.kept.cells }
        ensures ok { IfOk result (λ text. IsReceived C.File.tells conn piece.now self.old.links self.new.links (string_bytes text)
            (gateway_scene C.Cluster self.old cluster.old) (gateway_scene C.Cluster self.new cluster.new)) }
        ensures err { OnErr result (Cuts C.File.tells (hearing_at self.old.links conn piece.now).operations
            (gateway_scene C.Cluster self.old cluster.old) (gateway_scene C.Cluster self.new cluster.new)) }
        ensures placed_after { AreBodiesPlaced C.File.tells (file_count self.new.kept) (C.at cluster.new) self.new.kept.cells }
        ensures names { self.new.kept.names ≡ self.old.kept.names }
        ensures others { C.File.tells → ObjectsStay (store_state C.Cluster cluster.old) (store_state C.Cluster cluster.new) }
        ensures losses { C.File.tells → SameLosses (store_state C.Cluster cluster.old) (store_state C.Cluster cluster.new) }
        ensures there { C.File.tells → StaysThere (store_state C.Cluster cluster.old) (store_state C.Cluster cluster.new) }
        ensures event { self.new.kept.tracker.noted.event ≡ self.old.kept.tracker.noted.event }
    {
        let Link::Open(mut stream) = take_link(self.alloc, &mut self.links, conn)? else {
            return Ok(String::new(self.alloc));
        };
        let served = serve_piece(
            self.alloc,
            conn,
            &mut stream,
            piece,
            &mut self.world,
            cluster,
        )?;
        give_link(&mut self.links, conn, link_after(served.ended, stream));
        Ok(served.text)
    }

    /// Does an event, and gives what it writes. Takes memory.
    pub fn step(&mut self, event: Event, cluster: &mut C) -> StepResult
        requires placed { AreBodiesPlaced C.File.tells (file_count self.old.kept) (C.at cluster.old) self.old.kept.cells }
        requires few { self.old.kept.tracker.noted.event < 2 ^ 64 - 1 }
        ensures step { (links : Links) → AreLinks self.old.links links
            → IsEventStep C.File.tells result event.entry links self.new.links
            (gateway_scene C.Cluster self.old cluster.old) (gateway_scene C.Cluster self.new cluster.new) }
        ensures event { self.new.kept.tracker.noted.event ≤ self.old.kept.tracker.noted.event + 1 }
        ensures placed_after { IsText result
            → AreBodiesPlaced C.File.tells (file_count self.new.kept) (C.at cluster.new) self.new.kept.cells }
        ensures safe { AreBodiesSafe C.File.tells (C.at cluster.new) self.new.kept.cells }
        ensures others { C.File.tells → ObjectsStay (store_state C.Cluster cluster.old) (store_state C.Cluster cluster.new) }
        ensures losses { C.File.tells → LossesStay (store_state C.Cluster cluster.old) (store_state C.Cluster cluster.new) }
        ensures there { IsText result → C.File.tells
            → StaysThere (store_state C.Cluster cluster.old) (store_state C.Cluster cluster.new) }
        ensures cause { result ≡ StepResult.StoreFault → Rose (gateway_scene C.Cluster self.old cluster.old).counts.faults
            (gateway_scene C.Cluster self.new cluster.new).counts.faults }
    {
        match event {
            Event::MakeFile(name) => self.world.make_file(name.as_slice(), cluster),
            Event::Bytes { conn, bytes } => {
                self.world.begin_event();
                step_result(self.receive(conn, bytes.as_slice(), cluster))
            }
            Event::Turn(file) => step_result(self.world.turn(file)),
            Event::Pump(file) => step_result(self.world.pump(file)),
            Event::Sync(file) => step_result(self.world.sync(file)),
            Event::Tick(milliseconds) => step_result(self.world.tick(milliseconds, cluster)),
            Event::HangUp(conn) => {
                forget_link(&mut self.links, conn);
                self.world.hang_up(conn);
                StepResult::Text(String::new(self.alloc))
            }
        }
    }

    /// Gives the bodies that were taken back to the store, and writes the histories of the contexts by rising number.
    pub fn stop<K: Sink>(self, sink: &mut K, cluster: &mut C) -> Result<(), WriteFault>
        requires safe { AreBodiesSafe C.File.tells (C.at cluster.old) self.kept.cells }
        ensures histories { WritesHistories result self.kept.cells (K.held sink.old) (K.held sink.new) }
        ensures bodies { C.File.tells → (k : ℕ)
            → bytes_of (C.at cluster.new (body_id k)) ≡ bodies_at (C.at cluster.old) self.kept.cells k }
        ensures home { C.File.tells → (k : ℕ) → IsAway (C.at cluster.new (body_id k)) → ⊥ }
        ensures others { C.File.tells → ObjectsStay (store_state C.Cluster cluster.old) (store_state C.Cluster cluster.new) }
        ensures losses { C.File.tells → SameLosses (store_state C.Cluster cluster.old) (store_state C.Cluster cluster.new) }
        ensures counts { GivesAllBack self.kept.cells (store_counts C.Cluster cluster.old) (store_counts C.Cluster cluster.new) }
        ensures later { K.count sink.old ≤ K.count sink.new }
        ensures cause { OnErr result (Rose (K.count sink.old) (K.count sink.new)) }
    {
        self.world.stop(sink, cluster)
    }
}
