// The lines of a transcript, one after another, and what is left at their end.
ghost use Rattle.std.specs.Prelude.{◌≡◌, ◌≢◌, ◌<◌, ◌≤◌, ◌+◌, ◌-◌, ◌^◌, ℕ, List, Option, None, []};
ghost use Rattle.gw_outside.specs.Causes.{Rose};
ghost use Rattle.gw_config.specs.Ranges.{AreInRange};
ghost use Rattle.gw_config.specs.Seen.{settings_in};
ghost use Rattle.gw_config.specs.declared.fault.ConfigFault.{ConfigFault};
ghost use Rattle.append_store.specs.State.{IsAway};
ghost use Rattle.transcript.specs.Script.{max_lines};
ghost use Rattle.file_calls.specs.Outside.{body_id};
ghost use Rattle.nfs_procs.specs.Contexts.{AreBodiesPlaced, AreBodiesSafe, LossesStay, ObjectsStay, StaysThere, file_count, initial_state, store_state};
ghost use Rattle.gateway.specs.Links.{Links, AreLinks};
ghost use Rattle.gateway.specs.Steps.{idle_gateway};
ghost use Rattle.replay.specs.Headline.{Runs};
ghost use Rattle.replay.specs.RunSteps.{HasRisen, IsEventOutcome, LineStep, LinesEnd, outside_home, outside_of, status_by};

use crate::grammar::{GrammarState, Line, line_of};
use crate::status::Status;
use append_store::Cluster;
use file_calls::StepResult;
use gateway::{Event, Gateway};
use gw_config::Config;
use gw_outside::{Sink, Source, WriteFault, write_all};
use std::alloc::Global;
use transcript::{Lines, MAX_LINES, Next};

/// How a line went.
#[derive(Clone, Copy, Debug, PartialEq, Eq)]
pub enum LineOutcome {
    /// It was done, and the next one comes.
    Continue,
    /// It was the last line.
    LastLine,
    /// It isn't in the grammar.
    BadLine,
    /// The source ended before it did.
    InputEnded,
    ReadFault,
    StoreFault,
    WriteFault,
    NoMemory,
}

/// How the lines ended, and how many came before the last.
#[derive(Clone, Copy)]
struct Ending {
    outcome: LineOutcome,
    lines: u64,
}

/// Does one event and writes what it answers.
fn one_event<K: Sink, C: Cluster>(
    event: Event,
    gateway: &mut Gateway<C>,
    sink: &mut K,
    cluster: &mut C,
) -> LineOutcome
    requires placed { AreBodiesPlaced C.File.tells (file_count gateway.old.kept) (C.at cluster.old) gateway.old.kept.cells }
    requires few { gateway.old.kept.tracker.noted.event < 2 ^ 64 - 1 }
    ensures moves { (left : Option (List ℕ)) (links : Links) → AreLinks gateway.old.links links
        → IsEventOutcome C.File.tells result event.entry links gateway.old gateway.new
        (outside_of C.Cluster gateway.old.kept left (K.held sink.old) cluster.old)
        (outside_of C.Cluster gateway.new.kept left (K.held sink.new) cluster.new) }
    ensures event { gateway.new.kept.tracker.noted.event ≤ gateway.old.kept.tracker.noted.event + 1 }
    ensures placed_after { result ≡ LineOutcome.Continue
        → AreBodiesPlaced C.File.tells (file_count gateway.new.kept) (C.at cluster.new) gateway.new.kept.cells }
    ensures safe { AreBodiesSafe C.File.tells (C.at cluster.new) gateway.new.kept.cells }
    ensures others { C.File.tells → ObjectsStay (store_state C.Cluster cluster.old) (store_state C.Cluster cluster.new) }
    ensures losses { C.File.tells → LossesStay (store_state C.Cluster cluster.old) (store_state C.Cluster cluster.new) }
    ensures there { result ≡ LineOutcome.Continue → C.File.tells
        → StaysThere (store_state C.Cluster cluster.old) (store_state C.Cluster cluster.new) }
    ensures later { K.count sink.old ≤ K.count sink.new }
    ensures write_cause { result ≡ LineOutcome.WriteFault → Rose (K.count sink.old) (K.count sink.new) }
    ensures store_cause { result ≡ LineOutcome.StoreFault
        → HasRisen C.Cluster gateway.old.kept gateway.new.kept cluster.old cluster.new }
{
    let stepped = gateway.step(event, cluster);
    gateway.clear();
    match stepped {
        StepResult::Text(text) => match write_all(sink, text.as_bytes()) {
            Ok(()) => LineOutcome::Continue,
            Err(_) => LineOutcome::WriteFault,
        },
        StepResult::StoreFault => LineOutcome::StoreFault,
        StepResult::NoMemory => LineOutcome::NoMemory,
    }
}

/// Reads and does one line, after `before` others.
fn one_line<S: Source, K: Sink, C: Cluster>(
    before: u64,
    grammar: &mut GrammarState,
    lines: &mut Lines,
    room: &mut Vec<u8>,
    gateway: &mut Gateway<C>,
    source: &mut S,
    sink: &mut K,
    cluster: &mut C,
) -> LineOutcome
    requires few { before < max_lines }
    requires events { gateway.old.kept.tracker.noted.event ≤ before }
    requires placed { AreBodiesPlaced C.File.tells (file_count gateway.old.kept) (C.at cluster.old) gateway.old.kept.cells }
    ensures moves { (links : Links) → AreLinks gateway.old.links links → LineStep C.File.tells result links
        (record { state = gateway.old; grammar = grammar.old; before = before; pending = lines.old.pending })
        (record { state = gateway.new; grammar = grammar.new; before = before + 1; pending = lines.new.pending })
        (outside_of C.Cluster gateway.old.kept (S.left source.old) (K.held sink.old) cluster.old)
        (outside_of C.Cluster gateway.new.kept (S.left source.new) (K.held sink.new) cluster.new) }
    ensures events_after { gateway.new.kept.tracker.noted.event ≤ before + 1 }
    ensures placed_after { result ≡ LineOutcome.Continue
        → AreBodiesPlaced C.File.tells (file_count gateway.new.kept) (C.at cluster.new) gateway.new.kept.cells }
    ensures safe { AreBodiesSafe C.File.tells (C.at cluster.new) gateway.new.kept.cells }
    ensures others { C.File.tells → ObjectsStay (store_state C.Cluster cluster.old) (store_state C.Cluster cluster.new) }
    ensures losses { C.File.tells → LossesStay (store_state C.Cluster cluster.old) (store_state C.Cluster cluster.new) }
    ensures there { result ≡ LineOutcome.Continue → C.File.tells
        → StaysThere (store_state C.Cluster cluster.old) (store_state C.Cluster cluster.new) }
    ensures source_later { S.count source.old ≤ S.count source.new }
    ensures sink_later { K.count sink.old ≤ K.count sink.new }
    ensures read_cause { result ≡ LineOutcome.ReadFault → Rose (S.count source.old) (S.count source.new) }
    ensures write_cause { result ≡ LineOutcome.WriteFault → Rose (K.count sink.old) (K.count sink.new) }
    ensures store_cause { result ≡ LineOutcome.StoreFault
        → HasRisen C.Cluster gateway.old.kept gateway.new.kept cluster.old cluster.new }
{
    match lines.next(source) {
        Next::Line => match line_of(grammar, lines.line(), room) {
            Ok(Some(Line::Go(event))) => {
                if grammar.pass(&event).is_err() {
                    return LineOutcome::NoMemory;
                }
                one_event(event, gateway, sink, cluster)
            }
            Ok(Some(Line::End)) => LineOutcome::LastLine,
            Ok(None) => LineOutcome::BadLine,
            Err(_) => LineOutcome::NoMemory,
        },
        Next::TooLong => LineOutcome::BadLine,
        Next::AtEnd => LineOutcome::InputEnded,
        Next::ReadFault => LineOutcome::ReadFault,
        Next::NoMemory => LineOutcome::NoMemory,
    }
}

/// Reads and does all lines.
fn all_lines<S: Source, K: Sink, C: Cluster>(
    alloc: Global,
    gateway: &mut Gateway<C>,
    source: &mut S,
    sink: &mut K,
    cluster: &mut C,
) -> Ending
    requires fresh { gateway.old ≡ idle_gateway gateway.old.kept.tracker.settings }
    requires placed { AreBodiesPlaced C.File.tells 0 (C.at cluster.old) [] }
    ensures moves { LinesEnd C.File.tells gateway.old.kept.tracker.settings result.outcome result.lines gateway.new
        (outside_home C.Cluster (S.left source.old) (K.held sink.old) cluster.old)
        (outside_of C.Cluster gateway.new.kept (S.left source.new) (K.held sink.new) cluster.new) }
    ensures few { result.lines ≤ max_lines }
    ensures safe { AreBodiesSafe C.File.tells (C.at cluster.new) gateway.new.kept.cells }
    ensures others { C.File.tells → ObjectsStay (store_state C.Cluster cluster.old) (store_state C.Cluster cluster.new) }
    ensures losses { C.File.tells → LossesStay (store_state C.Cluster cluster.old) (store_state C.Cluster cluster.new) }
    ensures source_later { S.count source.old ≤ S.count source.new }
    ensures sink_later { K.count sink.old ≤ K.count sink.new }
    ensures read_cause { result.outcome ≡ LineOutcome.ReadFault → Rose (S.count source.old) (S.count source.new) }
    ensures write_cause { result.outcome ≡ LineOutcome.WriteFault → Rose (K.count sink.old) (K.count sink.new) }
    ensures store_cause { result.outcome ≡ LineOutcome.StoreFault
        → HasRisen C.Cluster (initial_state gateway.old.kept.tracker.settings) gateway.new.kept cluster.old cluster.new }
{
    let mut grammar = GrammarState::new(alloc);
    let mut lines = Lines::new(alloc);
    let mut room = Vec::new(alloc);
    for before in 0..MAX_LINES {
        match one_line(
            before,
            &mut grammar,
            &mut lines,
            &mut room,
            gateway,
            source,
            sink,
            cluster,
        ) {
            LineOutcome::Continue => {}
            outcome => return Ending {
                outcome,
                lines: before,
            },
        }
    }
    Ending {
        outcome: LineOutcome::BadLine,
        lines: MAX_LINES,
    }
}

/// The status, where the histories were written whole.
fn status_of(outcome: LineOutcome, lines: u64) -> Status
    requires { lines ≤ max_lines }
    ensures { result ≡ status_by outcome lines }
{
    match outcome {
        LineOutcome::LastLine => Status::Done,
        LineOutcome::BadLine | LineOutcome::InputEnded => Status::BadLine(lines + 1),
        LineOutcome::ReadFault => Status::ReadFault,
        LineOutcome::StoreFault => Status::StoreFault,
        LineOutcome::WriteFault => Status::WriteFault,
        LineOutcome::Continue | LineOutcome::NoMemory => Status::NoMemory,
    }
}

// A sink that takes everything and keeps nothing.
#[derive(Drop)]
struct Nowhere;

impl Sink for Nowhere {
    ghost held = { λ n. None };

    ghost count = { λ n. 0 };

    fn write(&mut self, bytes: &[u8]) -> Result<usize, WriteFault> {
        Ok(bytes.len())
    }

    fn faults(&self) -> u64 {
        0
    }
}

/// Replays the transcript that the source hands out over the store under the settings, and writes what the sequential
/// definition says to the sink. It returns for every source, one without end too, and takes memory.
pub fn replay<S: Source, K: Sink, C: Cluster>(
    alloc: Global,
    config: Config,
    source: &mut S,
    sink: &mut K,
    cluster: &mut C,
) -> Status
    requires in_range { AreInRange (settings_in config) }
    // No body is out.
    requires safe { C.File.tells → (k : ℕ) → IsAway (C.at cluster.old (body_id k)) → ⊥ }
    // What was read, written and stored, by the status.
    ensures run { Runs C.File.tells (settings_in config) result
        (outside_home C.Cluster (S.left source.old) (K.held sink.old) cluster.old)
        (outside_home C.Cluster (S.left source.new) (K.held sink.new) cluster.new) }
    // No body is out afterwards.
    ensures home { C.File.tells → (k : ℕ) → IsAway (C.at cluster.new (body_id k)) → ⊥ }
    // No other object is changed, and no losses rise of an object that was there.
    ensures others { C.File.tells → ObjectsStay (store_state C.Cluster cluster.old) (store_state C.Cluster cluster.new) }
    ensures losses { C.File.tells → LossesStay (store_state C.Cluster cluster.old) (store_state C.Cluster cluster.new) }
    // A fault is answered only where that object's count rose.
    ensures read_cause { result ≡ Status.ReadFault → Rose (S.count source.old) (S.count source.new) }
    ensures write_cause { result ≡ Status.WriteFault → Rose (K.count sink.old) (K.count sink.new) }
    ensures store_cause { result ≡ Status.StoreFault → Rose (C.count cluster.old) (C.count cluster.new) }
    ensures not_usage { result ≢ Status.Usage }
    ensures not_config { (fault : ConfigFault) → result ≢ Status.BadConfig fault }
{
    let mut gateway = Gateway::new(alloc, config);
    let ending = all_lines(alloc, &mut gateway, source, sink, cluster);
    match ending.outcome {
        LineOutcome::StoreFault | LineOutcome::WriteFault | LineOutcome::NoMemory => {
            let _ = gateway.stop(&mut Nowhere, cluster);
            status_of(ending.outcome, ending.lines)
        }
        _ => match gateway.stop(sink, cluster) {
            Ok(()) => status_of(ending.outcome, ending.lines),
            Err(_) => Status::WriteFault,
        },
    }
}
