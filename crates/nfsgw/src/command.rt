// The top call: a command over a source, a sink and a store.
ghost use Rattle.std.specs.Prelude.{◌≡◌, ◌↔◌, ℕ, IsTrue, false, true};
ghost use Rattle.gw_outside.specs.Causes.{Rose};
ghost use Rattle.append_store.specs.State.{IsAway};
ghost use Rattle.file_calls.specs.Outside.{body_id};
ghost use Rattle.nfs_procs.specs.Contexts.{LossesStay, ObjectsStay, store_state};
ghost use Rattle.replay.specs.Headline.{IsComplete, Runs};
ghost use Rattle.replay.specs.RunSteps.{outside_home};
ghost use Rattle.nfsgw.specs.Command.{IsAccepted, IsJudged, is_replay, refusal_of, texts, words_configuration, words_settings};

use crate::words::{is_replay, read_settings};
use append_store::Cluster;
use gw_config::ConfigFault;
use gw_outside::{Sink, Source};
use replay::{Status, replay};
use std::alloc::Global;

// How a run ends whose settings are refused for this reason.
fn refusal(fault: ConfigFault) -> Status
    ensures { result ≡ refusal_of fault }
{
    match fault {
        ConfigFault::Memory => Status::NoMemory,
        fault => Status::BadConfig(fault),
    }
}

/// Runs the command that the words name; they don't include the program's name.
///
/// `replay` replays the transcript that the source hands out over the store, under the settings that the words behind it
/// are as the lines of a TOML document, and writes what the sequential definition says to the sink. It returns for every
/// source, one without end too, and takes memory.
pub fn run_command<S: Source, K: Sink, C: Cluster>(
    alloc: Global,
    words: &Vec<String>,
    source: &mut S,
    sink: &mut K,
    cluster: &mut C,
) -> Status
    // No body is out.
    requires safe { C.File.tells → (k : ℕ) → IsAway (C.at cluster.old (body_id k)) → ⊥ }
    // What was read, written and stored, by the status.
    ensures run { Runs C.File.tells (words_settings (texts words.now.items)) result
        (outside_home C.Cluster (S.left source.old) (K.held sink.old) cluster.old)
        (outside_home C.Cluster (S.left source.new) (K.held sink.new) cluster.new) }
    // No body is out afterwards.
    ensures home { C.File.tells → (k : ℕ) → IsAway (C.at cluster.new (body_id k)) → ⊥ }
    // No other object is changed, and no losses rise of an object that was there.
    ensures others { C.File.tells → ObjectsStay (store_state C.Cluster cluster.old) (store_state C.Cluster cluster.new) }
    ensures losses { C.File.tells → LossesStay (store_state C.Cluster cluster.old) (store_state C.Cluster cluster.new) }
    // The words are refused exactly where they are no command, and settings where they are none.
    ensures usage { (result ≡ Status.Usage) ↔ (is_replay (texts words.now.items) ≡ false) }
    ensures settings { IsJudged result (words_configuration (texts words.now.items)) }
    // A fault is answered only where that object's count rose.
    ensures read_cause { result ≡ Status.ReadFault → Rose (S.count source.old) (S.count source.new) }
    ensures write_cause { result ≡ Status.WriteFault → Rose (K.count sink.old) (K.count sink.new) }
    ensures store_cause { result ≡ Status.StoreFault → Rose (C.count cluster.old) (C.count cluster.new) }
    // Where nothing fails, a transcript that is whole and in the grammar is done, but for want of memory.
    ensures complete { is_replay (texts words.now.items) ≡ true → IsAccepted (words_configuration (texts words.now.items))
        → (Rose (S.count source.old) (S.count source.new) → ⊥)
        → (Rose (K.count sink.old) (K.count sink.new) → ⊥)
        → (Rose (C.count cluster.old) (C.count cluster.new) → ⊥)
        → IsComplete (S.left source.old) result }
{
    if !is_replay(words) {
        return Status::Usage;
    }
    match read_settings(alloc, words) {
        Ok(config) => replay(alloc, config, source, sink, cluster),
        Err(fault) => refusal(fault),
    }
}
