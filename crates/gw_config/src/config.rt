// The settings of a gateway.
ghost use Rattle.std.specs.Prelude.{◌≡◌, IfErr, IfOk, Ok, Some};
ghost use Rattle.toml.specs.Parse.{parse_document};
ghost use Rattle.toml.specs.View.{table_view};
ghost use Rattle.gw_config.specs.Faults.{IsFaultOf};
ghost use Rattle.gw_config.specs.Ranges.{AreInRange};
ghost use Rattle.gw_config.specs.Refusals.{configuration};
ghost use Rattle.gw_config.specs.Seen.{settings_in};
ghost use Rattle.gw_config.specs.Settings.{limits_of, settings_of};

use crate::fault::ConfigFault;
use crate::judge::{judge_keys, judge_mark};
use crate::table::{read_number, read_switch, read_text};
use gw_model::Limits;
use std::alloc::{AllocError, Global};
use toml::Table;

/// The settings of a gateway.
#[derive(Debug, Drop)]
pub struct Config {
    /// The changing calls that are kept with their replies: 1 to 256.
    pub calls: u64,
    /// The files that may be open at once: 1 to 128.
    pub contexts: u64,
    /// The path that can be mounted. It begins with `/` and has at most 1,024 bytes.
    pub export: String,
    /// The number of the file system in each handle, below 2^63.
    pub fsid: u64,
    /// What each open file is held to.
    pub limits: Limits,
    /// Nothing may be changed.
    pub read_only: bool,
    /// The threads that serve: 1 to 16.
    pub workers: u64,
}

impl Config {
    /// Reads the settings of a document of TOML 1.1. Each key may be left out; a mark that isn't given is at most the cap.
    ///
    /// The first of these refuses it: the text isn't a document; the first key, in the order of the bytes, that isn't known
    /// or whose value is of another type, out of its range or no path to export; a mark above the cap. Takes memory.
    pub fn from_toml(alloc: Global, text: &str) -> Result<Config, ConfigFault>
        ensures accepted { IfOk result (λ config. configuration (parse_document text.now) ≡ Ok (settings_in config)) }
        ensures in_range { IfOk result (λ config. AreInRange (settings_in config)) }
        ensures refused { IfErr result (IsFaultOf (configuration (parse_document text.now))) }
    {
        let table = read_table(alloc, text)?;
        judge_keys(alloc, &table)?;
        let Ok(config) = read_config(alloc, &table) else {
            return Err(ConfigFault::Memory);
        };
        judge_mark(alloc, &config.limits)?;
        Ok(config)
    }

    /// What each open file is held to.
    pub fn limits(&self) -> Limits
        ensures { result ≡ self.now.limits }
    {
        self.limits
    }
}

fn read_table(alloc: Global, text: &str) -> Result<Table, ConfigFault>
    ensures read { IfOk result (λ table. parse_document text.now ≡ Some (table_view table)) }
    ensures refused { IfErr result (IsFaultOf (configuration (parse_document text.now))) }
{
    match toml::table_from_str(alloc, text) {
        Ok(table) => Ok(table),
        Err(fault) => {
            if fault.is_memory() {
                return Err(ConfigFault::Memory);
            }
            Err(ConfigFault::Syntax)
        }
    }
}

fn read_limits(table: &Table) -> Limits
    ensures { result ≡ limits_of (table_view table.now) }
{
    let memory_cap = read_number(table, "memory_cap", 8_388_608);
    Limits {
        commits: read_number(table, "commits", 1024),
        history: read_number(table, "history", 131_072),
        line_slots: read_number(table, "line_slots", 8),
        memory_cap,
        memory_mark: read_number(table, "memory_mark", memory_cap.min(1_048_576)),
        pending_max: read_number(table, "pending_max", 65_536),
        ready_cap: read_number(table, "ready_cap", 8_388_608),
        spill_size: read_number(table, "spill_size", 67_108_864),
        timeout_ms: read_number(table, "timeout_ms", 600_000),
    }
}

fn read_config(alloc: Global, table: &Table) -> Result<Config, AllocError>
    ensures { IfOk result (λ config. settings_in config ≡ settings_of (table_view table.now)) }
{
    Ok(Config {
        calls: read_number(table, "calls", 256),
        contexts: read_number(table, "contexts", 128),
        export: read_text(alloc, table, "export", "/")?,
        fsid: read_number(table, "fsid", 1),
        limits: read_limits(table),
        read_only: read_switch(table, "read_only"),
        workers: read_number(table, "workers", 4),
    })
}
