// Why a text isn't a configuration.
ghost use Rattle.std.specs.Prelude.{◌≡◌};
ghost use Rattle.gw_config.specs.Refusals.{unknown, wrong_type, out_of_range};
ghost use Rattle.gw_config.specs.Faults.{IsMemoryOr};

use std::alloc::Global;
use thiserror::Error;

/// Why a text isn't a configuration.
#[derive(Debug, Drop, Error)]
pub enum ConfigFault {
    /// The text isn't a document of TOML 1.1.
    #[error("not a TOML document")]
    Syntax,
    /// There is no such key.
    #[error("unknown setting {key}")]
    Unknown { key: String },
    /// The value is of another type than that of the key.
    #[error("{key} is of the wrong type")]
    WrongType { key: String },
    /// The number isn't in the key's range, or it is a mark above the cap.
    #[error("{key} can't be {value}")]
    OutOfRange { key: String, value: i64 },
    /// The path to export doesn't begin with `/`, or has more than 1,024 bytes.
    #[error("export isn't a path of at most 1,024 bytes from / on")]
    BadExport,
    /// Memory was refused.
    #[error("out of memory")]
    Memory,
}

pub(crate) fn unknown_key(alloc: Global, key: &str) -> ConfigFault
    ensures { IsMemoryOr result (λ r. r ≡ unknown key.now) }
{
    match String::from_str(alloc, key) {
        Ok(key) => ConfigFault::Unknown { key },
        Err(_) => ConfigFault::Memory,
    }
}

pub(crate) fn wrong_type_of(alloc: Global, key: &str) -> ConfigFault
    ensures { IsMemoryOr result (λ r. r ≡ wrong_type key.now) }
{
    match String::from_str(alloc, key) {
        Ok(key) => ConfigFault::WrongType { key },
        Err(_) => ConfigFault::Memory,
    }
}

pub(crate) fn out_of_range_at(alloc: Global, key: &str, value: i64) -> ConfigFault
    ensures { IsMemoryOr result (λ r. r ≡ out_of_range key.now value) }
{
    match String::from_str(alloc, key) {
        Ok(key) => ConfigFault::OutOfRange { key, value },
        Err(_) => ConfigFault::Memory,
    }
}
