// What is wrong with a table, by its keys in the order of their bytes.
ghost use Rattle.std.specs.Prelude.{◌≡◌, ◌<◌, ◌^◌, None, Some, IfErr, IfOk};
ghost use Rattle.toml.specs.Data.{as_bool, as_integer, as_str};
ghost use Rattle.toml.specs.View.{table_view, view};
ghost use Rattle.gw_config.specs.Faults.{IsMemoryOr};
ghost use Rattle.gw_config.specs.Refusals.{export_refusal, first_refusal, is_export, key_refusal, mark_refusal, number_refusal, switch_refusal};

use crate::fault::{ConfigFault, out_of_range_at, unknown_key, wrong_type_of};
use crate::kind::{ValueKind, value_kind};
use gw_model::Limits;
use std::alloc::Global;
use toml::{Table, Value};

fn judge_number(
    alloc: Global,
    key: &str,
    value: &Value,
    low: u64,
    high: u64,
) -> Result<(), ConfigFault>
    ensures accepted { IfOk result (λ _. number_refusal key.now low high (as_integer (view value.now)) ≡ None) }
    ensures refused { IfErr result (λ e. IsMemoryOr e (λ r. number_refusal key.now low high (as_integer (view value.now)) ≡ Some r)) }
{
    let Some(number) = value.as_integer() else {
        return Err(wrong_type_of(alloc, key));
    };
    if number >= 0 {
        let whole = number as u64;
        if low <= whole && whole <= high {
            return Ok(());
        }
    }
    Err(out_of_range_at(alloc, key, number))
}

fn judge_switch(alloc: Global, key: &str, value: &Value) -> Result<(), ConfigFault>
    ensures accepted { IfOk result (λ _. switch_refusal key.now (as_bool (view value.now)) ≡ None) }
    ensures refused { IfErr result (λ e. IsMemoryOr e (λ r. switch_refusal key.now (as_bool (view value.now)) ≡ Some r)) }
{
    match value.as_bool() {
        Some(_) => Ok(()),
        None => Err(wrong_type_of(alloc, key)),
    }
}

// Whether this path can be exported.
fn is_export_path(path: &str) -> bool
    ensures { result ≡ is_export path.now }
{
    path.starts_with('/') && path.len() <= 1024
}

fn judge_export(alloc: Global, key: &str, value: &Value) -> Result<(), ConfigFault>
    ensures accepted { IfOk result (λ _. export_refusal key.now (as_str (view value.now)) ≡ None) }
    ensures refused { IfErr result (λ e. IsMemoryOr e (λ r. export_refusal key.now (as_str (view value.now)) ≡ Some r)) }
{
    let Some(path) = value.as_str() else {
        return Err(wrong_type_of(alloc, key));
    };
    if is_export_path(path) {
        return Ok(());
    }
    Err(ConfigFault::BadExport)
}

// What is wrong with a key and its value.
fn judge_key(alloc: Global, key: &str, value: &Value) -> Result<(), ConfigFault>
    ensures accepted { IfOk result (λ _. key_refusal key.now (view value.now) ≡ None) }
    ensures refused { IfErr result (λ e. IsMemoryOr e (λ r. key_refusal key.now (view value.now) ≡ Some r)) }
{
    match value_kind(key) {
        Some(ValueKind::Number(low, high)) => judge_number(alloc, key, value, low, high),
        Some(ValueKind::Switch) => judge_switch(alloc, key, value),
        Some(ValueKind::ExportPath) => judge_export(alloc, key, value),
        None => Err(unknown_key(alloc, key)),
    }
}

/// What is wrong with the first key that is refused.
pub(crate) fn judge_keys(alloc: Global, table: &Table) -> Result<(), ConfigFault>
    ensures accepted { IfOk result (λ _. first_refusal (table_view table.now) ≡ None) }
    ensures refused { IfErr result (λ e. IsMemoryOr e (λ r. first_refusal (table_view table.now) ≡ Some r)) }
{
    for (key, value) in table {
        judge_key(alloc, key.as_str(), value)?;
    }
    Ok(())
}

/// A mark above the cap is refused.
pub(crate) fn judge_mark(alloc: Global, limits: &Limits) -> Result<(), ConfigFault>
    requires { limits.now.memory_mark < 2 ^ 63 }
    ensures accepted { IfOk result (λ _. mark_refusal limits.now ≡ None) }
    ensures refused { IfErr result (λ e. IsMemoryOr e (λ r. mark_refusal limits.now ≡ Some r)) }
{
    if limits.memory_mark <= limits.memory_cap {
        return Ok(());
    }
    let mark = limits.memory_mark as i64;
    Err(out_of_range_at(alloc, "memory_mark", mark))
}
