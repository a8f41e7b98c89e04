// What a table has at a key.
ghost use Rattle.std.specs.Prelude.{◌≡◌, IfOk, option_map, string_bytes};
ghost use Rattle.toml.specs.Data.{get_member};
ghost use Rattle.toml.specs.View.{table_view, view};
ghost use Rattle.gw_config.specs.Settings.{number_at, switch_at, text_at, whole_or};

use std::alloc::{AllocError, Global};
use toml::{Table, Value};

fn value_at<'a>(table: &'a Table, key: &str) -> Option<&'a Value>
    ensures { option_map (λ v. view v.now) result ≡ get_member key.now (table_view table.now) }
{
    table.get(key)
}

fn number_or(number: Option<i64>, fallback: u64) -> u64
    ensures { result ≡ whole_or fallback number }
{
    match number {
        Some(number) if number >= 0 => number as u64,
        _ => fallback,
    }
}

/// The whole number at a key, or this one where there is none.
pub(crate) fn read_number(table: &Table, key: &str, fallback: u64) -> u64
    ensures { result ≡ number_at key.now fallback (table_view table.now) }
{
    match value_at(table, key) {
        Some(value) => number_or(value.as_integer(), fallback),
        None => fallback,
    }
}

/// Whether `true` stands at a key.
pub(crate) fn read_switch(table: &Table, key: &str) -> bool
    ensures { result ≡ switch_at key.now (table_view table.now) }
{
    match value_at(table, key) {
        Some(value) => value.as_bool().unwrap_or(false),
        None => false,
    }
}

/// A copy of the text at a key, or of this one where there is none.
pub(crate) fn read_text(
    alloc: Global,
    table: &Table,
    key: &str,
    fallback: &str,
) -> Result<String, AllocError>
    ensures { IfOk result (λ text. string_bytes text ≡ text_at key.now fallback.now (table_view table.now)) }
{
    match value_at(table, key) {
        Some(value) => match value.as_str() {
            Some(text) => String::from_str(alloc, text),
            None => String::from_str(alloc, fallback),
        },
        None => String::from_str(alloc, fallback),
    }
}
