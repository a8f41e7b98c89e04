// The words of the program's command, and the settings in them.
ghost use Rattle.std.specs.Prelude.{◌≡◌, ◌++◌, ◌∷◌, IfErr, IfOk, Ok, map, string_bytes};
ghost use Rattle.std.specs.List.{flat_map, list_all};
ghost use Rattle.gw_config.specs.Faults.{IsFaultOf};
ghost use Rattle.gw_config.specs.Ranges.{AreInRange};
ghost use Rattle.gw_config.specs.Seen.{settings_in};
ghost use Rattle.nfsgw.specs.Command.{is_replay, is_setting, joined_lines, settings_text, texts, words_configuration};

use gw_config::{Config, ConfigFault};
use std::alloc::{AllocError, Global};

// Whether a word may be a setting.
fn is_setting(word: &String) -> bool
    ensures { result ≡ is_setting (string_bytes word.now) }
{
    match word.as_bytes().first() {
        Some(first) => *first != b'-',
        None => true,
    }
}

fn are_settings(words: &[String]) -> bool
    ensures { result ≡ list_all is_setting (map string_bytes words.now) }
{
    for word in words {
        if !is_setting(word) {
            return false;
        }
    }
    true
}

/// Whether the words are those of the one command: `replay`, and any number of settings.
pub fn is_replay(words: &[String]) -> bool
    ensures { result ≡ is_replay (texts words.now) }
{
    match words.split_first() {
        Some((word, settings)) => word.as_str() == "replay" && are_settings(settings),
        None => false,
    }
}

// Lines, with a line feed between each two.
fn joined_lines(alloc: Global, lines: &[String]) -> Result<String, AllocError>
    ensures { IfOk result (λ text. string_bytes text ≡ joined_lines (map string_bytes lines.now)) }
{
    let mut text = String::new(alloc);
    let Some((first, more)) = lines.split_first() else {
        return Ok(text);
    };
    text.push_str(first.as_str())?;
    for line in more {
        text.push('\n')?;
        text.push_str(line.as_str())?;
    }
    Ok(text)
}

// The words behind the first, as the lines of a text.
fn settings_text(alloc: Global, words: &[String]) -> Result<String, AllocError>
    ensures { IfOk result (λ text. string_bytes text ≡ settings_text (texts words.now)) }
{
    match words.split_first() {
        Some((_, settings)) => joined_lines(alloc, settings),
        None => Ok(String::new(alloc)),
    }
}

/// The settings in the words behind the first, which are the lines of a document of TOML. Takes memory.
#[tactic(auto, unfolding(crate::specs::Command::words_configuration))]
pub fn read_settings(alloc: Global, words: &[String]) -> Result<Config, ConfigFault>
    ensures accepted { IfOk result (λ config. words_configuration (texts words.now) ≡ Ok (settings_in config)) }
    ensures in_range { IfOk result (λ config. AreInRange (settings_in config)) }
    ensures refused { IfErr result (IsFaultOf (words_configuration (texts words.now))) }
{
    match settings_text(alloc, words) {
        Ok(text) => Config::from_toml(alloc, text.as_str()),
        Err(_) => Err(ConfigFault::Memory),
    }
}
