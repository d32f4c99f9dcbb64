// Settings: a TOML document with the keys `workspace_words` and `processes`.

ghost use Rattle.std.specs.Prelude.{◌≡◌, ◌≢◌, ◌≤◌, ℕ, IfOk, IfErr, Ok, Err, codes, option_map, string_bytes};
ghost use Rattle.std.specs.BTreeMap.{keys};
ghost use Rattle.std.specs.List.{list_all};
ghost use Rattle.toml.specs.Data.{get_member};
ghost use Rattle.toml.specs.View.{table_view};
ghost use Rattle.mc_words.specs.Settings.{AnswersSettings, numbers_of, settings_in, chosen, number_of, within, is_known};

use crate::setting_fault::SettingFault;
use mc_word::word::Settings;
use std::alloc::Global;
use toml::{Table, Value};

/// The settings of a TOML document. A key that it lacks has its usual value: 200 words and 16 processes.
///
/// # Errors
///
/// `NotToml` where the bytes are no TOML document, else `UnknownKey` where it has another key, else `BadKind` where a
/// value is no integer, else `OutOfRange` where one is outside its range; and `Memory`.
pub fn read_settings(alloc: Global, bytes: &[u8]) -> Result<Settings, SettingFault>
    ensures ok { IfOk result (λ s. AnswersSettings bytes.now (Ok (numbers_of s))) }
    ensures refused { IfErr result (λ e. e ≢ SettingFault.Memory → AnswersSettings bytes.now (Err e)) }
{
    let table = match toml::table_from_slice(alloc, bytes) {
        Ok(table) => table,
        Err(error) if error.is_memory() => return Err(SettingFault::Memory),
        Err(_) => return Err(SettingFault::NotToml),
    };
    if !has_known_keys(&table) {
        return Err(SettingFault::UnknownKey);
    }
    chosen(&table)
}

// Whether a table has no other keys than the two.
fn has_known_keys(table: &Table) -> bool
    ensures { result ≡ list_all (λ key. is_known (string_bytes key)) (keys table.now) }
{
    table.keys().all(|key| is_known(key.as_str()))
}

fn is_known(key: &str) -> bool
    ensures { result ≡ is_known key.now }
{
    key == "workspace_words" || key == "processes"
}

// The settings of a table without other keys.
#[tactic(auto, unfolding(crate::specs::Settings::chosen))]
fn chosen(table: &Table) -> Result<Settings, SettingFault>
    ensures ok { IfOk result (λ s. chosen (table_view table.now) ≡ Ok (numbers_of s)) }
    ensures refused { IfErr result (λ e. chosen (table_view table.now) ≡ Err e) }
{
    let workspace = number_at(table, "workspace_words")?;
    let processes = number_at(table, "processes")?;
    let workspace_words = within(200, 64, 4096, workspace)?;
    let processes = within(16, 2, 32, processes)?;
    Ok(Settings {
        workspace_words,
        processes,
    })
}

// The integer at a key, where there is a value.
#[tactic(auto, unfolding(crate::specs::Settings::number_of))]
fn number_at(table: &Table, key: &str) -> Result<Option<i64>, SettingFault>
    ensures ok { IfOk result (λ n. number_of (get_member key.now (table_view table.now)) ≡ Ok n) }
    ensures refused { IfErr result (λ e. number_of (get_member key.now (table_view table.now)) ≡ Err e) }
{
    let Some(value) = table.get(key) else {
        return Ok(None);
    };
    let number = value.as_integer();
    if number.is_none() {
        return Err(SettingFault::BadKind);
    }
    Ok(number)
}

// A number from `least` to `most`, and the usual one where there is none.
#[tactic(auto, unfolding(crate::specs::Settings::within))]
fn within(usual: u16, least: u16, most: u16, number: Option<i64>) -> Result<u16, SettingFault>
    requires low { least ≤ usual }
    requires high { usual ≤ most }
    ensures ok { IfOk result (λ n. within usual least most number ≡ Ok n) }
    ensures least { IfOk result (λ n. least ≤ n) }
    ensures most { IfOk result (λ n. n ≤ most) }
    ensures refused { IfErr result (λ e. within usual least most number ≡ Err e) }
{
    let Some(number) = number else {
        return Ok(usual);
    };
    match u16::try_from(number) {
        Ok(n) if least <= n && n <= most => Ok(n),
        _ => Err(SettingFault::OutOfRange),
    }
}
