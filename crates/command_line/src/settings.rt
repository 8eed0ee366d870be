//! The settings of the program.

ghost use Rattle.std.specs.Prelude.{◌≡◌, [], Err, IfOk, ℕ, List, MatchOption, codes, string_bytes};
ghost use Rattle.std.specs.List.{list_all};
ghost use Rattle.std.specs.Map.{keys_of};
ghost use Rattle.toml.specs.Data.{get_member};
ghost use Rattle.toml.specs.View.{table_view, view};
ghost use Rattle.command_line.specs.Keys.{AreBad, ClockOr, IsClock, IsNumber, IsSetBy, Sets, SetsNumber, are_known, defaults, is_known};

use std::alloc::Global;
use thiserror::Error;
use toml::{Table, Value};

/// What the moments of a run are counted from.
#[derive(Clone, Copy)]
pub enum ClockSource {
    /// `"script"`: from `start_ms`.
    Script,
    /// `"system"`: from the system's clock.
    System,
}

/// The settings, each by its key. All are read and checked, and all but `workers` act.
#[derive(Clone, Copy)]
pub struct Settings {
    /// How many threads propagate committed transactions, from 1 to 16; 1 by default.
    pub workers: u64,
    /// After how many milliseconds a propagation round is due, from 0 to 86,400,000; 0 by default, by which none ever
    /// is.
    pub propagate_ms: u64,
    /// What the moments are counted from: `"script"` by default, or `"system"`.
    pub clock: ClockSource,
    /// The first moment of a script, in milliseconds since 1970-01-01 00:00:00, from 0 to 253,402,300,799,000, the end
    /// of the year 9999; 0 by default.
    pub start_ms: u64,
    /// How many cache instances a group holds at most behind an aging cycle, from 1 to 1,000,000; 10,000 by default.
    pub lru_high: u64,
    /// How many cache instances an aging cycle leaves where it has to make room, from 0 to `lru_high`; by default the
    /// lesser of 9,000 and `lru_high`.
    pub lru_low: u64,
    /// The time between two aging cycles by last use, in milliseconds, from 1,000 to 86,400,000; 60,000 by default.
    pub lru_cycle_ms: u64,
    /// At how many bytes of the journal it is begun anew, from 1,048,576 to 1,073,741,824; 16,777,216 by default.
    pub rotate_bytes: u64,
}

/// Why there are no settings.
#[derive(Clone, Copy, Debug, PartialEq, Eq, Error)]
pub enum SettingsError {
    /// The bytes are no TOML table, or a key isn't known, or a value is of the wrong type or out of its range.
    #[error("the settings are no TOML table of known keys with values in their ranges")]
    Bad,
    /// Memory was wanting.
    #[error("out of memory")]
    Memory,
}

/// The settings of a settings file with these bytes. A key that is left out has its default.
///
/// `Bad` exactly where the bytes are no TOML table, or a key isn't known, or a value is of the wrong type or out of its
/// range.
pub fn read_settings(alloc: Global, bytes: &[u8]) -> Result<Settings, SettingsError>
    ensures set { IfOk result (IsSetBy bytes.now) }
    ensures bad { result ≡ Err SettingsError.Bad → AreBad bytes.now }
{
    let table = match toml::table_from_slice(alloc, bytes) {
        Ok(table) => table,
        Err(error) => {
            if error.is_memory() {
                return Err(SettingsError::Memory);
            }
            return Err(SettingsError::Bad);
        }
    };
    match settings_of(&table) {
        Some(settings) => Ok(settings),
        None => Err(SettingsError::Bad),
    }
}

/// The settings that the table sets.
fn settings_of(table: &Table) -> Option<Settings>
    ensures { MatchOption result ((s : Settings) → ¬ (Sets (table_view table.now) s)) (Sets (table_view table.now)) }
{
    if !are_known(table) {
        return None;
    }
    let workers = number_at(table, "workers", 1, 16, 1)?;
    let propagate_ms = number_at(table, "propagate_ms", 0, 86_400_000, 0)?;
    let clock = clock_at(table)?;
    let start_ms = number_at(table, "start_ms", 0, 253_402_300_799_000, 0)?;
    let lru_high = number_at(table, "lru_high", 1, 1_000_000, 10_000)?;
    let lru_low = number_at(table, "lru_low", 0, lru_high, lru_high.min(9_000))?;
    let lru_cycle_ms = number_at(table, "lru_cycle_ms", 1_000, 86_400_000, 60_000)?;
    let rotate_bytes = number_at(table, "rotate_bytes", 1_048_576, 1_073_741_824, 16_777_216)?;
    Some(Settings {
        workers,
        propagate_ms,
        clock,
        start_ms,
        lru_high,
        lru_low,
        lru_cycle_ms,
        rotate_bytes,
    })
}

/// Whether each key of the table is one that there is.
fn are_known(table: &Table) -> bool
    ensures { result ≡ are_known (table_view table.now) }
{
    has_known_keys(table)
}

// The same, of the stored keys.
fn has_known_keys(table: &Table) -> bool
    ensures { result ≡ list_all (λ key. is_known (string_bytes key)) (keys_of table.now.entries) }
{
    table.keys().all(|key| is_known(key.as_str()))
}

/// Whether there is such a key.
fn is_known(key: &str) -> bool
    ensures { result ≡ is_known key.now }
{
    key == "workers"
        || key == "propagate_ms"
        || key == "clock"
        || key == "start_ms"
        || key == "lru_high"
        || key == "lru_low"
        || key == "lru_cycle_ms"
        || key == "rotate_bytes"
}

/// The number at the key, where it is an integer between the bounds; without the key the default.
fn number_at(table: &Table, key: &str, least: u64, greatest: u64, default: u64) -> Option<u64>
    ensures { MatchOption result ((n : ℕ) → ¬ (SetsNumber (table_view table.now) key.now least greatest default n))
        (SetsNumber (table_view table.now) key.now least greatest default) }
{
    match table.get(key) {
        Some(value) => number_in(value, least, greatest),
        None => Some(default),
    }
}

/// The number, where the value is an integer between the bounds.
fn number_in(value: &Value, least: u64, greatest: u64) -> Option<u64>
    ensures { MatchOption result ((n : ℕ) → ¬ (IsNumber (view value.now) least greatest n))
        (IsNumber (view value.now) least greatest) }
{
    let Some(number) = value.as_integer() else {
        return None;
    };
    if number < 0 {
        return None;
    }
    let number = number as u64;
    if number < least || number > greatest {
        return None;
    }
    Some(number)
}

/// The clock at its key; without the key the script's.
fn clock_at(table: &Table) -> Option<ClockSource>
    ensures { MatchOption result ((clock : ClockSource)
        → ¬ (ClockOr (get_member (codes "clock") (table_view table.now)) clock))
        (ClockOr (get_member (codes "clock") (table_view table.now))) }
{
    match table.get("clock") {
        Some(value) => clock_in(value),
        None => Some(ClockSource::Script),
    }
}

/// The clock that the value names.
fn clock_in(value: &Value) -> Option<ClockSource>
    ensures { MatchOption result ((clock : ClockSource) → ¬ (IsClock (view value.now) clock))
        (IsClock (view value.now)) }
{
    let Some(word) = value.as_str() else {
        return None;
    };
    if word == "script" {
        return Some(ClockSource::Script);
    }
    if word == "system" {
        return Some(ClockSource::System);
    }
    None
}

/// A settings file without bytes sets the defaults, and no file sets two different settings.
pub fn settings_law()
    ensures empty { IsSetBy [] defaults }
    ensures one { (bytes : List ℕ) (s t : Settings) → IsSetBy bytes s → IsSetBy bytes t → s ≡ t }
{}
