//! The words and the settings with which the program is called.
#![tactic(auto)]

pub mod command;
pub mod settings;

pub use command::{Command, CommandError, forms_law, read_command};
pub use settings::{ClockSource, Settings, SettingsError, read_settings, settings_law};
