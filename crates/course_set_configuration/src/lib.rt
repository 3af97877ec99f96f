// The course of a set configuration: all endpoints stopped and dropped, the device switched, the routes taken out, the controller told.
#![tactic(auto)]

mod held;
mod run;

pub use run::{SettingsArgs, run_set_configuration};
