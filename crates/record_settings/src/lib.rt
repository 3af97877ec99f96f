// The settings that a record holds, and whether its endpoints are theirs (device.rs of the original).
#![tactic(auto)]

mod held;
mod lookup;
mod matching;
mod words;

pub use held::{HELD_ROOM, Settings};
pub use lookup::setting_words;
pub use matching::{endpoints_match, validate_endpoint_addresses};
pub use words::SettingWords;
