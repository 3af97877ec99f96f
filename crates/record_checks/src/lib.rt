// What the checks of a record ask of its fields and arrays.
#![tactic(auto)]

mod draw;
mod enter;
mod lengths;
mod quarantine;
mod rings;
mod sound;
mod think;

pub use draw::{draw_check, drawn_in_order, drawn_rings};
pub use enter::enter_rings;
pub use lengths::{Lengths, lengths_check};
pub use quarantine::Quarantine;
pub use rings::rings_sound;
pub use sound::{counts_fit, lists_sound, slot_sound};
pub use think::{think_check, think_value};
