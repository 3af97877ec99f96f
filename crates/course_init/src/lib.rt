// The course of a bring-up after its checks, with control's route registered: `Device::init` of the original.
#![tactic(auto)]

mod list;
mod run;

pub use list::count_words;
pub use run::{BringUpArgs, InitEnd, address};
