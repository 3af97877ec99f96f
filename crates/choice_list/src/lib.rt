// Settings for a wanted polling period, chosen of a descriptor list.
#![tactic(auto)]

mod candidate;
mod chosen;
mod names;

pub use chosen::{Chosen, choose_in, refused};
