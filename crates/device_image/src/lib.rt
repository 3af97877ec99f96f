// The record as words in a buffer that the caller lends.
#![tactic(auto)]

mod layout;
mod reading;
mod test;
mod writing;

pub use layout::WORDS;
pub use reading::decode;
pub use test::is_image;
pub use writing::{encode, update};
