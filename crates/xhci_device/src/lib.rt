// The calls that crates/xhci_device_c exports to C: the record as an image in a buffer that the caller lends. There is a function here for each
// export, since a crate is a library or an archive.
#![tactic(auto)]

mod ask;
mod choose;
mod claim;
mod disconnect;
mod hub_update;
mod log_word;
mod new_record;
mod record;
mod release;
mod returned;
mod set_configuration;
mod sound;
mod why;

pub use answer::Answered;
pub use ask::{Shown, xhci_device_ask, xhci_device_commit};
pub use choice_list::Chosen;
pub use choose::xhci_device_choose;
pub use claim::xhci_device_claim;
pub use device_image::WORDS;
pub use disconnect::xhci_device_disconnect;
pub use hub_update::xhci_device_hub_update;
pub use log_word::xhci_device_command_of;
pub use new_record::xhci_device_bring_up;
pub use record::{xhci_device_is_up, xhci_device_is_usable, xhci_device_record_words};
pub use release::xhci_device_release;
pub use set_configuration::xhci_device_set_configuration;
pub use sound::xhci_device_is_sound;
pub use why::{Why, xhci_device_why};
