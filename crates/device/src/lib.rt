// The record of a device and the calls on it (device.rs of the original, and the lifecycle of src/device.rs above it).
// Context, routes, log and outcomes stay four parameters of each call, as C lends them: a struct of them would be made anew at each call
// and taken apart again, since a course's parts are given some of them only.
#![tactic(auto)]

mod ask;
mod check;
mod claim;
mod disconnect;
mod endpoint_map;
mod hub_update;
mod lists;
mod record;
mod release;
mod set_configuration;
mod sound;
mod update;

pub use ask::{Asked, Preview};
pub use record::{Called, Device, no_device};
