// What Address, Evaluate and Configure are given: the code that writes an input context at either spacing.
// A slice and its spacing stay two parameters, and each function says `Spaced` of them: document 01 lends `&mut ctx[a..a + 32]`, and
// the courses have the two apart, so a struct of both would be made anew at each of their calls.
#![tactic(auto)]

mod address;
mod configure;
mod evaluate;

pub use address::{address_context, setup_max_packet};
pub use configure::{
    add_endpoints, begin_configure, drop_endpoints, finish_configure, highest_added,
    highest_staying, prepare_configure_context,
};
pub use evaluate::{configuration_context, hub_context};
