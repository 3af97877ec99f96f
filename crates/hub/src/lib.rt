// The hubs above a device: what its slot context says of them (hub/mod.rs, `address` and `update_hub_inner` of the original).
#![tactic(auto)]

mod chain;
mod hub_word;
mod route;
mod think;
mod translator;
mod way;

pub use chain::chain_ok;
pub use route::route_string;
pub use think::think_time;
pub use translator::{Translator, transaction_translator};
