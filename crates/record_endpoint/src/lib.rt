// The endpoints and owners of a record, and the rings of a claim (device.rs and ty/ep/mod.rs of the original).
#![tactic(auto)]

mod array;
mod endpoint_map;
mod entry;
mod order;
mod pending;
mod queues;

pub use array::padded;
pub use endpoint_map::{
    EndpointMap, Owner, endpoint_map_of, no_endpoints, owned_rings, with_active,
};
pub use entry::{Endpoint, Endpoints, Handle, addresses_fit, endpoints_of};
pub use order::{PLACES, place_of};
pub use pending::{claimed_endpoints, pending_rings, queues_of};
pub use queues::Queues;
