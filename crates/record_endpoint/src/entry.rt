// The endpoint and owner arrays of a record, beside their count.
ghost use Rattle.std.specs.Prelude.{◌≡◌};
ghost use Rattle.record_endpoint.specs.Endpoint.{addresses, addresses_fit};
ghost use Rattle.record_endpoint.specs.EndpointMap.{EndpointsAs, handle_of, is_active};

use super::endpoint_map::EndpointMap;
use super::order;
use super::order::PLACES;

// Whether transfers may be submitted to an endpoint.
#[derive(Clone, Copy, PartialEq, Eq)]
pub enum Handle {
    Active,
    Revoked,
}

impl From<bool> for Handle {
    ghost from_gives = { λ active handle. handle ≡ handle_of active };

    fn from(active: bool) -> Handle {
        if active {
            Handle::Active
        } else {
            Handle::Revoked
        }
    }
}

impl Handle {
    pub fn is_active(self) -> bool
        ensures { result ≡ is_active self }
    {
        self == Handle::Active
    }
}

#[derive(Clone, Copy)]
pub struct Endpoint {
    pub address: u8,
    pub ring: u64,
    pub handle: Handle,
}

// The arrays and the count of the record: arrays beside their count, since the layer has no heap.
#[derive(Clone, Copy)]
pub struct Endpoints {
    pub eps: [Endpoint; PLACES],
    pub owners: [u8; PLACES],
    pub count: usize,
}

// The arrays of a map of endpoints, by rising address, blank past the count.
pub fn endpoints_of(c: EndpointMap) -> Endpoints
    ensures { EndpointsAs result c }
{
    let mut eps = [Endpoint {
        address: 0,
        ring: 0,
        handle: Handle::Active,
    }; PLACES];
    let mut owners = [0; PLACES];
    let mut n = 0;
    for p in 0..PLACES {
        if c.rings[p] != 0 {
            // Numbers 1 to 15 of each direction; IN addresses have the top bit.
            eps[n] = Endpoint {
                address: (128 * (p / 15) + p % 15 + 1) as u8,
                ring: c.rings[p],
                handle: Handle::from(c.active[p]),
            };
            owners[n] = c.owners[p];
            n += 1;
        }
    }
    Endpoints {
        eps,
        owners,
        count: n,
    }
}

// Whether each endpoint has an address that an endpoint can have, and no two the same.
pub fn addresses_fit(eps: &[Endpoint]) -> bool
    ensures { result ≡ addresses_fit (addresses eps.now) }
{
    let mut taken = [false; PLACES];
    for e in eps {
        let Some(place) = order::place_of(e.address) else {
            return false;
        };
        if taken[place] {
            return false;
        }
        taken[place] = true;
    }
    true
}
