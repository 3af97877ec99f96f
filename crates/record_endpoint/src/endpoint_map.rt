// The endpoints of a record by place: what the arrays say, whatever their order.
ghost use Rattle.std.specs.Prelude.{◌≡◌, ◌<◌, length};
ghost use Rattle.record_endpoint.specs.Order.{PLACES};
ghost use Rattle.record_endpoint.specs.EndpointMap.{no_endpoints, endpoint_map_of, is_owned, owned_rings, with_active};

use super::entry::Endpoint;
use super::order;
use super::order::PLACES;

// Ring 0: no endpoint at that place, as a word 0 of the routes is no ring. Three arrays and not one of structs is plainer, since the
// rings alone go on as queues and the theorems speak of them alone.
#[derive(Clone, Copy)]
pub struct EndpointMap {
    pub rings: [u64; PLACES],
    pub owners: [u8; PLACES],
    pub active: [bool; PLACES],
}

// The endpoints of every interface, or of one. No Option: `Any` is not the absence of an interface.
#[derive(Clone, Copy)]
pub enum Owner {
    Any,
    Interface(u8),
}

pub fn no_endpoints() -> EndpointMap
    ensures { result ≡ no_endpoints }
{
    EndpointMap {
        rings: [0; PLACES],
        owners: [0; PLACES],
        active: [false; PLACES],
    }
}

// The map of endpoints and their owners.
pub fn endpoint_map_of(eps: &[Endpoint], owners: &[u8]) -> EndpointMap
    ensures { result ≡ endpoint_map_of (length eps.now) eps.now owners.now }
{
    let mut c = no_endpoints();
    for (i, e) in eps.iter().enumerate() {
        if let Some(place) = order::place_of(e.address) {
            c.rings[place] = e.ring;
            c.owners[place] = owners.get(i).copied().unwrap_or(0);
            c.active[place] = e.handle.is_active();
        }
    }
    c
}

impl EndpointMap {
    // Whether an owner has an endpoint at a place.
    pub(crate) fn is_owned(&self, who: Owner, place: usize) -> bool
        requires { place < PLACES }
        ensures { result ≡ is_owned who self.now place }
    {
        if self.rings[place] == 0 {
            return false;
        }
        match who {
            Owner::Any => true,
            Owner::Interface(i) => self.owners[place] == i,
        }
    }
}

// The rings of an owner's endpoints by place, 0 elsewhere.
pub fn owned_rings(who: Owner, c: EndpointMap) -> [u64; PLACES]
    ensures { result ≡ owned_rings who c }
{
    let mut rings = c.rings;
    for p in 0..PLACES {
        if !c.is_owned(who, p) {
            rings[p] = 0;
        }
    }
    rings
}

// Of an owner's endpoints, by rising address, the first n active and the others revoked.
pub fn with_active(who: Owner, n: usize, mut c: EndpointMap) -> EndpointMap
    ensures { result ≡ with_active who n c }
{
    let mut seen = 0;
    for p in 0..PLACES {
        if c.is_owned(who, p) {
            c.active[p] = seen < n;
            seen += 1;
        }
    }
    c
}
