// The rings of a claim, and what they make of the endpoints.
ghost use Rattle.std.specs.Prelude.{◌≡◌};
ghost use Rattle.record_endpoint.specs.EndpointMap.{pending_rings, claimed_endpoints, QueuesAs};

use super::endpoint_map::{EndpointMap, Owner};
use super::order;
use super::order::PLACES;
use super::queues::Queues;

// Rings by place as queues.
pub fn queues_of(by: [u64; PLACES]) -> Queues
    ensures { QueuesAs result by }
{
    let mut dcis = [0; PLACES];
    let mut rings = [0; PLACES];
    let mut n = 0;
    for p in 0..PLACES {
        if by[p] != 0 {
            // Twice the number, and 1 more for IN.
            dcis[n] = (2 * (p % 15 + 1) + p / 15) as u8;
            rings[n] = by[p];
            n += 1;
        }
    }
    Queues {
        dcis,
        rings,
        count: n,
    }
}

// The rings drawn for endpoint words, by place: of a repeated address the last word's, 0 where there is none.
pub fn pending_rings(words: &[u64], rings: &[u64]) -> [u64; PLACES]
    ensures { result ≡ pending_rings words.now rings.now }
{
    let mut by = [0; PLACES];
    for (i, &word) in words.iter().enumerate() {
        let e = descriptor::endpoint_descriptor(word);
        if let Some(place) = order::place_of(e.address) {
            by[place] = rings.get(i).copied().unwrap_or(0);
        }
    }
    by
}

// The endpoints after a claim of an interface: a pending ring is its own, active; without one an endpoint of its own is gone. With no
// ring pending, after its release.
pub fn claimed_endpoints(interface: u8, pending: [u64; PLACES], mut c: EndpointMap) -> EndpointMap
    ensures { result ≡ claimed_endpoints interface pending c }
{
    for p in 0..PLACES {
        if pending[p] != 0 {
            c.rings[p] = pending[p];
            c.owners[p] = interface;
            c.active[p] = true;
        } else if c.is_owned(Owner::Interface(interface), p) {
            c.rings[p] = 0;
            c.owners[p] = 0;
            c.active[p] = false;
        }
    }
    c
}
