// Ring addresses: nonzero multiples of 16, distinct; and the rings given to a slot.
#![tactic(auto)]

mod store;

ghost use Rattle.std.specs.Prelude.{◌≡◌, true, ◌&&◌, length};
ghost use Rattle.laws.specs.Distinct.{distinct};
ghost use Rattle.record_ring.specs.Rings.{ring_ok, rings_ok, not_among};
ghost use Rattle.record_ring.specs.Struck.{PlaceIn};

pub use store::{Free, GIVEN_ROOM, GivenRings, all_among, free_rings, given_fit, least};

// How many rings a record may have: live, control's and quarantined.
pub const RING_ROOM: usize = 61;

pub fn ring_ok(ring: u64) -> bool
    ensures { result ≡ ring_ok ring }
{
    if ring == 0 {
        return false;
    }
    ring % 16 == 0
}

// Where a ring stands from an index on. A loop: `position` after `skip(from)` takes 9 instructions more for each ring sought, after
// `get(from..)` 3 more, and every call seeks each ring of its record.
fn place_from(rings: &[u64], from: usize, ring: u64) -> Option<usize>
    ensures { PlaceIn rings.now from ring result }
{
    for i in from..rings.len() {
        if rings[i] == ring {
            return Some(i);
        }
    }
    None
}

// Whether rings rise from one to the next, and are nonzero multiples of 16: then they fit.
fn rings_rise(rings: &[u64]) -> bool
    ensures { result ≡ true → (rings_ok rings.now && distinct rings.now) ≡ true }
{
    let mut last = 0;
    for &ring in rings {
        if ring <= last || ring % 16 != 0 {
            return false;
        }
        last = ring;
    }
    true
}

// Whether rings in any order are distinct nonzero multiples of 16. A loop: `all` over the same `enumerate()` has the same body in a closure,
// to which the bound of `i + 1` would have to be given.
fn rings_apart(rings: &[u64]) -> bool
    ensures { result ≡ (rings_ok rings.now && distinct rings.now) }
{
    for (i, &ring) in rings.iter().enumerate() {
        if !ring_ok(ring) || rings[i + 1..].contains(&ring) {
            return false;
        }
    }
    true
}

// Whether rings are distinct nonzero multiples of 16: one walk where they rise.
pub fn rings_fit(rings: &[u64]) -> bool
    ensures { result ≡ (rings_ok rings.now && distinct rings.now) }
{
    if rings_rise(rings) {
        return true;
    }
    rings_apart(rings)
}

// How many of some rings are not among others.
pub fn count_not_among(others: &[u64], rings: &[u64]) -> usize
    ensures { result ≡ length (not_among others.now rings.now) }
{
    rings.iter().filter(|&ring| !others.contains(ring)).count()
}
