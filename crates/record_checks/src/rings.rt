// The rings of a record together.
ghost use Rattle.std.specs.Prelude.{◌≡◌, ◌&&◌, ◌∷◌, [], ◌++◌, ◌+◌, ◌≤◌, length, take};
ghost use Rattle.record_ring.specs.Rings.{RING-ROOM};
ghost use Rattle.record_ring.specs.Store.{GIVEN-ROOM};
ghost use Rattle.record_endpoint.specs.Order.{PLACES};
ghost use Rattle.record_endpoint.specs.Endpoint.{rings_of};
ghost use Rattle.record_checks.specs.Rings.{sound_rings};
ghost use Rattle.record_checks.specs.Store.{sound_store};

use record_endpoint::Endpoint;
use record_ring::RING_ROOM;

// Control's ring, and behind it those of the endpoints.
fn live_rings(eps: &[Endpoint], control: u64) -> [u64; RING_ROOM]
    requires { length eps.now ≤ PLACES }
    ensures { (length result ≡ RING-ROOM) × (take (length eps.now + 1) result ≡ control ∷ rings_of eps.now) }
{
    let mut rings = [0; RING_ROOM];
    rings[0] = control;
    for (i, e) in eps.iter().enumerate() {
        rings[i + 1] = e.ring;
    }
    rings
}

// Whether live and quarantined rings may stand together.
fn together(usable: bool, live: &[u64], kept: &[u64]) -> bool
    ensures { result ≡ sound_rings usable live.now kept.now }
{
    (!usable || kept.is_empty())
        && record_ring::rings_fit(live)
        && record_ring::rings_fit(kept)
        && live.len() + record_ring::count_not_among(live, kept) <= RING_ROOM
}

// Whether rings may be the given ones beside those in use.
fn store_sound(given: &[u64], live: &[u64], kept: &[u64]) -> bool
    ensures { result ≡ sound_store given.now live.now kept.now }
{
    record_ring::given_fit(given)
        && record_ring::all_among(live, given)
        && record_ring::all_among(kept, given)
}

// Whether the rings of endpoints, control's, quarantined and given ones may stand together.
pub fn rings_sound(
    usable: bool,
    eps: &[Endpoint],
    control: u64,
    quarantined: &[u64],
    given: &[u64],
) -> bool
    requires { length eps.now ≤ PLACES }
    ensures { result ≡ (sound_rings usable (rings_of eps.now ++ (control ∷ [])) quarantined.now
        && sound_store given.now (rings_of eps.now ++ (control ∷ [])) quarantined.now) }
{
    let rings = live_rings(eps, control);
    let live = &rings[..eps.len() + 1];
    together(usable, live, quarantined) && store_sound(given, live, quarantined)
}
