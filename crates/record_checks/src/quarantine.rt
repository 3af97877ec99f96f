// Rings that enter quarantine.
ghost use Rattle.std.specs.Prelude.{◌≡◌, ◌≤◌, take};
ghost use Rattle.record_ring.specs.Rings.{RING-ROOM};
ghost use Rattle.record_endpoint.specs.Endpoint.{padded};

use record_ring::RING_ROOM;

// Rings in quarantine: the first `count` of an array of fixed size, since the layer has no heap, zeros after them.
#[derive(Clone, Copy)]
pub struct Quarantine {
    pub rings: [u64; RING_ROOM],
    pub count: usize,
    pub ghost fits: { count ≤ RING-ROOM },
    pub ghost zeros: { rings ≡ padded RING-ROOM 0 (take count rings) },
}

impl Quarantine {
    ghost use Rattle.std.specs.Prelude.{[], ◌∷◌, ◌++◌, ◌<◌, length};
    ghost use Rattle.record_ring.specs.Rings.{entered};
    ghost use Rattle.record_checks.specs.Rings.{quarantined_by};

    pub(crate) const NONE: Quarantine = Quarantine {
        rings: [0; RING_ROOM],
        count: 0,
    };

    // One more at the end.
    fn push(&mut self, ring: u64)
        requires { self.old.count < RING-ROOM }
        ensures { quarantined_by self.new ≡ quarantined_by self.old ++ (ring ∷ []) }
    {
        self.rings[self.count] = ring;
        self.count += 1;
    }

    // Each ring enters that is not there already.
    pub(crate) fn enter(&mut self, rings: &[u64])
        requires { length (entered (quarantined_by self.old) rings.now) ≤ RING-ROOM }
        ensures { quarantined_by self.new ≡ entered (quarantined_by self.old) rings.now }
    {
        for ring in rings {
            if !self.rings[..self.count].contains(ring) {
                self.push(*ring);
            }
        }
    }
}
