// What a call quarantines.
ghost use Rattle.std.specs.Prelude.{[], ◌∷◌, ◌++◌, ◌≤◌, length};
ghost use Rattle.record_ring.specs.Rings.{RING-ROOM, entered};
ghost use Rattle.record_endpoint.specs.Order.{PLACES};
ghost use Rattle.record_checks.specs.Rings.{QuarantinedAs};

use super::quarantine::Quarantine;

// Control's ring and the live ones enter quarantine, each that is not there already.
pub fn enter_rings(quarantined: &[u64], control: u64, live: &[u64]) -> Quarantine
    requires quarantined_len_bound { (length quarantined.now ≤ RING-ROOM) × (length live.now ≤ PLACES) }
    requires live_len_bound { length (entered [] (quarantined.now ++ (control ∷ live.now))) ≤ RING-ROOM }
    ensures { QuarantinedAs result (entered [] (quarantined.now ++ (control ∷ live.now))) }
{
    let mut all = Quarantine::NONE;
    all.enter(quarantined);
    all.enter(&[control]);
    all.enter(live);
    all
}
