// The bursts of companions.
ghost use Rattle.std.specs.Prelude.{◌≡◌};
ghost use Rattle.descriptor_raw.specs.Read.{descriptors, burst_fits, bursts_fit};

use super::cut::{Descriptor, Descriptors};
use descriptor_raw::{DescriptorKind, place};

// The highest burst that a word holds.
const HIGHEST: u8 = 15;

// Whether a descriptor is no companion's or has a burst that a word holds.
#[tactic(auto, using(crate::proofs::Judged::long_companion))]
fn burst_fits(d: Descriptor) -> bool
    ensures { result ≡ burst_fits d.entry.companions d.entry.bytes.now }
{
    if !d.companions {
        return true;
    }
    match d.kind() {
        DescriptorKind::Companion => d.bytes[place::MAX_BURST] <= HIGHEST,
        _ => true,
    }
}

// Whether all descriptors are so.
pub fn bursts_fit(all: Descriptors) -> bool
    ensures { result ≡ bursts_fit all.entry.companions (descriptors all.entry.bytes.now) }
{
    for d in all {
        if !burst_fits(d) {
            return false;
        }
    }
    true
}
