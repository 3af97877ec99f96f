// Whether the fields and lists of a record are sound.
ghost use Rattle.std.specs.Prelude.{◌≡◌, ◌≤◌, length};
ghost use Rattle.descriptor_list.specs.Valid.{LIST-ROOM};
ghost use Rattle.descriptor_list.specs.Companions.{joined};
ghost use Rattle.record_endpoint.specs.EndpointMap.{endpoint_map_of};
ghost use Rattle.record_endpoint.specs.Endpoint.{addresses};
ghost use Rattle.record_settings.specs.Held.{held_by};
ghost use Rattle.record_checks.specs.Sound.{sound_slot, sound_counts, lists_match, sound_lists};

use descriptor_list::LIST_ROOM;
use record_endpoint::{Endpoint, PLACES};
use record_ring::{GIVEN_ROOM, RING_ROOM};
use record_settings::{HELD_ROOM, Settings};

pub fn slot_sound(slot: u8, max_slots: u8, spacing: usize, speed: u8) -> bool
    ensures { result ≡ sound_slot slot max_slots spacing speed }
{
    1 <= slot && slot <= max_slots && matches!(spacing, 32 | 64) && def::speed_known(speed)
}

pub fn counts_fit(
    words: usize,
    endpoints: usize,
    held: usize,
    quarantined: usize,
    given: usize,
) -> bool
    ensures { result ≡ sound_counts words endpoints held quarantined given }
{
    words <= LIST_ROOM
        && endpoints <= PLACES
        && held <= HELD_ROOM
        && quarantined <= RING_ROOM
        && given <= GIVEN_ROOM
}

// The list, and beside it the endpoints with their owners and the held settings.
pub fn lists_sound(
    list: &[u32],
    speed: u8,
    settings: &Settings,
    eps: &[Endpoint],
    owners: &[u8],
) -> bool
    ensures { result ≡ sound_lists speed list.now (held_by settings.now) (addresses eps.now) (endpoint_map_of (length eps.now) eps.now owners.now) }
{
    descriptor_list::valid_at(list, speed) && beside_list(list, settings, eps, owners)
}

#[inline(never)]
fn beside_list(list: &[u32], settings: &Settings, eps: &[Endpoint], owners: &[u8]) -> bool
    requires { length list.now ≤ LIST-ROOM }
    ensures { result ≡ lists_match (joined list.now) (held_by settings.now) (addresses eps.now) (endpoint_map_of (length eps.now) eps.now owners.now) }
{
    let mut words = [0; LIST_ROOM];
    let count = descriptor_list::join(list, &mut words);
    lists_match(&words[..count], settings, eps, owners)
}

// The same of joined words.
fn lists_match(list: &[u64], settings: &Settings, eps: &[Endpoint], owners: &[u8]) -> bool
    ensures { result ≡ lists_match list.now (held_by settings.now) (addresses eps.now) (endpoint_map_of (length eps.now) eps.now owners.now) }
{
    settings.are_sound(list)
        && record_endpoint::addresses_fit(eps)
        && record_settings::endpoints_match(
            list,
            settings,
            record_endpoint::endpoint_map_of(eps, owners),
        )
}
