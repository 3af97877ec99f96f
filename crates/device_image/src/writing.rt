// The words of a record.
ghost use Rattle.std.specs.Prelude.{◌≡◌, ℕ, map, ◌+◌, ◌≤◌, length};
ghost use Rattle.std.proofs.lemmas.List.Edits.{sets};
ghost use Rattle.record_endpoint.specs.Order.{PLACES};
ghost use Rattle.device_image.specs.Layout.{EP-REVOKED, EP-ADDRESSES, EP-INTERFACES, EP-RINGS, WORDS};
ghost use Rattle.device_image.specs.Image.{handle_word, address_word, ring_word, FixedIn, stored};
ghost use Rattle.device_image.specs.Fits.{Fits};

use super::layout;
use device::Device;
use record_endpoint::Endpoint;

// What a function says of elements, put over the words from one on.
fn put<T: Copy, F: Fn(T) -> u64>(image: &mut [u64], from: usize, elements: &[T], word: F)
    requires room { from + length elements.now ≤ length image.old }
    requires may { F.IsAlwaysCallable word }
    ensures { (said : T → ℕ) → ((x : T) (w : ℕ) → F.post word x w → w ≡ said x) → image.new ≡ sets image.old from (map said elements.now) }
{
    for (i, x) in elements.iter().enumerate() {
        image[from + i] = word(*x);
    }
}

fn put_endpoints(image: &mut [u64], eps: &[Endpoint], owners: &[u8])
    requires { (length image.old ≡ WORDS) × (length eps.now ≡ PLACES) × (length owners.now ≡ PLACES) }
    ensures { image.new ≡ sets (sets (sets (sets image.old
        EP-REVOKED (map handle_word eps.now)) EP-ADDRESSES (map address_word eps.now)) EP-INTERFACES owners.now) EP-RINGS (map ring_word eps.now) }
{
    put(image, layout::EP_REVOKED, eps, |e| e.handle as u64);
    put(image, layout::EP_ADDRESSES, eps, |e| e.address as u64);
    put(image, layout::EP_INTERFACES, owners, |owner| owner as u64);
    put(image, layout::EP_RINGS, eps, |e| e.ring);
}

// All but the list and the given rings, which no call on a record changes. A buffer of another length is left as it is.
pub fn update(d: Device, image: &mut [u64])
    ensures { (FixedIn d image.old → image.new ≡ stored d image.old)
        × (length image.old ≡ WORDS → Fits d) }
{
    if image.len() != layout::WORDS {
        return;
    }
    put_endpoints(image, &d.eps, &d.ep_interfaces);
    put(image, layout::INTERFACES, &d.interfaces, |n| n as u64);
    put(image, layout::ALTERNATES, &d.alternates, |n| n as u64);
    image[layout::QUARANTINED..layout::UP].copy_from_slice(&d.quarantined);
    image[layout::USABLE] = d.usable as u64;
    image[layout::CONFIGURED] = d.configured as u64;
    image[layout::CONTROL_REVOKED] = d.control_handle as u64;
    image[layout::SLOT] = d.slot.0 as u64;
    image[layout::MAX_SLOTS] = d.max_slots as u64;
    image[layout::PORT_SPEED] = d.port_speed as u64;
    image[layout::CURRENT_CONFIG_VALUE] = d.current_config_value as u64;
    image[layout::SPACING] = d.spacing as u64;
    image[layout::LIST_LEN] = d.list_len as u64;
    image[layout::EP_COUNT] = d.ep_count as u64;
    image[layout::HELD_COUNT] = d.held_count as u64;
    image[layout::QUARANTINED_COUNT] = d.quarantined_count as u64;
    image[layout::CONTROL] = d.control;
    image[layout::UP] = d.up as u64;
    image[layout::GIVEN_COUNT] = d.given_count as u64;
}

// A buffer of another length is left as it is. The image holds the record whole, since its numbers are of their types.
pub fn encode(d: Device, image: &mut [u64])
    ensures { (image.new ≡ stored d image.old) × (length image.old ≡ WORDS → Fits d) }
{
    if image.len() != layout::WORDS {
        return;
    }
    put(image, layout::LIST, &d.list, |w| w as u64);
    image[layout::GIVEN..layout::WORDS].copy_from_slice(&d.given);
    update(d, image);
}
