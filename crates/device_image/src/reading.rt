// The record that an image says.
ghost use Rattle.std.specs.Prelude.{◌≡◌, true};
ghost use Rattle.device_image.specs.Image.{endpoints_in, is_image, decode};

use super::{layout, test};
use def::SlotId;
use device::Device;
use record_endpoint::{Endpoint, Endpoints, Handle};

// The endpoints, their owners and how many there are.
fn endpoints_in(image: &[u64]) -> Endpoints
    requires { is_image image.now ≡ true }
    ensures { result ≡ endpoints_in image.now }
{
    Endpoints {
        eps: std::array::from_fn(|i| Endpoint {
            address: image[layout::EP_ADDRESSES + i] as u8,
            ring: image[layout::EP_RINGS + i],
            handle: Handle::from(image[layout::EP_REVOKED + i] == 0),
        }),
        owners: std::array::from_fn(|i| image[layout::EP_INTERFACES + i] as u8),
        count: image[layout::EP_COUNT] as usize,
    }
}

// Words that are no image say no device. No Option: a call refuses a record of slot 0 as it does any other that is not sound.
#[tactic(auto, using(crate::proofs::Steps::image_length))]
pub fn decode(image: &[u64]) -> Device
    ensures { result ≡ decode image.now }
{
    if !test::is_image(image) {
        return device::no_device();
    }
    let Endpoints { eps, owners, count } = endpoints_in(image);
    Device {
        usable: image[layout::USABLE] != 0,
        slot: SlotId(image[layout::SLOT] as u8),
        max_slots: image[layout::MAX_SLOTS] as u8,
        spacing: image[layout::SPACING] as usize,
        port_speed: image[layout::PORT_SPEED] as u8,
        configured: image[layout::CONFIGURED] != 0,
        current_config_value: image[layout::CURRENT_CONFIG_VALUE] as u8,
        list: std::array::from_fn(|i| image[layout::LIST + i] as u32),
        list_len: image[layout::LIST_LEN] as usize,
        eps: eps,
        ep_interfaces: owners,
        ep_count: count,
        interfaces: std::array::from_fn(|i| image[layout::INTERFACES + i] as u8),
        alternates: std::array::from_fn(|i| image[layout::ALTERNATES + i] as u8),
        held_count: image[layout::HELD_COUNT] as usize,
        control: image[layout::CONTROL],
        control_handle: Handle::from(image[layout::CONTROL_REVOKED] == 0),
        quarantined: std::array::from_fn(|i| image[layout::QUARANTINED + i]),
        quarantined_count: image[layout::QUARANTINED_COUNT] as usize,
        up: image[layout::UP] != 0,
        given: std::array::from_fn(|i| image[layout::GIVEN + i]),
        given_count: image[layout::GIVEN_COUNT] as usize,
    }
}
