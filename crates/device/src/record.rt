// The record.
ghost use Rattle.std.specs.Prelude.{◌≡◌};
ghost use Rattle.device.specs.Device.{no_device};

use answer::Answer;
use def::SlotId;
use descriptor_list::LIST_ROOM;
use record_endpoint::{Endpoint, Handle, PLACES};
use record_ring::{GIVEN_ROOM, RING_ROOM};
use record_settings::HELD_ROOM;

// 01 asks for a struct by value with its arrays beside their counts.
#[derive(Clone, Copy)]
pub struct Device {
    // 01's mark: false after 14, 15, every refused bring-up and an accepted unplugging.
    pub usable: bool,
    // true from an accepted bring-up to an accepted unplugging
    pub up: bool,
    pub slot: SlotId,
    // N, the number of slots that the route table serves
    pub max_slots: u8,
    pub spacing: usize,
    pub port_speed: u8,
    // Whether a configuration value was read or set. No Option: the image has a word for each, and a value beside 0 goes back as it came.
    pub configured: bool,
    pub current_config_value: u8,
    pub list: [u32; LIST_ROOM],
    pub list_len: usize,
    pub eps: [Endpoint; PLACES],
    pub ep_interfaces: [u8; PLACES],
    pub ep_count: usize,
    pub interfaces: [u8; HELD_ROOM],
    pub alternates: [u8; HELD_ROOM],
    pub held_count: usize,
    pub control: u64,
    pub control_handle: Handle,
    pub quarantined: [u64; RING_ROOM],
    pub quarantined_count: usize,
    // the rings given at bring-up
    pub given: [u64; GIVEN_ROOM],
    pub given_count: usize,
}

// What a call hands back: the record, the answer, and how many words it logged.
#[derive(Clone, Copy)]
pub struct Called {
    pub device: Device,
    pub answer: Answer,
    pub count: usize,
}

// Unusable and otherwise empty: what a refused bring-up hands back, and what words say that are no record.
#[tactic(auto, unfolding(crate::specs::Device::no_device))]
pub fn no_device() -> Device
    ensures { result ≡ no_device }
{
    let blank = Endpoint {
        address: 0,
        ring: 0,
        handle: Handle::Active,
    };
    Device {
        usable: false,
        up: false,
        slot: SlotId(0),
        max_slots: 0,
        spacing: 0,
        port_speed: 0,
        configured: false,
        current_config_value: 0,
        list: [0; LIST_ROOM],
        list_len: 0,
        eps: [blank; PLACES],
        ep_interfaces: [0; PLACES],
        ep_count: 0,
        interfaces: [0; HELD_ROOM],
        alternates: [0; HELD_ROOM],
        held_count: 0,
        control: 0,
        control_handle: Handle::Active,
        quarantined: [0; RING_ROOM],
        quarantined_count: 0,
        given: [0; GIVEN_ROOM],
        given_count: 0,
    }
}
