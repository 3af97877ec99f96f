// The record of a brought up device.
ghost use Rattle.std.specs.Prelude.{◌≡◌, List, ℕ, ◌≤◌, length};
ghost use Rattle.descriptor_list.specs.Valid.{LIST-ROOM};
ghost use Rattle.record_ring.specs.Store.{GIVEN-ROOM, least};
ghost use Rattle.course_init.specs.Reading.{bring_up_of, leaves_read};
ghost use Rattle.device.specs.Left.{leaves};
ghost use Rattle.device_bring_up.specs.BringUp.{brought_left};

use answer::Answer;
use course_init::{BringUpArgs, InitEnd};
use device::Called;

// What a bring-up hands back whose course has ended: a device that holds no setting.
pub fn brought(
    a: BringUpArgs,
    spacing: usize,
    e: InitEnd,
    ring: u64,
    rings: &[u64],
    list: &[u32],
) -> Called
    requires max_slots_bound { (a.max_slots ≤ 255) × ((length list.now ≤ LIST-ROOM) × (length rings.now ≤ GIVEN-ROOM)) }
    requires ring_value { ring ≡ least rings.now }
    ensures { (hubs ctx routes log : List ℕ) → leaves result ctx routes log ≡ brought_left (bring_up_of a rings.now hubs list.now) spacing (leaves_read e list.now ctx routes log) }
{
    let words = course_init::count_words(list, e.configurations);
    let kept = record_endpoint::padded(&list[..words], 0);
    let given = record_endpoint::padded(rings, 0);
    let mut d = device::no_device();
    let accepted = e.answer == Answer::Accepted;
    d.usable = accepted;
    d.up = accepted;
    d.slot = a.slot;
    d.max_slots = a.max_slots as u8;
    d.spacing = spacing;
    d.port_speed = a.speed;
    d.configured = e.value.is_some();
    d.current_config_value = e.value.unwrap_or(0);
    d.list = kept;
    d.list_len = words;
    d.control = ring;
    d.given = given;
    d.given_count = rings.len();
    Called {
        device: d,
        answer: e.answer,
        count: e.count,
    }
}
