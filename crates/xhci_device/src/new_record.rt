// The bring-up of a slot, which makes its record. The parameters are those of the C interface.
ghost use Rattle.std.specs.Prelude.{◌≡◌, eqb, length};
ghost use Rattle.course_init.specs.Reading.{bring_up_of};
ghost use Rattle.device_bring_up.specs.BringUp.{bring_up};
ghost use Rattle.device_image.specs.Layout.{WORDS};
ghost use Rattle.xhci_device.specs.Parent.{parent_of};
ghost use Rattle.xhci_device.specs.Crossed.{crosses, CrossedAs};

use answer::{Answer, Answered};
use def::SlotId;
use device_bring_up::BringUpArgs;

// The image may hold anything; it gets the new record.
fn bring_up_into(
    image: &mut [u64],
    ctx: &mut [u8],
    routes: &mut [u64],
    log: &mut [u32],
    outcomes: &[u8],
    a: BringUpArgs,
    rings: &[u64],
    hubs: &[u64],
    list: &[u32],
) -> Answered
    ensures { CrossedAs (crosses result image.new ctx.new routes.new log.new)
        (eqb (length image.old) WORDS)
        (bring_up (bring_up_of a rings.now hubs.now list.now) ctx.old routes.old log.old
        outcomes.now)
        image.old ctx.old routes.old log.old }
{
    if image.len() != device_image::WORDS {
        return answer::answered_of(Answer::Unusable, 0);
    }
    let called = device_bring_up::bring_up(ctx, routes, log, outcomes, a, rings, hubs, list);
    device_image::encode(called.device, image);
    answer::answered_of(called.answer, called.count)
}

// C gives a parent as a flag and a number.
#[tactic(auto, unfolding(crate::specs::Parent::parent_of, device_image::specs::Image::is_set))]
fn parent_of(has_parent: u8, parent: usize) -> Option<usize>
    ensures { result ≡ parent_of has_parent parent }
{
    if has_parent == 0 { None } else { Some(parent) }
}

pub fn xhci_device_bring_up(
    image: &mut [u64],
    ctx: &mut [u8],
    routes: &mut [u64],
    log: &mut [u32],
    outcomes: &[u8],
    rings: &[u64],
    hubs: &[u64],
    list: &[u32],
    slot: u8,
    max_slots: usize,
    speed: u8,
    has_parent: u8,
    parent: usize,
    port: u8,
    root_port: u8,
    header: usize,
    packet: u8,
    value: u8,
) -> Answered
    ensures { CrossedAs (crosses result image.new ctx.new routes.new log.new)
        (eqb (length image.old) WORDS)
        (bring_up (record {
          slot = slot;
          max_slots = max_slots;
          speed = speed;
          hubs = hubs.now;
          parent = parent_of has_parent parent;
          port = port;
          root_port = root_port;
          rings = rings.now;
          header = header;
          packet = packet;
          value = value;
          list = list.now;
        })
        ctx.old routes.old log.old outcomes.now)
        image.old ctx.old routes.old log.old }
{
    let a = BringUpArgs {
        slot: SlotId(slot),
        max_slots,
        speed,
        parent: parent_of(has_parent, parent),
        port,
        root_port,
        header,
        packet,
        value,
    };
    bring_up_into(image, ctx, routes, log, outcomes, a, rings, hubs, list)
}
