// The calls on a slot, but for the claim in two steps. The parameters are those of the C interface.
ghost use Rattle.std.specs.Prelude.{eqb, length};
ghost use Rattle.device.specs.Claim.{claim};
ghost use Rattle.device.specs.Release.{release};
ghost use Rattle.device.specs.SetConfiguration.{set_configuration};
ghost use Rattle.device.specs.Calls.{hub_update};
ghost use Rattle.device.specs.Disconnect.{disconnect};
ghost use Rattle.device_bring_up.specs.BringUp.{bring_up};
ghost use Rattle.device_image.specs.Layout.{WORDS};
ghost use Rattle.device_image.specs.Image.{decode, is_image, is_set};
ghost use Rattle.xhci_device.specs.Parent.{parent_of};
ghost use Rattle.xhci_device.specs.Crossed.{crosses, CrossedAs};

use xhci_device::Answered;

#[unsafe(no_mangle)]
pub extern "C" fn xhci_device_bring_up(
    image: &mut [u64],
    ctx: &mut [u8],
    routes: &mut [u64],
    log: &mut [u32],
    outcomes: &[u8],
    rings: &[u64],
    hubs: &[u64],
    list: &[u32],
    slot: u8,
    max_slots: usize,
    speed: u8,
    has_parent: u8,
    parent: usize,
    port: u8,
    root_port: u8,
    header: usize,
    packet: u8,
    value: u8,
) -> Answered
    ensures { CrossedAs (crosses result image.new ctx.new routes.new log.new)
        (eqb (length image.old) WORDS)
        (bring_up (record {
          slot = slot;
          max_slots = max_slots;
          speed = speed;
          hubs = hubs.now;
          parent = parent_of has_parent parent;
          port = port;
          root_port = root_port;
          rings = rings.now;
          header = header;
          packet = packet;
          value = value;
          list = list.now;
        })
        ctx.old routes.old log.old outcomes.now)
        image.old ctx.old routes.old log.old }
{
    xhci_device::xhci_device_bring_up(
        image, ctx, routes, log, outcomes, rings, hubs, list, slot, max_slots, speed, has_parent,
        parent, port, root_port, header, packet, value,
    )
}

#[unsafe(no_mangle)]
pub extern "C" fn xhci_device_claim(
    image: &mut [u64],
    ctx: &mut [u8],
    routes: &mut [u64],
    log: &mut [u32],
    outcomes: &[u8],
    interface: u8,
    alternate: u8,
) -> Answered
    ensures { CrossedAs (crosses result image.new ctx.new routes.new log.new) (is_image image.old)
        (claim (decode image.old) ctx.old routes.old log.old outcomes.now
        interface alternate)
        image.old ctx.old routes.old log.old }
{
    xhci_device::xhci_device_claim(image, ctx, routes, log, outcomes, interface, alternate)
}

#[unsafe(no_mangle)]
pub extern "C" fn xhci_device_release(
    image: &mut [u64],
    ctx: &mut [u8],
    routes: &mut [u64],
    log: &mut [u32],
    outcomes: &[u8],
    interface: u8,
) -> Answered
    ensures { CrossedAs (crosses result image.new ctx.new routes.new log.new) (is_image image.old)
        (release (decode image.old) ctx.old routes.old log.old outcomes.now interface)
        image.old ctx.old routes.old log.old }
{
    xhci_device::xhci_device_release(image, ctx, routes, log, outcomes, interface)
}

#[unsafe(no_mangle)]
pub extern "C" fn xhci_device_set_configuration(
    image: &mut [u64],
    ctx: &mut [u8],
    routes: &mut [u64],
    log: &mut [u32],
    outcomes: &[u8],
    value: u8,
) -> Answered
    ensures { CrossedAs (crosses result image.new ctx.new routes.new log.new) (is_image image.old)
        (set_configuration (decode image.old) ctx.old routes.old log.old outcomes.now value)
        image.old ctx.old routes.old log.old }
{
    xhci_device::xhci_device_set_configuration(image, ctx, routes, log, outcomes, value)
}

#[unsafe(no_mangle)]
pub extern "C" fn xhci_device_hub_update(
    image: &mut [u64],
    ctx: &mut [u8],
    routes: &mut [u64],
    log: &mut [u32],
    outcomes: &[u8],
    ports: u8,
    multi: u8,
    ns: u32,
) -> Answered
    ensures { CrossedAs (crosses result image.new ctx.new routes.new log.new) (is_image image.old)
        (hub_update (decode image.old) ctx.old routes.old log.old outcomes.now
        ports (is_set multi) ns)
        image.old ctx.old routes.old log.old }
{
    xhci_device::xhci_device_hub_update(image, ctx, routes, log, outcomes, ports, multi, ns)
}

#[unsafe(no_mangle)]
pub extern "C" fn xhci_device_disconnect(
    image: &mut [u64],
    ctx: &mut [u8],
    routes: &mut [u64],
    log: &mut [u32],
    outcomes: &[u8],
) -> Answered
    ensures { CrossedAs (crosses result image.new ctx.new routes.new log.new) (is_image image.old)
        (disconnect (decode image.old) ctx.old routes.old log.old outcomes.now)
        image.old ctx.old routes.old log.old }
{
    xhci_device::xhci_device_disconnect(image, ctx, routes, log, outcomes)
}
