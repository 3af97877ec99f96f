// The hub update. Its parameters are those of the C interface.
ghost use Rattle.device.specs.Calls.{hub_update};
ghost use Rattle.device_image.specs.Image.{is_set, decode, is_image};
ghost use Rattle.xhci_device.specs.Crossed.{crosses, CrossedAs};

use super::returned;
use answer::Answered;

pub fn xhci_device_hub_update(
    image: &mut [u64],
    ctx: &mut [u8],
    routes: &mut [u64],
    log: &mut [u32],
    outcomes: &[u8],
    ports: u8,
    multi: u8,
    ns: u32,
) -> Answered
    ensures { CrossedAs (crosses result image.new ctx.new routes.new log.new) (is_image image.old)
        (hub_update (decode image.old) ctx.old routes.old log.old outcomes.now
        ports (is_set multi) ns)
        image.old ctx.old routes.old log.old }
{
    let d = device_image::decode(image);
    let called = d.hub_update(ctx, routes, log, outcomes, ports, multi != 0, ns);
    returned::finish(&called, image)
}
