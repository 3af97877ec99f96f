// The claim of an interface's alternate setting. Its parameters are those of the C interface.
ghost use Rattle.device.specs.Claim.{claim};
ghost use Rattle.device_image.specs.Image.{decode, is_image};
ghost use Rattle.xhci_device.specs.Crossed.{crosses, CrossedAs};

use super::returned;
use answer::Answered;

pub fn xhci_device_claim(
    image: &mut [u64],
    ctx: &mut [u8],
    routes: &mut [u64],
    log: &mut [u32],
    outcomes: &[u8],
    interface: u8,
    alternate: u8,
) -> Answered
    ensures { CrossedAs (crosses result image.new ctx.new routes.new log.new) (is_image image.old)
        (claim (decode image.old) ctx.old routes.old log.old outcomes.now
        interface alternate)
        image.old ctx.old routes.old log.old }
{
    let d = device_image::decode(image);
    let called = d.claim(ctx, routes, log, outcomes, interface, alternate);
    returned::finish(&called, image)
}
