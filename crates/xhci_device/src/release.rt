// The release of an interface. Its parameters are those of the C interface.
ghost use Rattle.device.specs.Release.{release};
ghost use Rattle.device_image.specs.Image.{decode, is_image};
ghost use Rattle.xhci_device.specs.Crossed.{crosses, CrossedAs};

use super::returned;
use answer::Answered;

pub fn xhci_device_release(
    image: &mut [u64],
    ctx: &mut [u8],
    routes: &mut [u64],
    log: &mut [u32],
    outcomes: &[u8],
    interface: u8,
) -> Answered
    ensures { CrossedAs (crosses result image.new ctx.new routes.new log.new) (is_image image.old)
        (release (decode image.old) ctx.old routes.old log.old outcomes.now interface)
        image.old ctx.old routes.old log.old }
{
    let d = device_image::decode(image);
    let called = d.release(ctx, routes, log, outcomes, interface);
    returned::finish(&called, image)
}
