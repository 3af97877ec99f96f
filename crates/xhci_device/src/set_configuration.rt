// The setting of a configuration, which ends all held settings. Its parameters are those of the C interface.
ghost use Rattle.device.specs.SetConfiguration.{set_configuration};
ghost use Rattle.device_image.specs.Image.{decode, is_image};
ghost use Rattle.xhci_device.specs.Crossed.{crosses, CrossedAs};

use super::returned;
use answer::Answered;

pub fn xhci_device_set_configuration(
    image: &mut [u64],
    ctx: &mut [u8],
    routes: &mut [u64],
    log: &mut [u32],
    outcomes: &[u8],
    value: u8,
) -> Answered
    ensures { CrossedAs (crosses result image.new ctx.new routes.new log.new) (is_image image.old)
        (set_configuration (decode image.old) ctx.old routes.old log.old outcomes.now value)
        image.old ctx.old routes.old log.old }
{
    let d = device_image::decode(image);
    let called = d.set_configuration(ctx, routes, log, outcomes, value);
    returned::finish(&called, image)
}
