// A claim in two calls: the ask, which shows what it would do, and the commit. The parameters are those of the C interface.
ghost use Rattle.std.specs.Prelude.{◌≡◌, length};
ghost use Rattle.device.specs.Ask.{asking, commit};
ghost use Rattle.device_image.specs.Image.{decode, is_image};
ghost use Rattle.xhci_device.specs.Crossed.{crosses, CrossedAs};
ghost use Rattle.xhci_device.specs.Ask.{in_front, shown_of, asked_in};

use xhci_device::{Answered, Shown};

// What a claim that is lent a context, a table and a log of these lengths would do. The rings that it would draw go to the lent words.
#[unsafe(no_mangle)]
pub extern "C" fn xhci_device_ask(
    image: &[u64],
    ctx: usize,
    routes: usize,
    log: usize,
    interface: u8,
    alternate: u8,
    rings: &mut [u64],
) -> Shown
    ensures { (result ≡ shown_of (asked_in image.now ctx routes log interface alternate (length rings.old)))
        × (rings.new ≡ in_front (asked_in image.now ctx routes log interface alternate (length rings.old)).1.rings rings.old) }
{
    xhci_device::xhci_device_ask(image, ctx, routes, log, interface, alternate, rings)
}

#[unsafe(no_mangle)]
pub extern "C" fn xhci_device_commit(
    image: &mut [u64],
    ctx: &mut [u8],
    routes: &mut [u64],
    log: &mut [u32],
    outcomes: &[u8],
    interface: u8,
    alternate: u8,
    drops: u32,
    adds: u32,
    rings: &[u64],
) -> Answered
    ensures { CrossedAs (crosses result image.new ctx.new routes.new log.new) (is_image image.old)
        (commit (decode image.old) ctx.old routes.old log.old outcomes.now
        (asking interface alternate drops adds rings.now))
        image.old ctx.old routes.old log.old }
{
    xhci_device::xhci_device_commit(
        image, ctx, routes, log, outcomes, interface, alternate, drops, adds, rings,
    )
}
