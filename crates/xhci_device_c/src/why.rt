// Why a claim or a commit got its answer. The parameters are those of the C interface.
ghost use Rattle.std.specs.Prelude.{◌≡◌};
ghost use Rattle.device_image.specs.Image.{decode};
ghost use Rattle.reason.specs.Reason.{claim_reason};
ghost use Rattle.xhci_device.specs.Why.{why_of};

use xhci_device::Why;

#[unsafe(no_mangle)]
pub extern "C" fn xhci_device_why(
    image: &[u64],
    interface: u8,
    alternate: u8,
    answer: u32,
    log: &[u32],
    outcomes: &[u8],
) -> Why
    ensures { result ≡ why_of (claim_reason (decode image.now) interface alternate answer log.now outcomes.now) }
{
    xhci_device::xhci_device_why(image, interface, alternate, answer, log, outcomes)
}
