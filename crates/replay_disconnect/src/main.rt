// Replays unpluggings that the original was given, through the function for C; `stdout` is what the original left, but for the fields that docs/DIFFERENCES.md names.
#![tactic(auto)]

use std::io;

fn main(rt: HostRuntime) -> io::Result<()> {
    replay_sample::replay(
        &rt,
        replay_sample::read_record,
        |rt, image, ctx, routes, log, outcomes| {
            Ok(xhci_device::xhci_device_disconnect(image, ctx, routes, log, outcomes))
        },
    )
}
