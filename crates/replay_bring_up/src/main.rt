// Replays bring-ups that the original was given, through the function for C; `stdout` is what the original left, but for the fields that docs/DIFFERENCES.md names.
#![tactic(auto)]

use std::io;
use xhci_device::Answered;

// Rings, hubs and a list, and then the numbers in the order of the parameters: slot, n, speed, has_parent, parent, port, root_port, header, packet,
// value.
fn bring_up(
    rt: &impl Input,
    image: &mut [u64],
    ctx: &mut [u8],
    routes: &mut [u64],
    log: &mut [u32],
    outcomes: &[u8],
) -> io::Result<Answered> {
    let mut rings = [0u64; replay_sample::RINGS_ROOM];
    replay_sample::words(rt, &mut rings)?;
    let given = replay_sample::count(rt, replay_sample::RINGS_ROOM)?;
    let mut hubs = [0u64; replay_sample::HUBS_ROOM];
    replay_sample::words(rt, &mut hubs)?;
    let hubs_len = replay_sample::count(rt, replay_sample::HUBS_ROOM)?;
    let mut list = [0u32; replay_sample::LIST_ROOM];
    replay_sample::list(rt, &mut list)?;
    let list_len = replay_sample::count(rt, replay_sample::LIST_ROOM)?;
    Ok(xhci_device::xhci_device_bring_up(
        image,
        ctx,
        routes,
        log,
        outcomes,
        &rings[..given],
        &hubs[..hubs_len],
        &list[..list_len],
        replay_sample::byte(rt)?,
        replay_sample::next(rt)? as usize,
        replay_sample::byte(rt)?,
        replay_sample::byte(rt)?,
        replay_sample::next(rt)? as usize,
        replay_sample::byte(rt)?,
        replay_sample::byte(rt)?,
        replay_sample::next(rt)? as usize,
        replay_sample::byte(rt)?,
        replay_sample::byte(rt)?,
    ))
}

// A bring-up takes no record.
fn main(rt: HostRuntime) -> io::Result<()> {
    replay_sample::replay(
        &rt,
        |_, _| Ok(()),
        |rt, image, ctx, routes, log, outcomes| { bring_up(rt, image, ctx, routes, log, outcomes) },
    )
}
