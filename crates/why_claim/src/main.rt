// Says of each claim that it reads why it got its answer. A claim is its record; context, routes, log and outcomes, as lent; interface and
// alternate. The record is the words of its image that are not 0; each list its elements that are not 0, and then its length.
#![tactic(auto)]

mod show;

use std::io;

// The claim of an interface's alternate, and its reason.
fn run(
    rt: &(impl Input + Print),
    image: &mut [u64],
    ctx: &mut [u8],
    routes: &mut [u64],
    log: &mut [u32],
    outcomes: &[u8],
) -> io::Result<()> {
    let interface = replay_sample::byte(rt)?;
    let alternate = replay_sample::byte(rt)?;
    let a = xhci_device::xhci_device_claim(image, ctx, routes, log, outcomes, interface, alternate);
    let count = a.count.min(log.len());
    let d = device_image::decode(image);
    let reason = reason::claim_reason(d, interface, alternate, a.answer, &log[..count], outcomes);
    show::reason(rt, reason, outcomes)
}

fn main(rt: HostRuntime) -> io::Result<()> {
    for _ in 0..replay_sample::next(&rt)? {
        let mut image = [0u64; xhci_device::WORDS];
        replay_sample::read_record(&rt, &mut image)?;
        let mut ctx = replay_sample::list_of(
            &rt,
            replay_sample::CONTEXT_ROOM,
            |w| (w % 256) as u8,
        )?;
        let mut routes = replay_sample::list_of(&rt, replay_sample::ROUTES_ROOM, |w| w)?;
        let mut log = replay_sample::list_of(
            &rt,
            replay_sample::LOG_ROOM,
            |w| (w % 4294967296) as u32,
        )?;
        let outcomes = replay_sample::list_of(
            &rt,
            replay_sample::OUTCOMES_ROOM,
            |w| (w % 256) as u8,
        )?;
        run(&rt, &mut image, &mut ctx, &mut routes, &mut log, &outcomes)?;
    }
    Ok(())
}
