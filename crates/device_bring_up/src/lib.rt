// The bring-up of a slot's device: the checks, control's route, the course, and the record.
#![tactic(auto)]

mod check;
mod record;

ghost use Rattle.std.specs.Prelude.{◌≡◌, cond, eqb};
ghost use Rattle.device.specs.Left.{leaves};
ghost use Rattle.course_init.specs.Reading.{bring_up_of};
ghost use Rattle.device_bring_up.specs.BringUp.{bring_up};

pub use course_init::BringUpArgs;
use device::Called;

// The bring-up of a slot: checks, the last of which registers control's route; then the course, and the record that its end makes.
pub fn bring_up(
    ctx: &mut [u8],
    routes: &mut [u64],
    log: &mut [u32],
    outcomes: &[u8],
    a: BringUpArgs,
    rings: &[u64],
    hubs: &[u64],
    list: &[u32],
) -> Called
    ensures { leaves result ctx.new routes.new log.new
        ≡ bring_up (bring_up_of a rings.now hubs.now list.now) ctx.old routes.old log.old
        outcomes.now }
{
    let spacing = spacing_of(ctx.len());
    let ring = record_ring::least(rings);
    let check = check::enter(
        routes,
        a,
        spacing,
        ctx.len(),
        log.len(),
        ring,
        rings,
        hubs,
        list,
    );
    if let Err(x) = check {
        return Called {
            device: device::no_device(),
            answer: x,
            count: 0,
        };
    }
    let e = course_init::address(ctx, routes, log, outcomes, a, spacing, ring, hubs, list);
    record::brought(a, spacing, e, ring, rings, list)
}

// The spacing of a context's blocks, by its length; a length that is none of a context is refused.
fn spacing_of(len: usize) -> usize
    ensures { result ≡ cond (eqb len 1056) 32 64 }
{
    if len == 1056 { 32 } else { 64 }
}
