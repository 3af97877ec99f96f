// The release of an interface.
ghost use Rattle.std.specs.Prelude.{◌≡◌};
ghost use Rattle.answer.specs.Check.{CheckedAs};
ghost use Rattle.record_settings.specs.Held.{held_alternate};
ghost use Rattle.device.specs.Device.{held_of};
ghost use Rattle.device.specs.Left.{leaves, called_of};
ghost use Rattle.device.specs.Check.{record_check};
ghost use Rattle.device.specs.Release.{release_check, release};

use super::record::{Called, Device};
use super::update::Ended;
use super::{endpoint_map, update};
use answer::Answer;
use course_release::ReleaseArgs;
use record_checks::Lengths;
use record_endpoint::{Owner, PLACES};
use record_settings::SettingWords;

impl Device {
    // The interface's endpoints are stopped and dropped, its setting is no longer held.
    pub fn release(
        mut self,
        ctx: &mut [u8],
        routes: &mut [u64],
        log: &mut [u32],
        outcomes: &[u8],
        interface: u8,
    ) -> Called
        ensures { leaves result ctx.new routes.new log.new
            ≡ release self ctx.old routes.old log.old outcomes.now interface }
    {
        let e = run_release(&mut self, ctx, routes, log, outcomes, interface);
        Called {
            device: self,
            answer: e.answer,
            count: e.count,
        }
    }
}

// The same of a record that is lent.
fn run_release(
    d: &mut Device,
    ctx: &mut [u8],
    routes: &mut [u64],
    log: &mut [u32],
    outcomes: &[u8],
    interface: u8,
) -> Ended
    ensures { leaves (called_of d.new result) ctx.new routes.new log.new ≡ release d.old ctx.old routes.old log.old outcomes.now interface }
{
    let l = Lengths {
        ctx: ctx.len(),
        routes: routes.len(),
        log: log.len(),
    };
    let alternate = match release_check(d, l, interface) {
        Ok(alternate) => alternate,
        Err(a) => return update::refused(a),
    };
    let c = endpoint_map::endpoint_map_in(d);
    let own = record_endpoint::owned_rings(Owner::Interface(interface), c);
    let args = ReleaseArgs {
        slot: d.slot,
        spacing: d.spacing,
        speed: d.port_speed,
        interface,
        alternate,
        old: record_endpoint::queues_of(own),
        all: record_endpoint::queues_of(c.rings),
    };
    let setting = SettingWords::of_setting(d.list(), interface, alternate);
    let e = course_release::release_interface(ctx, routes, log, outcomes, args, setting.words());
    let held = d.settings().without_setting(interface);
    let others = record_endpoint::claimed_endpoints(interface, [0u64; PLACES], c);
    update::at_end(d, c, e, Owner::Interface(interface), others, held)
}

// 12, 1, 2, 3, and then 25; it hands on the alternate that the interface holds.
fn release_check(d: &Device, l: Lengths, interface: u8) -> Result<u8, Answer>
    ensures { CheckedAs result (record_check d.now l.ctx l.routes l.log (release_check d.now interface)) (held_alternate interface (held_of d.now)) }
{
    d.record_check(l)?;
    d.settings()
        .alternate_of(interface)
        .ok_or(Answer::NotClaimed)
}
