// The setting of a configuration, which ends all held settings.
ghost use Rattle.std.specs.Prelude.{◌≡◌, cond, take};
ghost use Rattle.record_ring.specs.Rings.{entered};
ghost use Rattle.device.specs.Device.{quarantined_of};
ghost use Rattle.device.specs.Left.{leaves, called_of};
ghost use Rattle.device.specs.SetConfiguration.{ended_by, set_configuration};

use super::record::{Called, Device};
use super::update::Ended;
use super::{endpoint_map, update};
use answer::Answer;
use course_set_configuration::{SettingsArgs, run_set_configuration};
use course_steps::CourseEnd;
use record_checks::Lengths;
use record_endpoint::{Owner, Queues};
use record_settings::Settings;

// Where the settings moved: the value is the record's if the call is accepted; if it is lost, the ended endpoints' rings go in quarantine.
#[tactic(auto, unfolding(crate::specs::SetConfiguration::ended_by, crate::specs::Device::quarantines, crate::specs::Device::with_configuration, answer::specs::Answer::number))]
fn configure(d: &mut Device, e: CourseEnd, value: u8, q: Queues)
    requires { entered (quarantined_of d.old) (take q.count q.rings) ≡ take q.count q.rings }
    ensures { d.new ≡ cond e.moved (ended_by e.answer value (take q.count q.rings) d.old) d.old }
{
    if !e.moved {
        return;
    }
    match e.answer {
        Answer::Accepted => {
            d.configured = true;
            d.current_config_value = value;
        }
        Answer::InterfaceBroken | Answer::Cut => update::quarantine(d, q),
        _ => {}
    }
}

impl Device {
    // All endpoints are stopped and dropped, and the device and the controller are told the value.
    pub fn set_configuration(
        mut self,
        ctx: &mut [u8],
        routes: &mut [u64],
        log: &mut [u32],
        outcomes: &[u8],
        value: u8,
    ) -> Called
        ensures { leaves result ctx.new routes.new log.new
            ≡ set_configuration self ctx.old routes.old log.old outcomes.now value }
    {
        let e = run_set(&mut self, ctx, routes, log, outcomes, value);
        Called {
            device: self,
            answer: e.answer,
            count: e.count,
        }
    }
}

// The same of a record that is lent.
fn run_set(
    d: &mut Device,
    ctx: &mut [u8],
    routes: &mut [u64],
    log: &mut [u32],
    outcomes: &[u8],
    value: u8,
) -> Ended
    ensures { leaves (called_of d.new result) ctx.new routes.new log.new ≡ set_configuration d.old ctx.old routes.old log.old outcomes.now value }
{
    let l = Lengths {
        ctx: ctx.len(),
        routes: routes.len(),
        log: log.len(),
    };
    if let Err(a) = d.record_check(l) {
        return update::refused(a);
    }
    let c = endpoint_map::endpoint_map_in(d);
    let args = SettingsArgs {
        slot: d.slot,
        spacing: d.spacing,
        speed: d.port_speed,
        value,
        held: d.settings(),
        old: record_endpoint::queues_of(c.rings),
    };
    let e = run_set_configuration(ctx, routes, log, outcomes, 0, args, d.list());
    configure(d, e, value, args.old);
    update::at_end(
        d,
        c,
        e,
        Owner::Any,
        record_endpoint::no_endpoints(),
        Settings::NONE,
    )
}
