// The unplugging of a device.
ghost use Rattle.std.specs.Prelude.{◌≡◌, true, List, ℕ};
ghost use Rattle.record_endpoint.specs.EndpointMap.{QueuesAs};
ghost use Rattle.course_steps.specs.Arrays as arrays;
ghost use Rattle.device.specs.Device.{endpoint_map_in};
ghost use Rattle.device.specs.Sound.{sound};
ghost use Rattle.device.specs.Left.{leaves, called_of, ended};
ghost use Rattle.device.specs.Disconnect.{disconnect_record, disconnect};

use super::record::{Called, Device};
use super::update::Ended;
use super::{endpoint_map, update};
use answer::Answer;
use course_steps::CourseEnd;
use record_checks::{Lengths, Quarantine};
use record_endpoint::{EndpointMap, Handle, Owner, Queues};
use record_settings::Settings;

impl Device {
    // Control and every endpoint are stopped and the slot is disabled; the context is not read.
    pub fn disconnect(
        mut self,
        ctx: &mut [u8],
        routes: &mut [u64],
        log: &mut [u32],
        outcomes: &[u8],
    ) -> Called
        ensures { leaves result ctx.new routes.new log.new ≡
            disconnect self ctx.old routes.old log.old outcomes.now }
    {
        let e = run_disconnect(&mut self, ctx, routes, log, outcomes);
        Called {
            device: self,
            answer: e.answer,
            count: e.count,
        }
    }
}

// The same of a record that is lent.
fn run_disconnect(
    d: &mut Device,
    ctx: &mut [u8],
    routes: &mut [u64],
    log: &mut [u32],
    outcomes: &[u8],
) -> Ended
    ensures { leaves (called_of d.new result) ctx.new routes.new log.new ≡ disconnect d.old ctx.old routes.old log.old outcomes.now }
{
    let l = Lengths {
        ctx: ctx.len(),
        routes: routes.len(),
        log: log.len(),
    };
    if let Err(a) = d.disconnect_check(l) {
        return update::refused(a);
    }
    let c = endpoint_map::endpoint_map_in(d);
    let q = record_endpoint::queues_of(c.rings);
    let e = course_disconnect::disconnect(routes, log, outcomes, d.slot, q);
    disconnect_end(d, c, q, e)
}

// The end of the course makes the record: the device is gone, or all is revoked and 14 puts the rings in quarantine.
fn disconnect_end(d: &mut Device, c: EndpointMap, q: Queues, e: CourseEnd) -> Ended
    requires { (sound d.old ≡ true) × (c ≡ endpoint_map_in d.old) × QueuesAs q c.rings × (e.active ≡ 0) }
    ensures { (ctx routes log : List ℕ) →
        leaves (called_of d.new result) ctx routes log ≡ ended (disconnect_record d.old) (arrays.course_leaves e ctx routes log) }
{
    if e.moved {
        d.usable = false;
        d.up = false;
    } else if e.answer == Answer::InterfaceBroken {
        let Quarantine { rings, count } = record_checks::enter_rings(
            d.quarantined(),
            d.control,
            q.rings(),
        );
        d.quarantined = rings;
        d.quarantined_count = count;
    }
    d.control_handle = Handle::Revoked;
    update::at_end(
        d,
        c,
        e,
        Owner::Any,
        record_endpoint::no_endpoints(),
        Settings::NONE,
    )
}
