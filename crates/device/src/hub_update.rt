// The hub update.
ghost use Rattle.std.specs.Prelude.{◌≡◌};
ghost use Rattle.device.specs.Left.{leaves, called_of};
ghost use Rattle.device.specs.Check.{record_check, hub_check};
ghost use Rattle.device.specs.Calls.{hub_update};

use super::record::{Called, Device};
use super::update;
use super::update::Ended;
use answer::Answer;
use command::Command;
use record_checks::Lengths;

impl Device {
    // One Evaluate with the hub's slot fields.
    pub fn hub_update(
        mut self,
        ctx: &mut [u8],
        routes: &mut [u64],
        log: &mut [u32],
        outcomes: &[u8],
        ports: u8,
        multi: bool,
        ns: u32,
    ) -> Called
        ensures { leaves result ctx.new routes.new log.new
            ≡ hub_update self ctx.old routes.old log.old outcomes.now ports multi ns }
    {
        let e = run_hub_update(&mut self, ctx, routes, log, outcomes, ports, multi, ns);
        Called {
            device: self,
            answer: e.answer,
            count: e.count,
        }
    }
}

// The same of a record that is lent.
fn run_hub_update(
    d: &mut Device,
    ctx: &mut [u8],
    routes: &mut [u64],
    log: &mut [u32],
    outcomes: &[u8],
    ports: u8,
    multi: bool,
    ns: u32,
) -> Ended
    ensures { leaves (called_of d.new result) ctx.new routes.new log.new
        ≡ hub_update d.old ctx.old routes.old log.old outcomes.now ports multi ns }
{
    let l = Lengths {
        ctx: ctx.len(),
        routes: routes.len(),
        log: log.len(),
    };
    if let Err(a) = hub_check(d, l, ns) {
        return update::refused(a);
    }
    let think = record_checks::think_value(ns);
    context_writer::hub_context(ctx, d.spacing, d.port_speed, ports, multi, think);
    let s = command::send(log, outcomes, 0, Command::Evaluate);
    let answer = course_steps::answer_of(s);
    update::mark(d, answer);
    Ended { answer, count: 1 }
}

// 12, 1, 2, 3, and then 7, at High speed only.
fn hub_check(d: &Device, l: Lengths, ns: u32) -> Result<(), Answer>
    ensures { result ≡ record_check d.now l.ctx l.routes l.log (hub_check d.now ns) }
{
    d.record_check(l)?;
    record_checks::think_check(d.port_speed, ns)
}
