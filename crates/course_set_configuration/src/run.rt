// The phases of a set configuration; what comes after a done command is the next phase.
ghost use Rattle.std.specs.Prelude.{◌≡◌, List, ℕ, ◌+◌, ◌*◌, ◌≤◌, length};
ghost use Rattle.answer.specs.declared.Answer.TheVariants as answer;
ghost use Rattle.command.specs.Course.{on_sent, played};
ghost use Rattle.descriptor_list.specs.Companions.{joined, Joinable};
ghost use Rattle.course_steps.specs.Arrays.{course_leaves, Room};
ghost use Rattle.course_set_configuration.specs.SetConfiguration.{settings_of, set_publish, set_restore, set_switch, set_configure, set_course};

use super::held;
use answer::Answer;
use command::{Command, Sent};
use course_steps::CourseEnd;
use def::SlotId;
use record_endpoint::Queues;
use record_settings::Settings;

// The value asked for, the held settings, and their endpoints, which are all that the record has. Copies alone: the list is lent
// beside it, so that no lifetime stands in its type.
#[derive(Clone, Copy)]
pub struct SettingsArgs {
    pub slot: SlotId,
    pub spacing: usize,
    pub speed: u8,
    pub value: u8,
    pub held: Settings,
    pub old: Queues,
}

// Sets a configuration after the checks, from command number n of the call on; every failed stop breaks the interfaces.
pub fn run_set_configuration(
    ctx: &mut [u8],
    routes: &mut [u64],
    log: &mut [u32],
    outcomes: &[u8],
    n: usize,
    a: SettingsArgs,
    list: &[u32],
) -> CourseEnd
    requires room { Room a.spacing (length ctx.old) a.old a.old }
    requires joinable { Joinable list.now }
    requires count_in_bounds { n + 2 * a.old.count + 3 ≤ length log.old }
    ensures { course_leaves result ctx.new routes.new log.new
        ≡ played outcomes.now n (set_course (settings_of a (joined list.now)) ctx.old routes.old) log.old }
{
    let stop = course_steps::stop_endpoints(log, outcomes, n, a.old);
    match stop.sent {
        Sent::Done => configure(ctx, routes, log, outcomes, stop.count, a, list),
        Sent::Failed(_) => course_steps::settings_kept(
            Answer::InterfaceBroken,
            stop.count,
            stop.active,
        ),
        Sent::Cut => course_steps::settings_kept(Answer::Cut, stop.count, stop.active),
    }
}

// The endpoints are dropped; where that fails they are resumed.
fn configure(
    ctx: &mut [u8],
    routes: &mut [u64],
    log: &mut [u32],
    outcomes: &[u8],
    n: usize,
    a: SettingsArgs,
    list: &[u32],
) -> CourseEnd
    requires room { Room a.spacing (length ctx.old) a.old a.old }
    requires joinable { Joinable list.now }
    requires count_in_bounds { n + a.old.count + 3 ≤ length log.old }
    ensures { course_leaves result ctx.new routes.new log.new
        ≡ played outcomes.now n (set_configure (settings_of a (joined list.now)) ctx.old routes.old)
        log.old }
{
    held::prepare_drop(ctx, a, list);
    let next = n + 1;
    match command::send(log, outcomes, n, Command::Configure) {
        Sent::Done => switch(ctx, routes, log, outcomes, next, a, list),
        Sent::Failed(code) => course_steps::resume(log, outcomes, next, a.old, |sent| {
            course_steps::configure_failed(code, sent)
        }),
        Sent::Cut => course_steps::settings_kept(Answer::Cut, next, 0),
    }
}

// The device is switched.
fn switch(
    ctx: &mut [u8],
    routes: &mut [u64],
    log: &mut [u32],
    outcomes: &[u8],
    n: usize,
    a: SettingsArgs,
    list: &[u32],
) -> CourseEnd
    requires room { Room a.spacing (length ctx.old) a.old a.old }
    requires joinable { Joinable list.now }
    requires count_in_bounds { n + a.old.count + 2 ≤ length log.old }
    ensures { course_leaves result ctx.new routes.new log.new
        ≡ played outcomes.now n (set_switch (settings_of a (joined list.now)) ctx.old routes.old)
        log.old }
{
    let next = n + 1;
    match command::send(log, outcomes, n, Command::SetConfiguration(a.value)) {
        Sent::Done => publish(ctx, routes, log, outcomes, next, a),
        Sent::Failed(code) => restore(ctx, log, outcomes, next, a, list, code),
        Sent::Cut => course_steps::settings_kept(Answer::Cut, next, 0),
    }
}

// The answer by an outcome; a cut command cuts the call.
#[tactic(auto, unfolding(command::specs::Course::on_sent))]
fn answer_after(s: Sent, done: Answer, failed: Answer) -> Answer
    ensures { result ≡ on_sent s done (λ code. failed) answer.Cut }
{
    match s {
        Sent::Done => done,
        Sent::Failed(_) => failed,
        Sent::Cut => Answer::Cut,
    }
}

// After a failed SetConfiguration the endpoints are added again and resumed; the answer is its code.
fn restore(
    ctx: &mut [u8],
    log: &mut [u32],
    outcomes: &[u8],
    n: usize,
    a: SettingsArgs,
    list: &[u32],
    code: u8,
) -> CourseEnd
    requires room { Room a.spacing (length ctx.old) a.old a.old }
    requires joinable { Joinable list.now }
    requires count_in_bounds { n + a.old.count + 1 ≤ length log.old }
    ensures { (routes : List ℕ) →
        course_leaves result ctx.new routes log.new
        ≡ played outcomes.now n (set_restore (settings_of a (joined list.now)) code ctx.old routes) log.old }
{
    held::prepare_restore(ctx, a, list);
    let next = n + 1;
    match command::send(log, outcomes, n, Command::Configure) {
        Sent::Done => course_steps::resume(log, outcomes, next, a.old, |sent| {
            answer_after(sent, Answer::Failed(code), Answer::InterfaceBroken)
        }),
        Sent::Failed(_) => course_steps::settings_kept(Answer::InterfaceBroken, next, 0),
        Sent::Cut => course_steps::settings_kept(Answer::Cut, next, 0),
    }
}

// The held settings end: their routes are taken out, and the controller is told the value.
fn publish(
    ctx: &mut [u8],
    routes: &mut [u64],
    log: &mut [u32],
    outcomes: &[u8],
    n: usize,
    a: SettingsArgs,
) -> CourseEnd
    requires room { Room a.spacing (length ctx.old) a.old a.old }
    requires n_in_bounds { n + 1 ≤ length log.old }
    ensures { (list : List ℕ) →
        course_leaves result ctx.new routes.new log.new
        ≡ played outcomes.now n (set_publish (settings_of a list) ctx.old routes.old) log.old }
{
    let Ok(()) = course_steps::publish_endpoint_routes(routes, a.slot, a.old, Queues::NONE) else {
        return course_steps::settings_kept(Answer::InvalidEndpoint, n, 0);
    };
    context_writer::configuration_context(ctx, a.value);
    let s = command::send(log, outcomes, n, Command::Evaluate);
    let answer = answer_after(s, Answer::Accepted, Answer::InterfaceBroken);
    course_steps::settings_moved(answer, n + 1)
}
