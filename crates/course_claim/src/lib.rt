// The course of a claim: old endpoints stopped, the controller and the device switched, and the routes moved.
#![tactic(auto)]

ghost use Rattle.std.specs.Prelude.{◌≡◌, List, ℕ, ◌+◌, ◌≤◌, length};
ghost use Rattle.command.specs.Command.{LOG-ROOM};
ghost use Rattle.command.specs.Course.{played};
ghost use Rattle.course_steps.specs.Arrays.{course_leaves, queues_in, Room};
ghost use Rattle.course_claim.specs.Claim.{claim_of, claim_undone, claim_undo, claim_switch, claim_configure, claim_course};

use answer::Answer;
use command::{Command, Sent};
use course_steps::CourseEnd;
use def::SlotId;
use record_endpoint::Queues;

// What is claimed: the interface, the alternate to be held, and the one that it holds, if any.
#[derive(Clone, Copy)]
pub struct ClaimArgs {
    pub slot: SlotId,
    pub spacing: usize,
    pub speed: u8,
    pub interface: u8,
    pub alternate: u8,
    pub held_alternate: Option<u8>,
}

// The same with the endpoints of the old setting, those of the one to be held, and all of the record. Copies alone: the words of the
// two settings are lent beside it, so that no lifetime stands in its type.
#[derive(Clone, Copy)]
pub struct ClaimPlan {
    pub args: ClaimArgs,
    pub old: Queues,
    pub pending: Queues,
    pub all: Queues,
}

// The device back at its old setting, if it held one, after the controller is.
fn switch_back(log: &mut [u32], outcomes: &[u8], n: usize, a: ClaimPlan, code: u8) -> CourseEnd
    requires { (length (queues_in a.old) ≡ a.old.count) × (n + 1 ≤ length log.old) }
    ensures { (old new ctx routes : List ℕ) →
        course_leaves result ctx routes log.new
        ≡ played outcomes.now n (claim_undone (claim_of a old new) code ctx routes) log.old }
{
    let Some(alternate) = a.args.held_alternate else {
        return course_steps::settings_kept(Answer::Failed(code), n, a.old.count);
    };
    let next = n + 1;
    match command::send(
        log,
        outcomes,
        n,
        Command::SetInterface(a.args.interface, alternate),
    ) {
        Sent::Done => course_steps::settings_kept(Answer::Failed(code), next, a.old.count),
        Sent::Failed(_) => course_steps::settings_marked(Answer::InterfaceBroken, next, 0, true),
        Sent::Cut => course_steps::settings_marked(Answer::Cut, next, 0, true),
    }
}

// After a failed SetInterface: new endpoints dropped, old ones added again.
fn rollback_interface_configuration(
    ctx: &mut [u8],
    log: &mut [u32],
    outcomes: &[u8],
    n: usize,
    a: ClaimPlan,
    old_words: &[u64],
    new_words: &[u64],
    code: u8,
) -> CourseEnd
    requires room { Room a.args.spacing (length ctx.old) a.old a.all }
    requires n_in_bounds { n + 2 ≤ length log.old }
    ensures { (routes : List ℕ) →
        course_leaves result ctx.new routes log.new
        ≡ played outcomes.now n
        (claim_undo (claim_of a old_words.now new_words.now) code ctx.old routes) log.old }
{
    let alternate = a.args.held_alternate.unwrap_or(0);
    course_steps::prepare_configure(
        ctx,
        a.args.spacing,
        a.args.speed,
        a.args.interface,
        alternate,
        new_words,
        old_words,
        a.old,
        a.all,
    );
    let next = n + 1;
    match command::send(log, outcomes, n, Command::Configure) {
        Sent::Done => switch_back(log, outcomes, next, a, code),
        Sent::Failed(_) => course_steps::settings_marked(Answer::InterfaceBroken, next, 0, true),
        Sent::Cut => course_steps::settings_marked(Answer::Cut, next, 0, true),
    }
}

fn switch(
    ctx: &mut [u8],
    routes: &mut [u64],
    log: &mut [u32],
    outcomes: &[u8],
    n: usize,
    a: ClaimPlan,
    old_words: &[u64],
    new_words: &[u64],
) -> CourseEnd
    requires room { Room a.args.spacing (length ctx.old) a.old a.all }
    requires n_in_bounds { n + 3 ≤ length log.old }
    ensures { course_leaves result ctx.new routes.new log.new
        ≡ played outcomes.now n
        (claim_switch (claim_of a old_words.now new_words.now) ctx.old routes.old)
        log.old }
{
    let next = n + 1;
    match command::send(
        log,
        outcomes,
        n,
        Command::SetInterface(a.args.interface, a.args.alternate),
    ) {
        Sent::Done => {
            let refused = Answer::InterfaceBroken;
            course_steps::publish(routes, a.args.slot, a.old, a.pending, next, refused, true)
        }
        Sent::Failed(code) => rollback_interface_configuration(
            ctx, log, outcomes, next, a, old_words, new_words, code,
        ),
        Sent::Cut => course_steps::settings_marked(Answer::Cut, next, 0, true),
    }
}

// Where the Configure fails, the old endpoints are resumed; a failed resume's code is the answer. From here on, an end that is lost is
// marked: the controller may hold the new rings.
fn configure(
    ctx: &mut [u8],
    routes: &mut [u64],
    log: &mut [u32],
    outcomes: &[u8],
    n: usize,
    a: ClaimPlan,
    old_words: &[u64],
    new_words: &[u64],
) -> CourseEnd
    requires room { Room a.args.spacing (length ctx.old) a.old a.all }
    requires count_in_bounds { n + a.old.count + 4 ≤ length log.old }
    ensures { course_leaves result ctx.new routes.new log.new
        ≡ played outcomes.now n
        (claim_configure (claim_of a old_words.now new_words.now) ctx.old routes.old)
        log.old }
{
    course_steps::prepare_configure(
        ctx,
        a.args.spacing,
        a.args.speed,
        a.args.interface,
        a.args.alternate,
        old_words,
        new_words,
        a.pending,
        a.all,
    );
    let next = n + 1;
    match command::send(log, outcomes, n, Command::Configure) {
        Sent::Done => switch(ctx, routes, log, outcomes, next, a, old_words, new_words),
        Sent::Failed(code) => {
            let back = course_steps::resume_stopped_endpoints(log, outcomes, next, a.old);
            let answer = course_steps::answer_of(command::or_code(code, back.sent));
            let doubted = course_steps::is_unanswered(back.sent);
            course_steps::settings_marked(answer, back.count, back.active, doubted)
        }
        Sent::Cut => course_steps::settings_marked(Answer::Cut, next, 0, true),
    }
}

// Claims an interface after the checks, with the endpoint words of its old setting, none where it holds none, and of the new one.
pub fn claim_interface(
    ctx: &mut [u8],
    routes: &mut [u64],
    log: &mut [u32],
    outcomes: &[u8],
    a: ClaimPlan,
    old_words: &[u64],
    new_words: &[u64],
) -> CourseEnd
    requires room { Room a.args.spacing (length ctx.old) a.old a.all }
    requires in_bounds { LOG-ROOM ≤ length log.old }
    ensures { course_leaves result ctx.new routes.new log.new
        ≡ played outcomes.now 0
        (claim_course (claim_of a old_words.now new_words.now) ctx.old routes.old)
        log.old }
{
    let stop = course_steps::stop_endpoints(log, outcomes, 0, a.old);
    match stop.sent {
        Sent::Done => configure(
            ctx, routes, log, outcomes, stop.count, a, old_words, new_words,
        ),
        Sent::Failed(code) => course_steps::settings_kept(
            Answer::Failed(code),
            stop.count,
            a.old.count,
        ),
        Sent::Cut => course_steps::settings_kept(Answer::Cut, stop.count, stop.active),
    }
}
