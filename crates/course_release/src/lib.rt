// The course of a release: old endpoints stopped, dropped from the controller, and their routes taken out.
#![tactic(auto)]

ghost use Rattle.std.specs.Prelude.{◌≡◌, List, ℕ, ◌+◌, ◌≤◌, length};
ghost use Rattle.command.specs.Command.{LOG-ROOM};
ghost use Rattle.command.specs.Course.{played};
ghost use Rattle.course_steps.specs.Arrays.{course_leaves, Room};
ghost use Rattle.course_release.specs.Release.{release_of, release_configure, release_course};

use answer::Answer;
use command::{Command, Sent};
use course_steps::CourseEnd;
use def::SlotId;
use record_endpoint::Queues;

// The interface's setting, its endpoints, and all endpoints of the record. Copies alone: its words
// are lent beside it, so that no lifetime stands in its type.
#[derive(Clone, Copy)]
pub struct ReleaseArgs {
    pub slot: SlotId,
    pub spacing: usize,
    pub speed: u8,
    pub interface: u8,
    pub alternate: u8,
    pub old: Queues,
    pub all: Queues,
}

// Where the Configure fails, the endpoints are resumed; its code is the answer, even if a resume fails.
fn configure(
    ctx: &mut [u8],
    routes: &mut [u64],
    log: &mut [u32],
    outcomes: &[u8],
    n: usize,
    a: ReleaseArgs,
    words: &[u64],
) -> CourseEnd
    requires room { Room a.spacing (length ctx.old) a.old a.all }
    requires count_in_bounds { n + a.old.count + 1 ≤ length log.old }
    ensures { course_leaves result ctx.new routes.new log.new
        ≡ played outcomes.now n (release_configure (release_of a words.now) ctx.old routes.old)
        log.old }
{
    course_steps::prepare_configure(
        ctx,
        a.spacing,
        a.speed,
        a.interface,
        a.alternate,
        words,
        &[],
        Queues::NONE,
        a.all,
    );
    let next = n + 1;
    match command::send(log, outcomes, n, Command::Configure) {
        Sent::Done => course_steps::publish(
            routes,
            a.slot,
            a.old,
            Queues::NONE,
            next,
            Answer::InvalidEndpoint,
            false,
        ),
        Sent::Failed(code) => course_steps::resume(log, outcomes, next, a.old, |sent| {
            course_steps::configure_failed(code, sent)
        }),
        Sent::Cut => course_steps::settings_kept(Answer::Cut, next, 0),
    }
}

// Releases an interface after the checks, with the endpoint words of its setting.
pub fn release_interface(
    ctx: &mut [u8],
    routes: &mut [u64],
    log: &mut [u32],
    outcomes: &[u8],
    a: ReleaseArgs,
    words: &[u64],
) -> CourseEnd
    requires room { Room a.spacing (length ctx.old) a.old a.all }
    requires in_bounds { LOG-ROOM ≤ length log.old }
    ensures { course_leaves result ctx.new routes.new log.new
        ≡ played outcomes.now 0 (release_course (release_of a words.now) ctx.old routes.old)
        log.old }
{
    let stop = course_steps::stop_endpoints(log, outcomes, 0, a.old);
    match stop.sent {
        Sent::Done => configure(ctx, routes, log, outcomes, stop.count, a, words),
        Sent::Failed(code) => course_steps::settings_kept(
            Answer::Failed(code),
            stop.count,
            a.old.count,
        ),
        Sent::Cut => course_steps::settings_kept(Answer::Cut, stop.count, stop.active),
    }
}
