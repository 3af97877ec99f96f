// The course of an unplugging: control and the endpoints stopped, the slot disabled, its routes taken out.
#![tactic(auto)]

ghost use Rattle.std.specs.Prelude.{◌≡◌, List, ℕ, ◌+◌, ◌<◌, ◌≤◌, length};
ghost use Rattle.command.specs.Command.{LOG-ROOM};
ghost use Rattle.command.specs.Course.{played};
ghost use Rattle.command.specs.Sweep.{stop_each};
ghost use Rattle.course_steps.specs.Arrays.{dcis_in, course_leaves};
ghost use Rattle.course_disconnect.specs.Disconnect.{stops_leave, disable, disconnect_course};

use answer::Answer;
use command::{Command, Sent};
use course_steps::CourseEnd;
use def::{Dci, SlotId};
use record_endpoint::Queues;

// Stops some endpoints in order, past failures: how many words the log has then, as an error where a Stop was cut.
// No twin of the loop of course_steps, which a failed command ends too: what each promises of its course is another thing.
fn stop_each(log: &mut [u32], outcomes: &[u8], n: usize, dcis: &[u8]) -> Result<usize, usize>
    requires { n + length dcis.now ≤ length log.old }
    ensures { (ctx : List ℕ) →
        stops_leave result log.new ≡
        played outcomes.now n (stop_each ctx dcis.now) log.old }
{
    for (i, dci) in dcis.iter().enumerate() {
        match command::send(log, outcomes, n + i, Command::Stop(Dci(*dci))) {
            Sent::Cut => return Err(n + i + 1),
            _ => {}
        }
    }
    Ok(n + dcis.len())
}

// The outcome of Disable decides.
fn disable(
    routes: &mut [u64],
    log: &mut [u32],
    outcomes: &[u8],
    n: usize,
    slot: SlotId,
) -> CourseEnd
    requires { n < length log.old }
    ensures { (ctx : List ℕ) →
        course_leaves result ctx routes.new log.new ≡
        played outcomes.now n (disable slot.0 ctx routes.old) log.old }
{
    let next = n + 1;
    match command::send(log, outcomes, n, Command::Disable) {
        Sent::Done => {
            transfer::clear_slot(routes, slot);
            course_steps::settings_moved(Answer::Accepted, next)
        }
        Sent::Failed(_) => course_steps::settings_kept(Answer::InterfaceBroken, next, 0),
        Sent::Cut => course_steps::settings_kept(Answer::Cut, next, 0),
    }
}

// Unplugs a device after the checks; the queues are all its endpoints. No command reads the context.
pub fn disconnect(
    routes: &mut [u64],
    log: &mut [u32],
    outcomes: &[u8],
    slot: SlotId,
    q: Queues,
) -> CourseEnd
    requires { LOG-ROOM ≤ length log.old }
    ensures { (ctx : List ℕ) →
        course_leaves result ctx routes.new log.new ≡
        played outcomes.now 0
        (disconnect_course slot.0 (dcis_in q) ctx routes.old) log.old }
{
    match command::send(log, outcomes, 0, Command::Stop(Dci::CTRL)) {
        Sent::Cut => course_steps::settings_kept(Answer::Cut, 1, 0),
        _ => match stop_each(log, outcomes, 1, q.dcis()) {
            Ok(n) => disable(routes, log, outcomes, n, slot),
            Err(n) => course_steps::settings_kept(Answer::Cut, n, 0),
        },
    }
}
