// What the courses of claim, release, set configuration and unplugging share: parts of arrays lent on, and how a course ends.
// Context, routes, log and outcomes stay four parameters of a course, as they are of a call (crates/device/src/lib.rt).
#![tactic(auto)]

ghost use Rattle.std.specs.Prelude.{◌≡◌, List, true, false, ℕ, ◌+◌, ◌*◌, ◌<◌, ◌≤◌, length};
ghost use Rattle.command.specs.Course.{ends, played};
ghost use Rattle.command.specs.Sweep.{stop_endpoints, resume_stopped_endpoints, SweptAs};
ghost use Rattle.context.specs.Place.{written, Spaced};
ghost use Rattle.context.specs.Steps.{configure_writes};
ghost use Rattle.context.specs.Promises.{EndpointDcis};
ghost use Rattle.transfer.specs.Routes.{replaced, with_replaced};
ghost use Rattle.answer.specs.declared.Answer.{Answer};
ghost use Rattle.command.specs.declared.Sent.{Sent};
ghost use Rattle.course_steps.specs.End.{is_unanswered, answer_of, configure_failed, move_routes, Answers, resumed};
ghost use Rattle.course_steps.specs.Arrays.{dcis_in, queues_in, course_leaves};
ghost use Rattle.course_steps.specs.Each.{Gives, send_from};
ghost use Rattle.command.specs.declared.Command.{Command};

use answer::Answer;
use command::{Command, Sent, Swept};
use def::{Dci, SlotId};
use record_endpoint::Queues;
use transfer::RouteError;

// How a course ended: of the old endpoints, by rising address, how many are active, and whether they are gone. Two fields, as the
// definitions and the theorems have them; of endpoints that are gone none is active. And whether it was lost with a Configure sent.
#[derive(Clone, Copy)]
pub struct CourseEnd {
    pub answer: Answer,
    pub count: usize,
    pub active: usize,
    pub moved: bool,
    pub doubted: bool,
}

// Sends a command for each of some endpoints in order, until one is not done; those before it are counted as active.
fn send_each<F: Fn(Dci) -> Command>(
    log: &mut [u32],
    outcomes: &[u8],
    n: usize,
    dcis: &[u8],
    command: F,
) -> Swept
    requires callable { F.IsAlwaysCallable command }
    requires in_bounds { n + length dcis.now ≤ length log.old }
    ensures counts { (result.active ≤ length dcis.now)
        × (result.count + result.active ≤ n + 2 * length dcis.now)
        × (length log.new ≡ length log.old) }
    ensures as_sent { (of : ℕ → Command) (ctx : List ℕ) → Gives (F.post command) of →
        SweptAs result log.new (played outcomes.now n (send_from of ctx 0 dcis.now) log.old) }
{
    for (done, dci) in dcis.iter().enumerate() {
        match command::send(log, outcomes, n + done, command(Dci(*dci))) {
            Sent::Done => {}
            sent => {
                return Swept {
                    sent,
                    count: n + done + 1,
                    active: done,
                };
            }
        }
    }
    Swept {
        sent: Sent::Done,
        count: n + dcis.len(),
        active: dcis.len(),
    }
}

// Resumes the endpoints of some queues in order, until one fails.
pub fn resume_stopped_endpoints(log: &mut [u32], outcomes: &[u8], n: usize, q: Queues) -> Swept
    requires { n + q.count ≤ length log.old }
    ensures { (ctx : List ℕ) → SweptAs result log.new (played outcomes.now n (resume_stopped_endpoints ctx (dcis_in q)) log.old) }
{
    send_each(log, outcomes, n, q.dcis(), Command::Resume)
}

// Stops the endpoints of some queues in order; where one fails, those already stopped are resumed.
pub fn stop_endpoints(log: &mut [u32], outcomes: &[u8], n: usize, q: Queues) -> Swept
    requires { n + 2 * q.count ≤ length log.old }
    ensures { (ctx : List ℕ) → SweptAs result log.new (played outcomes.now n (stop_endpoints ctx (dcis_in q)) log.old) }
{
    let stops = send_each(log, outcomes, n, q.dcis(), Command::Stop);
    match stops.sent {
        Sent::Failed(code) => {
            let mut stopped = q;
            stopped.count = stops.active;
            let back = resume_stopped_endpoints(log, outcomes, stops.count, stopped);
            Swept {
                sent: command::or_code(code, back.sent),
                ..back
            }
        }
        _ => Swept { active: 0, ..stops },
    }
}

// Takes the routes of some queues out and puts those of others in.
#[tactic(auto, unfolding(crate::specs::Arrays::dcis_in, crate::specs::Arrays::rings_in, crate::specs::Arrays::queues_in))]
pub fn publish_endpoint_routes(
    routes: &mut [u64],
    slot: SlotId,
    old: Queues,
    new: Queues,
) -> Result<(), RouteError>
    ensures { (result ≡ replaced routes.old slot.0 (queues_in old) (queues_in new))
        × (routes.new ≡ with_replaced routes.old slot.0 (queues_in old) (queues_in new)) }
{
    transfer::replace_queues(
        routes,
        slot,
        old.dcis(),
        old.rings(),
        new.dcis(),
        new.rings(),
    )
}

// The context of a Configure, with the rings of some queues for the added words; `all` are the record's endpoints. The parameters are
// no struct, as those of `prepare_configure_context` are none.
#[tactic(auto, unfolding(crate::specs::Arrays::dcis_in, crate::specs::Arrays::rings_in, crate::specs::Arrays::queues_in))]
pub fn prepare_configure(
    ctx: &mut [u8],
    spacing: usize,
    speed: u8,
    interface: u8,
    alternate: u8,
    dropped: &[u64],
    added: &[u64],
    q: Queues,
    all: Queues,
)
    requires spaced { Spaced spacing (length ctx.old) }
    requires endpoint_dcis { EndpointDcis (dcis_in all) }
    ensures { ctx.new ≡ written spacing (configure_writes speed interface alternate dropped.now added.now (queues_in q) (dcis_in all)) ctx.old }
{
    context_writer::prepare_configure_context(
        ctx,
        spacing,
        speed,
        interface,
        alternate,
        dropped,
        added,
        q.dcis(),
        q.rings(),
        all.dcis(),
    );
}

// The answer of a course by its last outcome. No `impl From`, since both types are other crates'.
#[tactic(auto, unfolding(crate::specs::End::answer_of))]
pub fn answer_of(s: Sent) -> Answer
    ensures { result ≡ answer_of s }
{
    match s {
        Sent::Done => Answer::Accepted,
        Sent::Failed(code) => Answer::Failed(code),
        Sent::Cut => Answer::Cut,
    }
}

// The answer after a failed Configure of a release or a set configuration.
#[tactic(auto, unfolding(crate::specs::End::configure_failed))]
pub fn configure_failed(code: u8, s: Sent) -> Answer
    ensures { result ≡ configure_failed code s }
{
    match s {
        Sent::Cut => Answer::Cut,
        _ => Answer::Failed(code),
    }
}

// An end that leaves the routes and the held settings as they were. A course names it in each arm that ends so, since each has sent
// another number of commands.
pub fn settings_kept(answer: Answer, count: usize, active: usize) -> CourseEnd
    ensures { result ≡ record { answer = answer; count = count; active = active; moved = false; doubted = false } }
{
    CourseEnd {
        answer,
        count,
        active,
        moved: false,
        doubted: false,
    }
}

// The same with the mark of a claim: lost with a Configure sent, so that the controller may hold the rings of new endpoints.
pub fn settings_marked(answer: Answer, count: usize, active: usize, doubted: bool) -> CourseEnd
    ensures { result ≡ record { answer = answer; count = count; active = active; moved = false; doubted = doubted } }
{
    CourseEnd {
        doubted,
        ..settings_kept(answer, count, active)
    }
}

#[tactic(auto, unfolding(crate::specs::End::is_unanswered))]
pub fn is_unanswered(s: Sent) -> bool
    ensures { result ≡ is_unanswered s }
{
    match s {
        Sent::Done => false,
        Sent::Failed(_) => false,
        Sent::Cut => true,
    }
}

// An end after which the old endpoints are gone.
pub fn settings_moved(answer: Answer, count: usize) -> CourseEnd
    ensures { result ≡ record { answer = answer; count = count; active = 0; moved = true; doubted = false } }
{
    CourseEnd {
        answer,
        count,
        active: 0,
        moved: true,
        doubted: false,
    }
}

// Moves routes as a course's last step: accepted, or answered and marked as refused where the routes do not allow it.
pub fn publish(
    routes: &mut [u64],
    slot: SlotId,
    old: Queues,
    new: Queues,
    n: usize,
    refused: Answer,
    doubted: bool,
) -> CourseEnd
    ensures { (o ctx log : List ℕ) →
        course_leaves result ctx routes.new log
        ≡ played o n (ends (move_routes refused doubted slot.0 (queues_in old) (queues_in new) ctx routes.old)) log }
{
    match publish_endpoint_routes(routes, slot, old, new) {
        Ok(()) => settings_moved(Answer::Accepted, n),
        Err(_) => settings_marked(refused, n, 0, doubted),
    }
}

// Resumes the endpoints of some queues as a course's last step; how that ends decides the answer.
pub fn resume<F: Fn(Sent) -> Answer>(
    log: &mut [u32],
    outcomes: &[u8],
    n: usize,
    q: Queues,
    answer: F,
) -> CourseEnd
    requires callable { F.IsAlwaysCallable answer }
    requires in_bounds { n + q.count ≤ length log.old }
    ensures { (of : Sent → Answer) (ctx routes : List ℕ) → Answers (F.post answer) of →
        course_leaves result ctx routes log.new
        ≡ played outcomes.now n (resumed of (dcis_in q) ctx routes) log.old }
{
    let back = resume_stopped_endpoints(log, outcomes, n, q);
    settings_kept(answer(back.sent), back.count, back.active)
}
