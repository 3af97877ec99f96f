// What a refusal and the end of a course make of a record.
ghost use Rattle.std.specs.Prelude.{◌≡◌, cond, false, List, take};
ghost use Rattle.answer.specs.Answer.{is_lost};
ghost use Rattle.record_endpoint.specs.EndpointMap.{with_active};
ghost use Rattle.record_ring.specs.Rings.{entered};
ghost use Rattle.record_settings.specs.Held.{Held, SettingsAs};
ghost use Rattle.device.specs.Device.{quarantined_of, with_endpoints, with_held, with_quarantined};
ghost use Rattle.device.specs.Left.{marked, called_of};

use super::record::Device;
use answer::Answer;
use course_steps::CourseEnd;
use record_endpoint::{EndpointMap, Endpoints, Owner, Queues};
use record_settings::Settings;

// The answer of a call, and how many words it logged.
#[derive(Clone, Copy)]
pub struct Ended {
    pub answer: Answer,
    pub count: usize,
}

// A refusal changes nothing.
pub fn refused(a: Answer) -> Ended
    ensures { result ≡ record { answer = a; count = 0 } }
{
    Ended {
        answer: a,
        count: 0,
    }
}

// Whether a record is usable after an answer, if it was.
#[tactic(auto, unfolding(answer::specs::Answer::number))]
pub fn still_usable(usable: bool, a: Answer) -> bool
    ensures { result ≡ cond (is_lost a) false usable }
{
    match a {
        Answer::InterfaceBroken | Answer::Cut => false,
        _ => usable,
    }
}

// 14 and 15 make it unusable.
pub fn mark(d: &mut Device, a: Answer)
    ensures { d.new ≡ marked a d.old }
{
    d.usable = still_usable(d.usable, a);
}

// The rings of some queues in quarantine, which is empty: they enter it as they are.
pub fn quarantine(d: &mut Device, q: Queues)
    requires { entered (quarantined_of d.old) (take q.count q.rings) ≡ take q.count q.rings }
    ensures { d.new ≡ with_quarantined (take q.count q.rings) d.old }
{
    let quarantined = record_endpoint::padded(q.rings(), 0);
    d.quarantined = quarantined;
    d.quarantined_count = q.count;
}

// Other endpoints and held settings where the course moved them, else the owner's endpoints as far as they were made active again.
pub fn at_end(
    d: &mut Device,
    c: EndpointMap,
    e: CourseEnd,
    who: Owner,
    moved: EndpointMap,
    held: Settings,
) -> Ended
    ensures { (hs : List Held) → SettingsAs held hs →
        called_of d.new result ≡ record {
          device = marked e.answer (cond e.moved (with_held hs (with_endpoints moved d.old)) (with_endpoints (with_active who e.active c) d.old));
          answer = e.answer;
          count = e.count;
        } }
{
    let left = if e.moved {
        let Settings {
            interfaces,
            alternates,
            count,
        } = held;
        d.interfaces = interfaces;
        d.alternates = alternates;
        d.held_count = count;
        moved
    } else {
        record_endpoint::with_active(who, e.active, c)
    };
    let Endpoints { eps, owners, count } = record_endpoint::endpoints_of(left);
    d.eps = eps;
    d.ep_interfaces = owners;
    d.ep_count = count;
    mark(d, e.answer);
    Ended {
        answer: e.answer,
        count: e.count,
    }
}
