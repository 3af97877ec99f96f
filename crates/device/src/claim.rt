// The claim of an interface's alternate setting.
ghost use Rattle.std.specs.Prelude.{◌≡◌, ◌≤◌, ℕ, List, [], Some, Ok, true, false, length, take};
ghost use Rattle.std.specs.Option.{option_map_or};
ghost use Rattle.answer.specs.Answer.{is_lost};
ghost use Rattle.answer.specs.Check.{Pass, check_of, CheckedAs};
ghost use Rattle.descriptor_list.specs.declared.EndpointWords as words;
ghost use Rattle.descriptor_list.specs.Companions.{joined, Joinable};
ghost use Rattle.descriptor_list.specs.Lookup.{find_endpoints};
ghost use Rattle.record_ring.specs.Rings.{entered};
ghost use Rattle.record_endpoint.specs.EndpointMap.{QueuesAs};
ghost use Rattle.record_settings.specs.Held.{HELD-ROOM, setting_words, with_setting};
ghost use Rattle.record_settings.specs.Words.{words_in};
ghost use Rattle.course_steps.specs.Arrays as arrays;
ghost use Rattle.device.specs.Device.{list_of, endpoint_map_in, held_of, quarantined_of};
ghost use Rattle.device.specs.Left.{leaves, called_of, refused, ended};
ghost use Rattle.device.specs.Calls.{on_check};
ghost use Rattle.device.specs.Claim.{drawn, pending_of, args_in, claim_record, claim_run, claim};
ghost use Rattle.device.specs.Ask.{ask_check};

use super::record::{Called, Device};
use super::update::Ended;
use super::{endpoint_map, update};
use answer::Answer;
use course_claim::{ClaimArgs, ClaimPlan};
use course_steps::CourseEnd;
use descriptor_list::EndpointWords;
use record_checks::Lengths;
use record_endpoint::{EndpointMap, Owner, PLACES, Queues};
use record_ring::GivenRings;
use record_settings::SettingWords;

impl Device {
    // The old endpoints are stopped and dropped, those of the setting added with rings drawn from the free ones, and the device switched.
    pub fn claim(
        mut self,
        ctx: &mut [u8],
        routes: &mut [u64],
        log: &mut [u32],
        outcomes: &[u8],
        interface: u8,
        alternate: u8,
    ) -> Called
        ensures { leaves result ctx.new routes.new log.new
            ≡ claim self ctx.old routes.old log.old outcomes.now interface alternate }
    {
        let l = Lengths {
            ctx: ctx.len(),
            routes: routes.len(),
            log: log.len(),
        };
        let checked = claim_check(&self, l, interface, alternate);
        let e = run_claim(
            &mut self, ctx, routes, log, outcomes, interface, alternate, checked,
        );
        Called {
            device: self,
            answer: e.answer,
            count: e.count,
        }
    }
}

// 12, 1, 2, 3, and then 8, 9, 21: it needs the lengths of what is lent, and hands on where the setting's endpoint words stand. (An
// interface and its alternate stay two bytes: the lookups of record_settings, `draw_check` and `with_setting`, to which they go on, take two.)
pub fn claim_check(
    d: &Device,
    l: Lengths,
    interface: u8,
    alternate: u8,
) -> Result<EndpointWords, Answer>
    ensures { CheckedAs result (ask_check d.now l.ctx l.routes l.log interface alternate Pass) (find_endpoints (list_of d.now) interface alternate) }
{
    d.record_check(l)?;
    let c = endpoint_map::endpoint_map_in(d);
    // A usable record has no ring in quarantine.
    let free = d.given_count - d.ep_count - 1;
    record_checks::draw_check(d.list(), interface, alternate, c, free)
}

// The course of a claim, or the refusal of its checks.
pub fn run_claim(
    d: &mut Device,
    ctx: &mut [u8],
    routes: &mut [u64],
    log: &mut [u32],
    outcomes: &[u8],
    interface: u8,
    alternate: u8,
    checked: Result<EndpointWords, Answer>,
) -> Ended
    requires { (found : words.EndpointWords) → checked ≡ Ok found →
        (ask_check d.old (length ctx.old) (length routes.old) (length log.old) interface alternate Pass ≡ Pass)
        × (find_endpoints (list_of d.old) interface alternate ≡ Some found) }
    ensures { leaves (called_of d.new result) ctx.new routes.new log.new
        ≡ on_check (check_of checked)
        (claim_run d.old ctx.old routes.old log.old outcomes.now interface alternate (drawn d.old interface alternate))
        (λ a. refused d.old a ctx.old routes.old log.old) }
{
    let found = match checked {
        Ok(found) => found,
        Err(a) => return update::refused(a),
    };
    let args = claim_args(d, interface, alternate);
    let list = d.list();
    let old = old_words(list, args);
    let new = SettingWords::found_in(list, found);
    let new_words = new.words();
    let c = endpoint_map::endpoint_map_in(d);
    let given = GivenRings { rings: d.given() };
    let pending = record_checks::drawn_rings(given, &c.rings, d.control, new_words);
    let own = record_endpoint::owned_rings(Owner::Interface(interface), c);
    let plan = ClaimPlan {
        args,
        old: record_endpoint::queues_of(own),
        pending: record_endpoint::queues_of(pending),
        all: record_endpoint::queues_of(c.rings),
    };
    let e = course_claim::claim_interface(ctx, routes, log, outcomes, plan, old.words(), new_words);
    claim_end(d, c, interface, alternate, pending, plan.pending, e)
}

pub fn claim_args(d: &Device, interface: u8, alternate: u8) -> ClaimArgs
    requires { d.now.held_count ≤ HELD-ROOM }
    ensures { result ≡ args_in d.now interface alternate }
{
    ClaimArgs {
        slot: d.slot,
        spacing: d.spacing,
        speed: d.port_speed,
        interface,
        alternate,
        held_alternate: d.settings().alternate_of(interface),
    }
}

// The endpoint words of the setting that the interface holds.
pub fn old_words(list: &[u32], a: ClaimArgs) -> SettingWords
    requires { Joinable list.now }
    ensures { words_in result ≡ option_map_or (setting_words (joined list.now) a.interface) a.held_alternate [] }
{
    match a.held_alternate {
        Some(alternate) => SettingWords::of_setting(list, a.interface, alternate),
        None => SettingWords::NONE,
    }
}

// The end of the course makes the record; where it is lost with a Configure sent, the pending rings go in quarantine.
fn claim_end(
    d: &mut Device,
    c: EndpointMap,
    interface: u8,
    alternate: u8,
    pending: [u64; PLACES],
    q: Queues,
    e: CourseEnd,
) -> Ended
    requires held_count_bound { (d.old.held_count ≤ HELD-ROOM) × (length (with_setting interface alternate (held_of d.old)) ≤ HELD-ROOM) }
    requires c_value { (c ≡ endpoint_map_in d.old) × (entered (quarantined_of d.old) (take q.count q.rings) ≡ take q.count q.rings) × QueuesAs q pending }
    requires doubted { e.doubted ≡ true → (e.moved ≡ false) × (is_lost e.answer ≡ true) }
    ensures { (ctx routes log rings : List ℕ) → pending ≡ pending_of d.old interface alternate rings →
        leaves (called_of d.new result) ctx routes log ≡ ended (claim_record d.old interface alternate rings) (arrays.course_leaves e ctx routes log) }
{
    let held = d.settings().with_setting(interface, alternate);
    let claimed = record_endpoint::claimed_endpoints(interface, pending, c);
    if e.doubted {
        update::quarantine(d, q);
    }
    update::at_end(d, c, e, Owner::Interface(interface), claimed, held)
}
