// A claim in two calls: the ask shows what it would do, the commit does it.
ghost use Rattle.std.specs.Prelude.{◌≡◌, true, ◌&&◌, Some};
ghost use Rattle.answer.specs.declared.Answer.TheVariants as answers;
ghost use Rattle.answer.specs.Check.{Pass, CheckedAs};
ghost use Rattle.descriptor_list.specs.Lookup.{find_endpoints};
ghost use Rattle.device.specs.Device.{list_of};
ghost use Rattle.device.specs.Sound.{sound};
ghost use Rattle.device.specs.Left.{leaves};
ghost use Rattle.device.specs.Claim.{claim_check};
ghost use Rattle.device.specs.Ask.{ask_in, no_ask, ask_of, ask_check, ask, same_ask, current_check, commit, PreviewAs};

use super::record::{Called, Device};
use super::{claim, endpoint_map};
use answer::Answer;
use descriptor_list::EndpointWords;
use record_checks::Lengths;
use record_endpoint::PLACES;
use record_ring::GivenRings;
use record_settings::SettingWords;

// What an ask hands back: its answer and, of an accepted one, the flags of the endpoints that a claim would drop and add, and the rings
// that it would draw, the first `count` of an array. Of a refused one all else is 0. No Result: the exported ask, the one caller, gives
// C each of these at every answer, and would have to make the zeros of an error again.
#[derive(Clone, Copy)]
pub struct Preview {
    pub answer: Answer,
    pub interface: u8,
    pub alternate: u8,
    pub drops: u32,
    pub adds: u32,
    pub rings: [u64; PLACES],
    pub count: usize,
}

// What a commit is given of the ask that it is to carry out.
#[derive(Clone, Copy)]
pub struct Asked<'a> {
    pub interface: u8,
    pub alternate: u8,
    pub drops: u32,
    pub adds: u32,
    pub rings: &'a [u64],
}

impl Device {
    // What a claim that is lent a context, a table and a log of these lengths would do.
    pub fn ask(self, l: Lengths, interface: u8, alternate: u8) -> Preview
        ensures { PreviewAs result (ask self l.ctx l.routes l.log interface alternate) }
    {
        match claim::claim_check(&self, l, interface, alternate) {
            Ok(found) => show_claim(&self, interface, alternate, found),
            Err(a) => no_preview(a),
        }
    }

    // The claim that an ask has shown, unless another would be shown now.
    pub fn commit(
        mut self,
        ctx: &mut [u8],
        routes: &mut [u64],
        log: &mut [u32],
        outcomes: &[u8],
        asked: Asked,
    ) -> Called
        ensures { leaves result ctx.new routes.new log.new
            ≡ commit self ctx.old routes.old log.old outcomes.now (ask_in asked.entry) }
    {
        let l = Lengths {
            ctx: ctx.len(),
            routes: routes.len(),
            log: log.len(),
        };
        let checked = commit_check(&self, l, asked);
        let e = claim::run_claim(
            &mut self,
            ctx,
            routes,
            log,
            outcomes,
            asked.interface,
            asked.alternate,
            checked,
        );
        Called {
            device: self,
            answer: e.answer,
            count: e.count,
        }
    }
}

// The checks of a claim, and then 22.
fn commit_check(d: &Device, l: Lengths, asked: Asked) -> Result<EndpointWords, Answer>
    ensures { CheckedAs result (ask_check d.now l.ctx l.routes l.log asked.entry.interface asked.entry.alternate (current_check d.now (ask_in asked.entry)))
        (find_endpoints (list_of d.now) asked.entry.interface asked.entry.alternate) }
{
    let found = claim::claim_check(d, l, asked.interface, asked.alternate)?;
    if !is_current(d, found, asked) {
        return Err(Answer::OutdatedAsk);
    }
    Ok(found)
}

// Of a claim whose checks have passed and found the setting's endpoint words. (No type says so: a ghost field speaks of its own struct's
// fields, so the struct would have the whole record among them.)
fn show_claim(d: &Device, interface: u8, alternate: u8, found: EndpointWords) -> Preview
    requires d_value { ((d.now.usable && sound d.now) ≡ true) × (claim_check d.now interface alternate Pass ≡ Pass) }
    requires alternate_value { find_endpoints (list_of d.now) interface alternate ≡ Some found }
    ensures { PreviewAs result (answers.Accepted, ask_of d.now interface alternate) }
{
    let args = claim::claim_args(d, interface, alternate);
    let list = d.list();
    let old = claim::old_words(list, args);
    let new = SettingWords::found_in(list, found);
    let new_words = new.words();
    let c = endpoint_map::endpoint_map_in(d);
    let given = GivenRings { rings: d.given() };
    Preview {
        answer: Answer::Accepted,
        interface,
        alternate,
        drops: context_block::word_flags(old.words()),
        adds: context_block::word_flags(new_words),
        rings: record_checks::drawn_in_order(given, &c.rings, d.control, new_words),
        count: new_words.len(),
    }
}

#[tactic(auto, unfolding(crate::specs::Ask::no_ask))]
fn no_preview(a: Answer) -> Preview
    ensures { PreviewAs result (a, no_ask) }
{
    Preview {
        answer: a,
        interface: 0,
        alternate: 0,
        drops: 0,
        adds: 0,
        rings: [0; PLACES],
        count: 0,
    }
}

// Whether an ask would now return these flags and rings.
fn is_current(d: &Device, found: EndpointWords, asked: Asked) -> bool
    requires d_value { ((d.now.usable && sound d.now) ≡ true) × (claim_check d.now asked.interface asked.alternate Pass ≡ Pass) }
    requires found_value { find_endpoints (list_of d.now) asked.interface asked.alternate ≡ Some found }
    ensures { result ≡ same_ask (ask_in asked.entry) (ask_of d.now asked.entry.interface asked.entry.alternate) }
{
    let shown = show_claim(d, asked.interface, asked.alternate, found);
    if asked.drops != shown.drops || asked.adds != shown.adds {
        return false;
    }
    asked.rings == &shown.rings[..shown.count]
}
