// The checks of a bring-up, in 01's order; the last of them registers control's route.
ghost use Rattle.std.specs.Prelude.{◌≡◌, cond, ◌&&◌, eqb, leb};
ghost use Rattle.transfer.specs.Routes.{with_route};
ghost use Rattle.record_ring.specs.Store.{least};
ghost use Rattle.answer.specs.declared.Answer.{Answer};
ghost use Rattle.answer.specs.Check.{Pass, Refuse};
ghost use Rattle.course_init.specs.Reading.{bring_up_of};
ghost use Rattle.device_bring_up.specs.BringUp.{bring_up_check};

use answer::Answer;
use course_init::BringUpArgs;
use def::Dci;
use record_checks::Lengths;

// Whether a slot is one of the slots, of which there are 255 at most.
fn slot_fits(slot: usize, max_slots: usize) -> bool
    ensures { result ≡ (leb 1 slot && (leb slot max_slots && leb max_slots 255)) }
{
    1 <= slot && slot <= max_slots && max_slots <= 255
}

// 11, 1, 2, 3, 6, 4, 26, 5, 10, 17; control's route is registered where they pass.
pub fn enter(
    routes: &mut [u64],
    a: BringUpArgs,
    spacing: usize,
    ctx: usize,
    log: usize,
    ring: u64,
    rings: &[u64],
    hubs: &[u64],
    list: &[u32],
) -> Result<(), Answer>
    requires spacing_value { spacing ≡ cond (eqb ctx 1056) 32 64 }
    requires ring_value { ring ≡ least rings.now }
    ensures { (result ≡ bring_up_check (bring_up_of a rings.now hubs.now list.now) ctx routes.old log)
        × ((result ≡ Pass) → routes.new ≡ with_route routes.old a.slot.0 1 (least rings.now))
        × ((x : Answer) → (result ≡ Refuse x) → routes.new ≡ routes.old) }
{
    if !slot_fits(a.slot.0 as usize, a.max_slots) {
        return Err(Answer::SlotLimitReached);
    }
    let l = Lengths {
        ctx,
        routes: routes.len(),
        log,
    };
    record_checks::lengths_check(spacing, a.max_slots as u8, l)?;
    if !def::speed_known(a.speed) {
        return Err(Answer::Speed);
    }
    if !descriptor_list::list_ok(list, a.speed) {
        return Err(Answer::DescriptorList);
    }
    if !descriptor_list::companions_fit(list, a.speed) {
        return Err(Answer::Companion);
    }
    if !hub::chain_ok(hubs, a.parent) {
        return Err(Answer::HubChain);
    }
    if !record_ring::given_fit(rings) {
        return Err(Answer::Rings);
    }
    transfer::register_queue(routes, a.slot, Dci::CTRL, ring).map_err(|_| Answer::QueueFull)
}
