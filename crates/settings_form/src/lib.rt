// Held settings in the two forms of the maker's boards, and the conversions between them.
#![tactic(auto)]

mod form;
mod held;

ghost use Rattle.std.specs.Prelude.{◌≡◌, [], MatchOption};
ghost use Rattle.function_answer.specs.Answer.{leaves};
ghost use Rattle.settings_form.specs.Convert.{list_check, first_value, to_new, to_old};

use function_answer::Refusal;

// How many bytes are lent at least.
pub const ROOM: usize = 66;

// The bytes of 32 pairs.
const PAIR_BYTES: usize = 64;

// Both ways: the bytes lent, the speed, and the list.
#[tactic(auto, unfolding(crate::specs::Convert::list_check))]
fn list_check(list: &[u32], speed: u8, lent: usize) -> Result<(), Refusal>
    ensures { result ≡ list_check speed list.now lent }
{
    if lent < ROOM {
        return Err(Refusal::TooShort);
    }
    if !def::speed_known(speed) {
        return Err(Refusal::Speed);
    }
    if !descriptor_list::list_ok(list, speed) {
        return Err(Refusal::DescriptorList);
    }
    if !descriptor_list::companions_fit(list, speed) {
        return Err(Refusal::Companion);
    }
    Ok(())
}

// The value of a list's first configuration.
#[tactic(auto, unfolding(crate::specs::Convert::first_value))]
fn first_value(list: &[u32]) -> Option<u8>
    ensures { MatchOption result (list.now ≡ []) (λ value. value ≡ first_value list.now) }
{
    Some(descriptor::configuration_value(*list.first()? as u64))
}

// Old settings to new ones, into the first bytes that are lent.
#[tactic(auto, unfolding(crate::specs::Convert::to_new, function_answer::specs::Answer::on_check))]
pub fn to_new(settings: &[u8], list: &[u32], speed: u8, bytes: &mut [u8]) -> Result<usize, Refusal>
    ensures { leaves result bytes.new ≡ to_new speed settings.now list.now bytes.old }
{
    list_check(list, speed, bytes.len())?;
    let Some(value) = first_value(list) else {
        return Err(Refusal::Settings);
    };
    if !held::settings_held(list, value, settings) {
        return Err(Refusal::Settings);
    }
    form::put_form(value, settings, bytes);
    Ok(settings.len() + 2)
}

// New settings to old ones, into the first bytes that are lent.
#[tactic(auto, unfolding(crate::specs::Convert::to_old, function_answer::specs::Answer::on_check))]
pub fn to_old(settings: &[u8], list: &[u32], speed: u8, bytes: &mut [u8]) -> Result<usize, Refusal>
    ensures { leaves result bytes.new ≡ to_old speed settings.now list.now bytes.old }
{
    list_check(list, speed, bytes.len())?;
    let Some(first) = first_value(list) else {
        return Err(Refusal::Settings);
    };
    if !form::is_form(settings) || ROOM < settings.len() {
        return Err(Refusal::Settings);
    }
    let value = settings[0];
    let n = settings.len() - 2;
    // The pairs are judged before anything is written to what is lent, in memory of its own, since there is no heap.
    let mut all = [0u8; PAIR_BYTES];
    form::take_pairs(settings, &mut all);
    let pairs = &all[..n];
    if !held::settings_held(list, value, pairs) {
        return Err(Refusal::Settings);
    }
    if value != first {
        return Err(Refusal::OtherConfiguration);
    }
    bytes[..n].copy_from_slice(pairs);
    Ok(n)
}
