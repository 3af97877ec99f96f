// Settings for a wanted polling period: an alternate for each of up to eight interfaces that are named.
#![tactic(auto)]

ghost use Rattle.choice.specs.Choose.{Answered};

use choice_list::Chosen;
use choice_search::NAMES;
use device::Device;

// 12, 29, 30, or the first choice of the record's list, at its speed.
pub fn choose(d: &Device, names: &[u8], longest: u32) -> Chosen
    ensures { Answered d.now names.now longest result }
{
    if !d.usable || !d.sound() {
        return choice_list::refused(12);
    }
    if NAMES < names.len() {
        return choice_list::refused(29);
    }
    let list = &d.list[..d.list_len];
    choice_list::choose_in(list, d.port_speed, longest, names)
}
