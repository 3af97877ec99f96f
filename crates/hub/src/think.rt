// The think time of a High speed hub: the gap that its transaction translator needs between transactions.
ghost use Rattle.std.specs.Prelude.{◌≡◌};
ghost use Rattle.hub.specs.ThinkTime.{think_time};

// Eight bit times at Full speed, in nanoseconds.
const EIGHT_BIT_TIMES: u32 = 666;

// The think time field of a hub's slot context, for a hub's think time in nanoseconds.
#[tactic(auto, unfolding(crate::specs::ThinkTime::think_time))]
pub fn think_time(ns: u32) -> Option<u8>
    ensures { result ≡ think_time ns }
{
    if ns == 0 {
        return Some(0);
    }
    match ns / EIGHT_BIT_TIMES {
        q @ 1..=4 => Some((q - 1) as u8),
        _ => None,
    }
}
