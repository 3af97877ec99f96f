// The think time that a hub update is given.
ghost use Rattle.std.specs.Prelude.{◌≡◌};
ghost use Rattle.hub.specs.ThinkTime.{think_time};
ghost use Rattle.record_checks.specs.Think.{think_check, think_value};

use answer::Answer;

// 7, at High speed only.
#[tactic(auto, unfolding(crate::specs::Think::is_thought))]
pub fn think_check(speed: u8, ns: u32) -> Result<(), Answer>
    ensures { result ≡ think_check speed ns }
{
    if speed == def::HIGH && hub::think_time(ns).is_none() {
        return Err(Answer::ThinkTime);
    }
    Ok(())
}

// Its field; 0 where it is refused, which is not written then.
#[tactic(auto, unfolding(crate::specs::Think::think_value))]
pub fn think_value(ns: u32) -> u8
    ensures { result ≡ think_value (think_time ns) }
{
    hub::think_time(ns).unwrap_or(0)
}
