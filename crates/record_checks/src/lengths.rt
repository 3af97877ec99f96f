// The lengths of what is lent to a call.
ghost use Rattle.std.specs.Prelude.{◌≡◌, ◌≤◌};
ghost use Rattle.answer.specs.Check.{Pass};
ghost use Rattle.record_checks.specs.Lengths.{lengths_check};

use answer::Answer;
use command::LOG_ROOM;

// How long the context, the route table and the log of a call are.
#[derive(Clone, Copy)]
pub struct Lengths {
    pub ctx: usize,
    pub routes: usize,
    pub log: usize,
}

// 1, 2, 3.
pub fn lengths_check(spacing: usize, max_slots: u8, l: Lengths) -> Result<(), Answer>
    requires { spacing ≤ 64 }
    ensures { result ≡ lengths_check spacing max_slots l.ctx l.routes l.log Pass }
{
    if l.ctx != 33 * spacing {
        return Err(Answer::ContextLength);
    }
    if l.routes != 32 * (usize::from(max_slots) + 1) {
        return Err(Answer::RoutesLength);
    }
    if l.log < LOG_ROOM {
        return Err(Answer::LogTooShort);
    }
    Ok(())
}
