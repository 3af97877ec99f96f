// The checks that every call on a record begins with.
ghost use Rattle.std.specs.Prelude.{◌≡◌};
ghost use Rattle.answer.specs.Check.{Pass};
ghost use Rattle.device.specs.Check.{check_marked, record_check, disconnect_check};

use super::record::Device;
use answer::Answer;
use record_checks::Lengths;

impl Device {
    // 12 where the mark is not set, 1, 2, 3.
    fn check_marked(&self, mark: bool, l: Lengths) -> Result<(), Answer>
        ensures { result ≡ check_marked mark self.now l.ctx l.routes l.log Pass }
    {
        if !mark || !self.sound() {
            return Err(Answer::Unusable);
        }
        record_checks::lengths_check(self.spacing, self.max_slots, l)
    }

    #[tactic(auto, unfolding(crate::specs::Check::record_check))]
    pub fn record_check(&self, l: Lengths) -> Result<(), Answer>
        ensures { result ≡ record_check self.now l.ctx l.routes l.log Pass }
    {
        self.check_marked(self.usable, l)
    }

    // The unplugging's: a record that is up need not be usable.
    #[tactic(auto, unfolding(crate::specs::Check::disconnect_check))]
    pub fn disconnect_check(&self, l: Lengths) -> Result<(), Answer>
        ensures { result ≡ disconnect_check self.now l.ctx l.routes l.log }
    {
        self.check_marked(self.up, l)
    }
}
