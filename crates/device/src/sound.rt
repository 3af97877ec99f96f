// Whether a record is sound, for any record whatsoever.
ghost use Rattle.std.specs.Prelude.{◌≡◌};
ghost use Rattle.device.specs.Sound.{sound};

use super::record::Device;

impl Device {
    #[tactic(auto, unfolding(crate::specs::Sound::sound, crate::specs::Sound::slot_sound, crate::specs::Sound::counts_fit))]
    pub fn sound(&self) -> bool
        ensures { result ≡ sound self.now }
    {
        if !record_checks::slot_sound(self.slot.0, self.max_slots, self.spacing, self.port_speed) {
            return false;
        }
        if !record_checks::counts_fit(
            self.list_len,
            self.ep_count,
            self.held_count,
            self.quarantined_count,
            self.given_count,
        ) {
            return false;
        }
        let settings = self.settings();
        let eps = &self.eps[..self.ep_count];
        let owners = &self.ep_interfaces[..self.ep_count];
        record_checks::lists_sound(self.list(), self.port_speed, &settings, eps, owners)
            && record_checks::rings_sound(
                self.usable,
                eps,
                self.control,
                self.quarantined(),
                self.given(),
            )
    }
}
