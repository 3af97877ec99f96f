// The lists of a record, each the front of an array. They ask that its count fits, which no type can keep: an image may say any record,
// and what refuses one is `sound`.
ghost use Rattle.std.specs.Prelude.{◌≡◌, ◌≤◌};
ghost use Rattle.descriptor_list.specs.Valid.{LIST-ROOM};
ghost use Rattle.record_ring.specs.Rings.{RING-ROOM};
ghost use Rattle.record_ring.specs.Store.{GIVEN-ROOM};
ghost use Rattle.record_settings.specs.Held.{HELD-ROOM, held_by};
ghost use Rattle.device.specs.Device.{words_of, held_of, quarantined_of, given_of};

use super::record::Device;
use record_settings::Settings;

impl Device {
    // the words of the descriptor list
    #[tactic(auto, unfolding(crate::specs::Device::words_of))]
    pub(crate) fn list(&self) -> &[u32]
        requires { self.now.list_len ≤ LIST-ROOM }
        ensures { result.now ≡ words_of self.now }
    {
        &self.list[..self.list_len]
    }

    // the held settings
    #[tactic(auto, unfolding(crate::specs::Device::held_of))]
    pub(crate) fn settings(&self) -> Settings
        requires { self.now.held_count ≤ HELD-ROOM }
        ensures { held_by result ≡ held_of self.now }
    {
        let interfaces = self.interfaces;
        let alternates = self.alternates;
        Settings {
            interfaces,
            alternates,
            count: self.held_count,
        }
    }

    // the rings in quarantine
    #[tactic(auto, unfolding(crate::specs::Device::quarantined_of))]
    pub(crate) fn quarantined(&self) -> &[u64]
        requires { self.now.quarantined_count ≤ RING-ROOM }
        ensures { result.now ≡ quarantined_of self.now }
    {
        &self.quarantined[..self.quarantined_count]
    }

    // the given rings
    #[tactic(auto, unfolding(crate::specs::Device::given_of))]
    pub(crate) fn given(&self) -> &[u64]
        requires { self.now.given_count ≤ GIVEN-ROOM }
        ensures { result.now ≡ given_of self.now }
    {
        &self.given[..self.given_count]
    }
}
