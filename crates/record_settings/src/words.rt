// The endpoint words of a setting, each with its companion: by value, so that nothing more of a joined list is held than these.
ghost use Rattle.std.specs.Prelude.{◌≤◌};
ghost use Rattle.record_endpoint.specs.Order.{PLACES};

use super::lookup;
use descriptor_list::{EndpointWords, LIST_ROOM};
use record_endpoint::PLACES;

// The first `count` of the array.
#[derive(Clone, Copy)]
pub struct SettingWords {
    pub words: [u64; PLACES],
    pub count: usize,
    pub ghost fits: { count ≤ PLACES },
}

impl SettingWords {
    ghost use Rattle.std.specs.Prelude.{◌≡◌, ◌+◌, length, take, drop};
    ghost use Rattle.descriptor_list.specs.Valid.{LIST-ROOM};
    ghost use Rattle.descriptor_list.specs.Companions.{joined, Joinable};
    ghost use Rattle.record_settings.specs.Held.{setting_words};
    ghost use Rattle.record_settings.specs.Words.{words_in};

    pub const NONE: SettingWords = SettingWords {
        words: [0; PLACES],
        count: 0,
    };

    fn of(words: &[u64]) -> SettingWords
        requires { length words.now ≤ PLACES }
        ensures { words_in result ≡ words.now }
    {
        SettingWords {
            words: record_endpoint::padded(words, 0),
            count: words.len(),
        }
    }

    // none where lookup finds none
    #[inline(never)]
    pub fn of_setting(list: &[u32], interface: u8, alternate: u8) -> SettingWords
        requires { Joinable list.now }
        ensures { words_in result ≡ setting_words (joined list.now) interface alternate }
    {
        let mut words = [0; LIST_ROOM];
        let count = descriptor_list::join(list, &mut words);
        SettingWords::of(lookup::setting_words(&words[..count], interface, alternate))
    }

    // those that lookup has found
    #[inline(never)]
    pub fn found_in(list: &[u32], found: EndpointWords) -> SettingWords
        requires { (length list.now ≤ LIST-ROOM) × ((found.start + found.count ≤ length (joined list.now)) × (found.count ≤ PLACES)) }
        ensures { words_in result ≡ take found.count (drop found.start (joined list.now)) }
    {
        let mut words = [0; LIST_ROOM];
        let count = descriptor_list::join(list, &mut words);
        SettingWords::of(found.in_list(&words[..count]))
    }

    pub fn words(&self) -> &[u64]
        ensures { result.now ≡ words_in self.now }
    {
        &self.words[..self.count]
    }
}
