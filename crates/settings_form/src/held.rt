// Whether a list of descriptor words has settings.
ghost use Rattle.std.specs.Prelude.{◌≡◌, MatchOption, Some, None};
ghost use Rattle.settings_form.specs.Held.{is_configuration, configuration_words, pairs_held, settings_held};
ghost use Rattle.std.specs.List.{list_any};
ghost use Rattle.descriptor_list.specs.Lookup.{is_alternate};

use super::PAIR_BYTES;
use descriptor::WordKind;

#[tactic(auto, using(descriptor::proofs::Kind::kind_test), unfolding(crate::specs::Held::is_configuration))]
fn is_configuration(w: u32, value: u8) -> bool
    ensures { result ≡ is_configuration value w }
{
    descriptor::word_kind(w as u64) == Some(WordKind::Configuration)
        && descriptor::configuration_value(w as u64) == value
}

// The words of the first configuration of a value.
fn configuration_words<'a>(list: &'a [u32], value: u8) -> Option<&'a [u32]>
    ensures { MatchOption result (configuration_words value list.entry.now ≡ None) (λ words. configuration_words value list.entry.now ≡ Some words.now) }
{
    let at = list.iter().position(|w| is_configuration(*w, value))?;
    Some(descriptor_configuration::up_to_configuration(&list[at + 1..]))
}

fn has_alternate(words: &[u32], interface: u8, alternate: u8) -> bool
    ensures { result ≡ list_any (is_alternate interface alternate) words.now }
{
    words.iter().any(|w| descriptor::word_kind(*w as u64) == Some(WordKind::Alternate)
        && descriptor::interface_number(*w as u64) == interface
        && descriptor::alternate_setting(*w as u64) == alternate)
}

// Whether words have each pair, and interfaces rise.
fn pairs_held(words: &[u32], pairs: &[u8]) -> bool
    ensures { result ≡ pairs_held 0 words.now pairs.now }
{
    let mut least = 0usize;
    let mut left = pairs;
    while let [interface, alternate, rest @ ..] = left {
        if (*interface as usize) < least || !has_alternate(words, *interface, *alternate) {
            return false;
        }
        least = *interface as usize + 1;
        left = rest;
    }
    left.is_empty()
}

// Whether a list has settings in the first configuration of a value.
pub fn settings_held(list: &[u32], value: u8, pairs: &[u8]) -> bool
    ensures { result ≡ settings_held list.now value pairs.now }
{
    if PAIR_BYTES < pairs.len() {
        return false;
    }
    let Some(words) = configuration_words(list, value) else {
        return false;
    };
    pairs_held(words, pairs)
}
