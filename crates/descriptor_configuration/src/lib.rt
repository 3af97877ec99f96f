// The words of one configuration of a list.
#![tactic(auto)]

ghost use Rattle.std.specs.Prelude.{◌≡◌, length};
ghost use Rattle.descriptor_configuration.specs.Words.{up_to_configuration};

use descriptor::WordKind;

// The words before the next configuration word.
pub fn up_to_configuration<'a>(words: &'a [u32]) -> &'a [u32]
    ensures { result.now ≡ up_to_configuration words.entry.now }
{
    let n = words
        .iter()
        .take_while(|w| descriptor::word_kind(**w as u64) != Some(WordKind::Configuration))
        .count();
    &words[..n]
}

// How many joined words stand before the next configuration word.
pub fn configuration_length(words: &[u64]) -> usize
    ensures { result ≡ length (up_to_configuration words.now) }
{
    words
        .iter()
        .take_while(|w| descriptor::word_kind(**w) != Some(WordKind::Configuration))
        .count()
}
