// Whether words are an image.
ghost use Rattle.std.specs.Prelude.{◌≡◌, fold, bit_or};
ghost use Rattle.device_image.specs.Image.{is_image};

use super::layout;

// The bits that any of the words has: a power of two is above them if it is above each word. A test of each word, as `all`, costs a call 650
// instructions more.
fn bits_of(words: &[u64]) -> u64
    ensures { result ≡ fold bit_or 0 words.now }
{
    words.iter().fold(0, |bits, w| bits | *w)
}

pub fn is_image(image: &[u64]) -> bool
    ensures { result ≡ is_image image.now }
{
    if image.len() != layout::WORDS {
        return false;
    }
    let flags = bits_of(&image[layout::USABLE..layout::SLOT]);
    let bytes = bits_of(&image[layout::SLOT..layout::LIST]);
    let words = bits_of(&image[layout::LIST..layout::SPACING]);
    flags < 2 && bytes < 256 && words < 4294967296 && image[layout::UP] < 2
}
