// What a configuration says of the words after it.
ghost use Rattle.std.specs.Prelude.{◌≤◌, ◌≡◌, length};
ghost use Rattle.descriptor_raw.specs.Claims.{endpoints_after};
ghost use Rattle.descriptor_raw.specs.Write.{all_descriptors};
ghost use Rattle.descriptor_writer.specs.Written.{ClaimedAs};

use descriptor::WordKind;
use descriptor_raw::{Marks, size};

#[derive(Clone, Copy)]
pub struct Claims {
    pub bytes: usize,
    pub interfaces: usize,
}

// The bytes of the descriptors of the words up to the next configuration, and how many distinct interfaces they have.
pub fn claims_after(after: &[u32]) -> Claims
    requires { length after.now ≤ 256 }
    ensures { ClaimedAs after.now result }
{
    let mut marks = Marks::NONE;
    let mut bytes = 0;
    for w in after {
        match descriptor::word_kind(*w as u64) {
            Some(WordKind::Configuration) => {
                return Claims {
                    bytes,
                    interfaces: marks.count,
                };
            }
            Some(WordKind::Alternate) => {
                bytes += size::INTERFACE;
                marks.mark(descriptor::interface_number(*w as u64));
            }
            Some(WordKind::Endpoint) => bytes += size::ENDPOINT,
            // a companion
            None => bytes += size::COMPANION,
        }
    }
    Claims {
        bytes,
        interfaces: marks.count,
    }
}

// How many endpoint words there are before the next alternate or configuration word.
pub fn count_endpoints(after: &[u32]) -> usize
    ensures { (result ≡ endpoints_after (all_descriptors after.now)) × (result ≤ length after.now) }
{
    after
        .iter()
        .take_while(|w| descriptor::word_kind(**w as u64) != Some(WordKind::Configuration)
            && descriptor::word_kind(**w as u64) != Some(WordKind::Alternate))
        .filter(|w| descriptor::word_kind(**w as u64) == Some(WordKind::Endpoint))
        .count()
}
