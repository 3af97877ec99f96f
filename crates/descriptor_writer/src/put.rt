// Descriptors put one after the other.
ghost use Rattle.std.specs.Prelude.{◌≤◌, ◌≡◌, length};
ghost use Rattle.std.proofs.lemmas.List.Edits.{sets};
ghost use Rattle.descriptor_raw.specs.Write.{descriptor_of, all_descriptors, written_bytes};
ghost use Rattle.descriptor_writer.specs.Written.{Listed, Room};

use super::claims::{claims_after, count_endpoints};
use super::made::{companion_of, configuration_descriptor, endpoint_of, interface_descriptor};
use descriptor::WordKind;
use descriptor_raw::size;

// Puts the descriptor of a word to the front of bytes. Says how many bytes it has.
fn put_descriptor(w: u32, after: &[u32], bytes: &mut [u8]) -> usize
    requires { Room w after.now (length bytes.old) }
    ensures { (result ≡ length (descriptor_of w (all_descriptors after.now))) × (bytes.new ≡ sets bytes.old 0 (descriptor_of w (all_descriptors after.now))) }
{
    let w = w as u64;
    match descriptor::word_kind(w) {
        Some(WordKind::Configuration) => {
            let c = claims_after(after);
            let value = descriptor::configuration_value(w);
            let d = configuration_descriptor(size::CONFIGURATION + c.bytes, c.interfaces, value);
            bytes[..size::CONFIGURATION].copy_from_slice(&d);
            size::CONFIGURATION
        }
        Some(WordKind::Alternate) => {
            let interface = descriptor::interface_number(w);
            let alternate = descriptor::alternate_setting(w);
            let d = interface_descriptor(interface, alternate, count_endpoints(after));
            bytes[..size::INTERFACE].copy_from_slice(&d);
            size::INTERFACE
        }
        Some(WordKind::Endpoint) => {
            bytes[..size::ENDPOINT].copy_from_slice(&endpoint_of(w));
            size::ENDPOINT
        }
        // a companion
        None => {
            bytes[..size::COMPANION].copy_from_slice(&companion_of(w));
            size::COMPANION
        }
    }
}

// Puts the descriptors of a list. Says how many bytes they have.
pub fn put_all(list: &[u32], bytes: &mut [u8]) -> usize
    requires { Listed list.now × (2304 ≤ length bytes.old) }
    ensures { (result ≡ length (written_bytes list.now)) × (bytes.new ≡ sets bytes.old 0 (written_bytes list.now)) }
{
    let mut at = 0;
    let mut words = list;
    while let Some((w, after)) = words.split_first() {
        at += put_descriptor(*w, after, &mut bytes[at..]);
        words = after;
    }
    at
}
