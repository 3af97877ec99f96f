// The words of descriptors.
ghost use Rattle.std.specs.Prelude.{◌≤◌, ◌≡◌, ◌&&◌, length};
ghost use Rattle.std.proofs.lemmas.List.Edits.{sets};
ghost use Rattle.descriptor_list.specs.Companions.{list_ok, companions_fit};
ghost use Rattle.function_answer.specs.declared.Refusal.TheVariants.{DescriptorList, Companion};
ghost use Rattle.function_answer.specs.Answer.{leaves, accepts, unless};
ghost use Rattle.descriptor_raw.specs.Words.{configuration_word, alternate_word, endpoint_word, companion_word};
ghost use Rattle.descriptor_raw.specs.Read.{words_of, is_isochronous, settled_word};
ghost use Rattle.descriptor_reader.specs.Walk.{made_words, Gathered};

use super::cut::{Descriptor, Descriptors};
use descriptor::WordKind;
use descriptor_raw::{DescriptorKind, READ_WORDS, place};
use function_answer::Refusal;

#[tactic(auto, unfolding(descriptor_raw::specs::Words::configuration_word))]
fn configuration_word(value: u8) -> u32
    ensures { result ≡ configuration_word value }
{
    (value as u64 * descriptor::VALUE_LSB) as u32
}

#[tactic(auto, unfolding(descriptor_raw::specs::Words::alternate_word))]
fn alternate_word(interface: u8, alternate: u8) -> u32
    ensures { result ≡ alternate_word interface alternate }
{
    let w = descriptor::ALTERNATE as u64 * descriptor::KIND_LSB
        + interface as u64 * descriptor::INTERFACE_LSB
        + alternate as u64 * descriptor::SETTING_LSB;
    w as u32
}

#[tactic(auto, unfolding(descriptor_raw::specs::Words::endpoint_word))]
fn endpoint_word(address: u8, attributes: u8, packet: u16, interval: u8) -> u32
    ensures { result ≡ endpoint_word address attributes packet interval }
{
    let size = packet as u64 % place::PACKETS_LSB as u64;
    let packets = packet as u64 / place::PACKETS_LSB as u64 % 4 + 1;
    let w = descriptor::ENDPOINT as u64 * descriptor::KIND_LSB
        + (address / 128) as u64 * descriptor::IN_LSB
        + (address % 16) as u64 * descriptor::NUMBER_LSB
        + (attributes % 4) as u64 * descriptor::TYPE_LSB
        + size * descriptor::PACKET_SIZE_LSB
        + packets * descriptor::PACKETS_LSB
        + interval as u64 * descriptor::INTERVAL_LSB;
    w as u32
}

#[tactic(auto, unfolding(descriptor_raw::specs::Words::companion_word))]
fn companion_word(burst: u8, attributes: u8, bytes: u16) -> u32
    ensures { result ≡ companion_word burst attributes bytes }
{
    let w = descriptor::COMPANION as u64 * descriptor::KIND_LSB
        + (burst % 16) as u64 * descriptor::BURST_LSB
        + (attributes % 4) as u64 * descriptor::MULT_LSB
        + bytes as u64 * descriptor::BYTES_LSB;
    w as u32
}

// What a descriptor yields.
#[tactic(auto, using(crate::proofs::Judged::long_configuration, crate::proofs::Judged::long_interface, crate::proofs::Judged::long_endpoint, crate::proofs::Judged::long_companion))]
fn word_of(d: Descriptor) -> Option<u32>
    ensures { made_words result ≡ words_of d.entry.companions d.entry.bytes.now }
{
    match d.kind() {
        DescriptorKind::Configuration => Some(configuration_word(
            d.bytes[place::CONFIGURATION_VALUE],
        )),
        DescriptorKind::Interface => Some(alternate_word(
            d.bytes[place::INTERFACE_NUMBER],
            d.bytes[place::ALTERNATE_SETTING],
        )),
        DescriptorKind::Endpoint => Some(endpoint_word(
            d.bytes[place::ENDPOINT_ADDRESS],
            d.bytes[place::ENDPOINT_ATTRIBUTES],
            d.two_bytes(place::MAX_PACKET_SIZE),
            d.bytes[place::INTERVAL],
        )),
        DescriptorKind::Companion => if d.companions {
            Some(companion_word(
                d.bytes[place::MAX_BURST],
                d.bytes[place::COMPANION_ATTRIBUTES],
                d.two_bytes(place::BYTES_PER_INTERVAL),
            ))
        } else {
            None
        },
        DescriptorKind::Other => None,
    }
}

// The type number of an isochronous endpoint.
const ISOCHRONOUS: u64 = 1;

#[tactic(auto, using(descriptor::proofs::Kind::kind_test), unfolding(descriptor_raw::specs::Read::is_isochronous, descriptor::specs::Word::type_number))]
fn is_isochronous(w: u32) -> bool
    ensures { result ≡ is_isochronous w }
{
    descriptor::word_kind(w as u64) == Some(WordKind::Endpoint)
        && w as u64 / descriptor::TYPE_LSB % 4 == ISOCHRONOUS
}

// A word behind another: a companion has a mult behind an isochronous endpoint's only.
fn settled_word(last: u32, w: u32, companions: bool) -> u32
    ensures { result ≡ settled_word companions last w }
{
    let wide = w as u64;
    if !companions || !descriptor::is_companion(wide) || is_isochronous(last) {
        return w;
    }
    (wide - descriptor::companion_mult(wide) as u64 * descriptor::MULT_LSB) as u32
}

// The words of all descriptors, put into a list of 256: how many, or none where there are more.
pub fn gather(all: Descriptors, list: &mut [u32]) -> Option<usize>
    requires { length list.old ≡ 256 }
    ensures { Gathered all.entry.companions all.entry.bytes.now list.new result }
{
    let mut count = 0;
    let mut last = 0;
    for d in all {
        if let Some(w) = word_of(d) {
            if count == READ_WORDS {
                return None;
            }
            list[count] = settled_word(last, w, d.companions);
            last = w;
            count += 1;
        }
    }
    Some(count)
}

// Takes a list into the words that are lent, if it is valid at its speed and the bursts fit.
pub fn take_list(list: &[u32], speed: u8, fit: bool, words: &mut [u32]) -> Result<usize, Refusal>
    requires { length list.now ≤ length words.old }
    ensures { leaves result words.new ≡ unless (list_ok speed list.now) DescriptorList words.old (unless (fit && companions_fit speed list.now) Companion words.old (accepts list.now words.old)) }
{
    if !descriptor_list::list_ok(list, speed) {
        return Err(Refusal::DescriptorList);
    }
    if !fit || !descriptor_list::companions_fit(list, speed) {
        return Err(Refusal::Companion);
    }
    words[..list.len()].copy_from_slice(list);
    Ok(list.len())
}
