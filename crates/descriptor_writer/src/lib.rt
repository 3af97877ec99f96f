// The writer of raw configuration descriptors: descriptor words to bytes.
#![tactic(auto)]

mod claims;
mod made;
mod put;

ghost use Rattle.std.specs.Prelude.{◌≡◌};
ghost use Rattle.function_answer.specs.Answer.{leaves};
ghost use Rattle.descriptor_raw.specs.Write.{packets_given, write_descriptors};
ghost use Rattle.descriptor_writer.specs.Written.{gives_packets};

use descriptor::WordKind;
use descriptor_raw::WRITE_BYTES;
use function_answer::Refusal;

// Whether a word is no endpoint's or has packets.
fn gives_packets(w: u32) -> bool
    ensures { result ≡ gives_packets w }
{
    !(descriptor::word_kind(w as u64) == Some(WordKind::Endpoint)
        && descriptor::endpoint_descriptor(w as u64).packets_per_microframe == 0)
}

// Whether no endpoint word has packets 0.
fn packets_given(list: &[u32]) -> bool
    ensures { result ≡ packets_given list.now }
{
    list.iter().all(|w| gives_packets(*w))
}

// Writes a list of a device of a speed into the first bytes that are lent, of which there must be 2,304 or more.
pub fn write_descriptors(list: &[u32], speed: u8, bytes: &mut [u8]) -> Result<usize, Refusal>
    ensures { leaves result bytes.new ≡ write_descriptors speed list.now bytes.old }
{
    if bytes.len() < WRITE_BYTES {
        return Err(Refusal::TooShort);
    }
    if !def::speed_known(speed) {
        return Err(Refusal::Speed);
    }
    if !descriptor_list::list_ok(list, speed) {
        return Err(Refusal::DescriptorList);
    }
    if !descriptor_list::companions_fit(list, speed) {
        return Err(Refusal::Companion);
    }
    if !packets_given(list) {
        return Err(Refusal::Malformed);
    }
    Ok(put::put_all(list, bytes))
}
