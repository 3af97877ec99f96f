// The reader of raw configuration descriptors: bytes to descriptor words.
#![tactic(auto)]

mod bursts;
mod claims;
mod cut;
mod words;

ghost use Rattle.std.specs.Prelude.{◌≡◌};
ghost use Rattle.function_answer.specs.Answer.{leaves};
ghost use Rattle.descriptor_raw.specs.Read.{read_descriptors};

use cut::Descriptors;
use descriptor_raw::READ_WORDS;
use function_answer::Refusal;

// Reads bytes of a device of a speed into the first words that are lent, of which there must be 256 or more.
pub fn read_descriptors(bytes: &[u8], speed: u8, words: &mut [u32]) -> Result<usize, Refusal>
    ensures { leaves result words.new ≡ read_descriptors speed bytes.now words.old }
{
    if words.len() < READ_WORDS {
        return Err(Refusal::TooShort);
    }
    if !def::speed_known(speed) {
        return Err(Refusal::Speed);
    }
    let descriptors = Descriptors::of(bytes, def::is_super(speed)).ok_or(Refusal::Malformed)?;
    if !claims::all_borne_out(descriptors) {
        return Err(Refusal::Malformed);
    }
    // Memory of its own beside a count, since there is no heap for a Vec.
    let mut list = [0u32; READ_WORDS];
    let count = words::gather(descriptors, &mut list).ok_or(Refusal::DescriptorList)?;
    let fit = bursts::bursts_fit(descriptors);
    words::take_list(&list[..count], speed, fit, words)
}
