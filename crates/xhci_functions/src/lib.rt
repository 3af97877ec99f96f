// The functions outside a slot that crates/xhci_functions_c exports to C. There is a function here for each export, since a crate is a
// library or an archive.
#![tactic(auto)]

ghost use Rattle.std.specs.Prelude.{◌≡◌, ltb};
ghost use Rattle.descriptor_raw.specs.Read.{read_descriptors};
ghost use Rattle.descriptor_raw.specs.Write.{write_descriptors};
ghost use Rattle.settings_form.specs.Convert.{to_new, to_old};
ghost use Rattle.context_part.specs.Part.{placed_block};
ghost use Rattle.xhci_functions.specs.Crossed.{answered_of, crosses, crossed, placed_of};

pub use answer::Answered;
use context_part::Part;
use function_answer::Refusal;

// The number of an answer, no code, and how many words or bytes were written. No `impl From`, since both types are other crates'.
#[tactic(auto, unfolding(crate::specs::Crossed::answered_of, function_answer::specs::Answer::number, function_answer::specs::Answer::count_of))]
fn as_answered(a: Result<usize, Refusal>) -> Answered
    ensures { result ≡ answered_of a }
{
    match a {
        Ok(count) => Answered {
            answer: 0,
            code: 0,
            count,
        },
        Err(refusal) => Answered {
            answer: refusal.number(),
            code: 0,
            count: 0,
        },
    }
}

#[tactic(auto, unfolding(crate::specs::Crossed::crossed))]
pub fn xhci_device_read_descriptors(bytes: &[u8], speed: u8, words: &mut [u32]) -> Answered
    ensures { crosses result words.new ≡ crossed (read_descriptors speed bytes.now words.old) }
{
    as_answered(descriptor_reader::read_descriptors(bytes, speed, words))
}

#[tactic(auto, unfolding(crate::specs::Crossed::crossed))]
pub fn xhci_device_write_descriptors(list: &[u32], speed: u8, bytes: &mut [u8]) -> Answered
    ensures { crosses result bytes.new ≡ crossed (write_descriptors speed list.now bytes.old) }
{
    as_answered(descriptor_writer::write_descriptors(list, speed, bytes))
}

#[tactic(auto, unfolding(crate::specs::Crossed::crossed))]
pub fn xhci_device_settings_to_new(
    settings: &[u8],
    list: &[u32],
    speed: u8,
    bytes: &mut [u8],
) -> Answered
    ensures { crosses result bytes.new ≡ crossed (to_new speed settings.now list.now bytes.old) }
{
    as_answered(settings_form::to_new(settings, list, speed, bytes))
}

#[tactic(auto, unfolding(crate::specs::Crossed::crossed))]
pub fn xhci_device_settings_to_old(
    settings: &[u8],
    list: &[u32],
    speed: u8,
    bytes: &mut [u8],
) -> Answered
    ensures { crosses result bytes.new ≡ crossed (to_old speed settings.now list.now bytes.old) }
{
    as_answered(settings_form::to_old(settings, list, speed, bytes))
}

// Where an endpoint's block stands: the number of the answer and, where it is 0, where the block begins in its context, and how many bytes it has.
#[repr(C)]
#[derive(Clone, Copy)]
pub struct Placed {
    pub answer: u32,
    pub offset: usize,
    pub length: usize,
}

#[tactic(auto, unfolding(crate::specs::Crossed::placed_of))]
fn as_placed(a: Result<Part, Refusal>) -> Placed
    ensures { result ≡ placed_of a }
{
    match a {
        Ok(part) => Placed {
            answer: 0,
            offset: part.offset,
            length: part.length,
        },
        Err(refusal) => Placed {
            answer: refusal.number(),
            offset: 0,
            length: 0,
        },
    }
}

// The block of a Dci in an input or an output context of these lengths. A reference cannot cross, so C gets numbers.
pub fn xhci_device_block(input: usize, output: usize, from_output: u8, dci: u8) -> Placed
    ensures { result ≡ placed_of (placed_block input output (ltb 0 from_output) dci) }
{
    as_placed(context_part::placed_block(input, output, 0 < from_output, dci))
}
