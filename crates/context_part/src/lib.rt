// An endpoint's block, as a part of the input or the output context that is lent.
#![tactic(auto)]

ghost use Rattle.std.specs.Prelude.{◌≡◌};
ghost use Rattle.context_part.specs.Part.{spacing_of, placed_block, endpoint_block};

use function_answer::Refusal;

// Where a block begins in its context, and how many bytes it has.
#[derive(Clone, Copy)]
pub struct Part {
    pub offset: usize,
    pub length: usize,
}

// The spacing of an input context of 33 blocks and an output context of 32; none where a length is another or the two differ in spacing.
#[tactic(auto, unfolding(crate::specs::Part::spacing_of, crate::specs::Part::are_spaced))]
fn spacing_of(input: usize, output: usize) -> Option<usize>
    ensures { result ≡ spacing_of input output }
{
    if input == 1056 && output == 1024 {
        return Some(32);
    }
    if input == 2112 && output == 2048 {
        return Some(64);
    }
    None
}

// The block of a Dci in one of two contexts of these lengths.
pub fn placed_block(
    input: usize,
    output: usize,
    from_output: bool,
    dci: u8,
) -> Result<Part, Refusal>
    ensures { result ≡ placed_block input output from_output dci }
{
    let Some(spacing) = spacing_of(input, output) else {
        return Err(Refusal::ContextLength);
    };
    if dci < 1 || 31 < dci {
        return Err(Refusal::NoEndpoint);
    }
    let blocks = if from_output {
        dci as usize
    } else {
        dci as usize + 1
    };
    Ok(Part {
        offset: blocks * spacing,
        length: spacing,
    })
}

// The same as a part of the context, as lent; no byte where it is refused.
pub fn endpoint_block<'a>(input: &'a [u8], output: &'a [u8], from_output: bool, dci: u8) -> &'a [u8]
    ensures { result.now ≡ endpoint_block from_output dci input.entry.now output.entry.now }
{
    let Ok(part) = placed_block(input.len(), output.len(), from_output, dci) else {
        return &input[..0];
    };
    let end = part.offset + part.length;
    if from_output {
        return &output[part.offset..end];
    }
    &input[part.offset..end]
}
