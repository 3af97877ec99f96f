// The blocks of an input context, 32 bytes each: what a step makes of their fields (context.rs and device.rs of the original).
// The code that writes them: context_block_writer.
#![tactic(auto)]

ghost use Rattle.std.specs.Prelude.{◌≡◌, ◌<◌};
ghost use Rattle.context_block.specs.Blocks.{word_dci};
ghost use Rattle.context_block.specs.Flags.{flags_of};

use def::Dci;

// The Dci of an endpoint word.
#[tactic(auto, using(descriptor::proofs::Laws::dci_small), unfolding(crate::specs::Blocks::word_dci))]
pub fn word_dci(w: u64) -> Dci
    ensures { (result.0 ≡ word_dci w) × (result.0 < 32) }
{
    let e = descriptor::endpoint_descriptor(w);
    descriptor::endpoint_address_dci(e.address)
}

// Endpoint words as flags: the bit of each Dci that one of them has is set.
pub fn word_flags(words: &[u64]) -> u32
    ensures { result ≡ flags_of words.now }
{
    let mut flags = 0;
    for w in words {
        flags |= 1 << word_dci(*w).0;
    }
    flags
}
